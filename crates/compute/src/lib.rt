// Computing a delta for a digest that a peer sent, in the edition whose number the caller tells: which nodes it is behind with, their line, and what fits of
// them under the MTU, written into the lent datagram from a stated place on. Any table bytes, any digest bytes and any lists are an input.
#![tactic(auto)]

ghost use Rattle.std.specs.Prelude.{◌≡◌, true, ◌+◌, ◌≤◌, ◌<◌, length};
ghost use Rattle.rules.specs.Answers.{computed_told};
ghost use Rattle.rules.specs.Given.{Gives, Tells};
ghost use Rattle.rules.specs.Compute.{from_of, compute, compute_for};
ghost use Rattle.rules.specs.Digest.{read_digest};
ghost use Rattle.rules.specs.Layout.{decode, valid};
ghost use Rattle.table.specs.Fits.{LaidTable};
ghost use Rattle.table.specs.Tests.{nodes_of};
ghost use Rattle.digest_read.specs.Held.{entries_in};
ghost use Rattle.rules.specs.Lent.{lent_compute};
ghost use Rattle.compute.specs.Asking.{mtu_fits, is_free, asked_of};
ghost use Rattle.compute.specs.Lined.{staleness_of, LinedUp, delta_in};

use digest_read::Digest;
use rules::{Refusal, Sent, sizes, wire};
use table::layout;

// The stale nodes by their places in the table, the first of the line last; a from stands at its node's place.
#[derive(Clone, Copy)]
pub struct Lined {
    pub line: [usize; sizes::NODES],
    pub froms: [u64; sizes::NODES],
    pub count: usize,
}

// From is 0 where own last_gc exceeds both digest numbers, else the digest max.
fn from_of(own_last_gc: u64, last_gc: u64, max: u64) -> u64
    ensures { result ≡ from_of own_last_gc last_gc max }
{
    if own_last_gc <= last_gc {
        return max;
    }
    if own_last_gc <= max {
        return max;
    }
    0
}

// How the digest stands to the node at a place.
pub fn stale_from(table: &[u8], p: usize, digest: Digest, excluded: &[u64]) -> Option<u64>
    requires { LaidTable table.now × (p < nodes_of table.now) }
    ensures { result ≡ staleness_of excluded.now (entries_in digest) (decode table.now) p }
{
    let number = table_read::number_at(table, p);
    if table_read::is_excluded(excluded, number) {
        return None;
    }
    let told = digest_read::told(digest, number);
    let max = told.max;
    if table_read::max_at(table, p) <= max {
        return None;
    }
    Some(from_of(table_read::last_gc_at(table, p), told.last_gc, max))
}

// The line of the stale nodes.
fn line_up(table: &[u8], digest: Digest, excluded: &[u64], ties: &[u64]) -> Lined
    requires { LaidTable table.now × (nodes_of table.now ≤ length ties.now) }
    ensures { LinedUp excluded.now (entries_in digest) ties.now (decode table.now) result }
{
    let mut line = [0usize; sizes::NODES];
    let mut froms = [0u64; sizes::NODES];
    let mut counts = [0u64; sizes::NODES];
    let mut n = 0;
    for i in (0..fields::byte_at(table, layout::NODE_COUNT)).rev() {
        if let Some(from) = stale_from(table, i, digest, excluded) {
            froms[i] = from;
            counts[i] = compute_stale::count_stale(table::node_of(table, i), from) as u64;
            compute_order::queue(table, &froms, &counts, ties, &mut line, n, i);
            n += 1;
        }
    }
    Lined {
        line,
        froms,
        count: n,
    }
}

// The delta for a digest that was read, written into a part of the datagram that is as long as the MTU.
pub fn write_delta(
    table: &[u8],
    digest: Digest,
    excluded: &[u64],
    ties: &[u64],
    part: &mut [u8],
) -> Sent
    requires { LaidTable table.now × (nodes_of table.now ≤ length ties.now) }
    ensures { Gives (delta_in excluded.now ties.now (entries_in digest) (decode table.now) part.old)
        result part.new }
{
    let lined = line_up(table, digest, excluded, ties);
    let line = lined.line;
    let froms = lined.froms;
    compute_write::write_nodes(table, &froms, &line, lined.count, part)
}

// Whether the MTU is one.
pub fn mtu_fits(mtu: usize) -> bool
    ensures { result ≡ mtu_fits mtu }
{
    if mtu < sizes::LEAST_MTU {
        return false;
    }
    mtu <= sizes::LONGEST_DELTA
}

// Whether a whole MTU is free from the place on, in a datagram of so many bytes.
pub fn is_free(place: usize, mtu: usize, room: usize) -> bool
    ensures { result ≡ is_free place mtu room }
{
    if room < place {
        return false;
    }
    mtu <= room - place
}

// 7, 8, 15: the MTU, the place in the datagram, a tie number for each node.
pub fn ask(mtu: usize, place: usize, room: usize, ties: usize, nodes: usize) -> Result<(), Refusal>
    ensures { result ≡ asked_of mtu place room ties nodes }
{
    if mtu_fits(mtu) {
        if is_free(place, mtu, room) {
            if ties == nodes {
                return Ok(());
            }
            return Err(Refusal::BadTies);
        }
        return Err(Refusal::NoPlace);
    }
    Err(Refusal::BadMtu)
}

// The delta for a digest, in an edition that there is, from a table that is known to be good: 7, 8, 15, then the digest's numbers in its edition's order, or
// the delta.
fn compute_known(
    table: &[u8],
    edition: u64,
    digest: &[u8],
    mtu: usize,
    excluded: &[u64],
    ties: &[u64],
    datagram: &mut [u8],
    place: usize,
) -> Result<Sent, Refusal>
    requires { valid table.now ≡ true }
    ensures { Gives (compute_for excluded.now ties.now mtu place (read_digest edition digest.now)
        (decode table.now) datagram.old) result datagram.new }
{
    ask(
        mtu,
        place,
        datagram.len(),
        ties.len(),
        fields::byte_at(table, layout::NODE_COUNT),
    )?;
    let d = digest_read::read_digest(edition, digest);
    d.read?;
    let end = place + mtu;
    let sent = write_delta(table, d, excluded, ties, &mut datagram[place..end]);
    Ok(sent)
}

// The same of any edition's number: 20, then as above.
pub fn compute_good(
    table: &[u8],
    edition: u64,
    digest: &[u8],
    mtu: usize,
    excluded: &[u64],
    ties: &[u64],
    datagram: &mut [u8],
    place: usize,
) -> Result<Sent, Refusal>
    requires { valid table.now ≡ true }
    ensures { Gives (compute edition excluded.now ties.now mtu place digest.now
        (decode table.now) datagram.old) result datagram.new }
{
    if wire::is_edition(edition) {
        return compute_known(table, edition, digest, mtu, excluded, ties, datagram, place);
    }
    Err(Refusal::BadEdition)
}

// The delta for a digest, from any lent table: 14, then as above. A refusal leaves the datagram as it was; a delta leaves the bytes before its place
// and those behind its end.
pub fn compute(
    table: &[u8],
    edition: u64,
    digest: &[u8],
    mtu: usize,
    excluded: &[u64],
    ties: &[u64],
    datagram: &mut [u8],
    place: usize,
) -> Result<Sent, Refusal>
    ensures { Tells computed_told (lent_compute edition excluded.now ties.now mtu place digest.now
        datagram.old table.now) result datagram.new }
{
    if table_check::check_table(table) {
        return compute_good(
            &table[..layout::AREA],
            edition,
            digest,
            mtu,
            excluded,
            ties,
            datagram,
            place,
        );
    }
    Err(Refusal::BadTable)
}
