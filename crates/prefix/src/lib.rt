// Listing the records of a node whose keys begin with a prefix, by a party. A hit is a record that is not hidden; its place among the records of the node
// that the party sees goes to the caller's list, one byte each, in key order from the front. Keys ascend, so those that begin with the prefix stand together,
// and both ends of them are sought by halves, then brought into the piece of rows that the party sees. A prefix of another's keys lists nothing. Where the
// list may be too short the hits are counted before the first is written, so that a call without room for them writes nothing. A name with `known` in it is
// for a table known to be good, without the check.
#![tactic(auto)]

ghost use Rattle.std.specs.Prelude.{◌≡◌, true, not, ◌+◌, ◌≤◌, ◌<◌, length};
ghost use Rattle.std.proofs.Math.Option.{some};
ghost use Rattle.fields.specs.Order.{starts_with};
ghost use Rattle.fields.specs.Parts.{part};
ghost use Rattle.rules.specs.Answers.{listed_told};
ghost use Rattle.rules.specs.Given.{Gives, Says, Tells};
ghost use Rattle.rules.specs.Node.{hidden};
ghost use Rattle.rules.specs.Table.{keys_rise};
ghost use Rattle.rules.specs.Local.{prefix_on, prefixed_as};
ghost use Rattle.rules.specs.Layout.{rec_place, rec_width, table_width, decode_rec, decode, valid};
ghost use Rattle.rules.specs.Profile.{profile_obeys};
ghost use Rattle.rules.specs.Whole.{valid_whole};
ghost use Rattle.rules.specs.Lent.{lent_prefixed};
ghost use Rattle.table.specs.Tests.{count_of, recs_in};
ghost use Rattle.table.specs.Fits.{LaidNode};
ghost use Rattle.inspect.specs.Told.{rows_told};
ghost use Rattle.prefix.specs.Run.{key_at, FirstOf, RunOf, brought_in, RunIn, piece_node, shown_in, shown_into};
ghost use Rattle.prefix.specs.Rows.{prefix_rows_on, prefix_rows_as, lent_prefix_rows};

use inspect::Rows;
use rules::{Party, Profile, Record, Refusal, Status};
use table::layout;
use table_read::Place;

// The records of a piece of a node's rows whose keys begin with a prefix: those from `start` up to `end`.
#[derive(Clone, Copy)]
pub struct Stretch {
    pub start: usize,
    pub end: usize,
}

// Whether the key of record `j` of a node's bytes begins with the prefix.
fn begins(node: &[u8], j: usize, prefix: &[u8]) -> bool
    requires { LaidNode node.now × (j < count_of node.now) }
    ensures { result ≡ starts_with prefix.now (key_at j node.now) }
{
    fields::starts_with(prefix, table::key_of(table::record_of(node, j)))
}

// Whether record `j` of a node's bytes is not hidden.
pub fn is_shown(node: &[u8], j: usize) -> bool
    requires { LaidNode node.now × (j < count_of node.now) }
    ensures { result ≡ not (hidden (decode_rec (part (rec_place j) rec_width node.now)).kv.status) }
{
    let r = table_read::read_record(table::record_of(node, j));
    let status = r.status;
    match status {
        Status::Delete => false,
        Status::Set => true,
        Status::Ttl => true,
    }
}

// The first place whose key does not come before the prefix.
pub fn run_start(node: &[u8], prefix: &[u8]) -> usize
    requires { LaidNode node.now × (keys_rise (recs_in node.now) ≡ true) }
    ensures { FirstOf prefix.now node.now result }
{
    match table_read::search_key(node, prefix) {
        Place::At(j) => j,
        Place::Free(j) => j,
    }
}

// Where the keys that begin with the prefix end, `from` being where they would begin.
pub fn run_end(node: &[u8], prefix: &[u8], from: usize) -> usize
    requires { LaidNode node.now × (keys_rise (recs_in node.now) ≡ true) × FirstOf prefix.now node.now from }
    ensures { RunOf prefix.now node.now from result }
{
    let mut low = from;
    let mut high = fields::byte_at(node, layout::RECORD_COUNT);
    // By halves, which is fewer comparisons than one place after the other; the two ends move, and no counter.
    while low < high {
        let j = (low + high) / 2;
        if begins(node, j, prefix) {
            low = j + 1;
        } else {
            high = j;
        }
    }
    low
}

// A place, or the end of the piece from `low` up to `top` that is next to it.
fn brought_in(j: usize, low: usize, top: usize) -> usize
    requires { low ≤ top }
    ensures { result ≡ brought_in j low top }
{
    if j < low {
        return low;
    }
    if top < j {
        return top;
    }
    j
}

// The run of the prefix in a piece of a node's rows: `count` of them behind `low`.
pub fn run_in(node: &[u8], low: usize, count: usize, prefix: &[u8]) -> Stretch
    requires { LaidNode node.now × (keys_rise (recs_in node.now) ≡ true) × (low + count ≤ count_of node.now) }
    ensures { RunIn prefix.now node.now low (low + count) result.start result.end }
{
    let first = run_start(node, prefix);
    let end = run_end(node, prefix, first);
    let top = low + count;
    Stretch {
        start: brought_in(first, low, top),
        end: brought_in(end, low, top),
    }
}

// How many records from `low` up to `high` of a node's bytes are not hidden.
fn count_shown(node: &[u8], low: usize, high: usize) -> usize
    requires { LaidNode node.now × (low ≤ high) × (high ≤ count_of node.now) }
    ensures { result ≡ length (shown_in 0 low high node.now) }
{
    let mut found = 0;
    for j in low..high {
        if is_shown(node, j) {
            found += 1;
        }
    }
    found
}

// The places of these records, `base` less, to the front of a list that has room for them, and how many they are.
fn write_shown(node: &[u8], base: usize, low: usize, high: usize, out: &mut [u8]) -> usize
    requires { LaidNode node.now × (base ≤ low) × (low ≤ high) × (high ≤ count_of node.now)
        × (length (shown_in base low high node.now) ≤ length out.old) }
    ensures { Gives (shown_into base low high node.now out.old) result out.new }
{
    let mut next = 0;
    for j in low..high {
        if is_shown(node, j) {
            let place = j - base;
            out[next] = place as u8;
            next += 1;
        }
    }
    next
}

// The listing of a piece of one node's rows, `count` of them behind `low`: 1, 8.
fn in_node(
    node: &[u8],
    low: usize,
    count: usize,
    prefix: &[u8],
    out: &mut [u8],
) -> Result<usize, Refusal>
    requires { LaidNode node.now × (keys_rise (recs_in node.now) ≡ true) × (low + count ≤ count_of node.now) }
    ensures { Gives (prefix_on prefix.now (some (piece_node low count node.now)) out.old) result out.new }
{
    if Record::KEY < prefix.len() {
        return Err(Refusal::TooLong);
    }
    let run = run_in(node, low, count, prefix);
    if out.len() < run.end - run.start {
        if out.len() < count_shown(node, run.start, run.end) {
            return Err(Refusal::NoPlace);
        }
    }
    Ok(write_shown(node, low, run.start, run.end, out))
}

// The listing by a party in the area of a good table of a profile: 2, 1, 8.
fn list_seen(
    area: &[u8],
    profile: Profile,
    party: Party,
    number: u64,
    prefix: &[u8],
    out: &mut [u8],
) -> Result<usize, Refusal>
    requires { (valid area.now ≡ true) × (profile_obeys profile (decode area.now) ≡ true) }
    ensures { Gives (prefixed_as profile party number prefix.now (decode area.now) out.old) result out.new }
{
    let span = table_read::node_span(area, number).ok_or(Refusal::NoNode)?;
    let sight = own_rows::sight_of(&area[span.start..span.end], profile, party);
    in_node(
        &area[span.start..span.end],
        sight.low,
        sight.count,
        prefix,
        out,
    )
}

// The listing by a party in a good table: 2, 1, 8.
pub fn list_known(
    table: &[u8],
    party: Party,
    number: u64,
    prefix: &[u8],
    out: &mut [u8],
) -> Result<usize, Refusal>
    requires { valid_whole table.now ≡ true }
    ensures { Gives (lent_prefixed party number prefix.now out.old table.now) result out.new }
{
    let profile = profile_check::profile_of(table);
    list_seen(&table[..layout::AREA], profile, party, number, prefix, out)
}

// The listing by a party in lent bytes: 14, 2, 1, 8.
pub fn list_prefix(
    table: &[u8],
    party: Party,
    number: u64,
    prefix: &[u8],
    out: &mut [u8],
) -> Result<usize, Refusal>
    ensures { Tells listed_told (lent_prefixed party number prefix.now out.old table.now) result out.new }
{
    if table_check::check_table(table) {
        list_known(table, party, number, prefix, out)
    } else {
        Err(Refusal::BadTable)
    }
}

// The records of a piece of one node's rows, `count` of them behind `low`, whose keys begin with the prefix, as if these were all rows of the node, whose bytes
// begin at `start` in the table: 1.
fn rows_in(
    node: &[u8],
    low: usize,
    count: usize,
    start: usize,
    prefix: &[u8],
) -> Result<Rows, Refusal>
    requires { LaidNode node.now × (keys_rise (recs_in node.now) ≡ true) × (low + count ≤ count_of node.now) × (start ≤ table_width) }
    ensures { result ≡ prefix_rows_on prefix.now start (some (piece_node low count node.now)) }
{
    if Record::KEY < prefix.len() {
        return Err(Refusal::TooLong);
    }
    let run = run_in(node, low, count, prefix);
    Ok(Rows {
        at: start + table::record_place(run.start - low),
        count: run.end - run.start,
    })
}

// The records of a node that a party sees and whose keys begin with the prefix, tombstones too, in the area of a good table of a profile: 2, 1.
fn rows_seen(
    area: &[u8],
    profile: Profile,
    party: Party,
    number: u64,
    prefix: &[u8],
) -> Result<Rows, Refusal>
    requires { (valid area.now ≡ true) × (profile_obeys profile (decode area.now) ≡ true) }
    ensures { result ≡ prefix_rows_as profile party number prefix.now (decode area.now) }
{
    let span = table_read::node_span(area, number).ok_or(Refusal::NoNode)?;
    let sight = own_rows::sight_of(&area[span.start..span.end], profile, party);
    rows_in(
        &area[span.start..span.end],
        sight.low,
        sight.count,
        span.start,
        prefix,
    )
}

// The same in a good table: 2, 1.
pub fn prefix_rows_known(
    table: &[u8],
    party: Party,
    number: u64,
    prefix: &[u8],
) -> Result<Rows, Refusal>
    requires { valid_whole table.now ≡ true }
    ensures { result ≡ lent_prefix_rows party number prefix.now table.now }
{
    let profile = profile_check::profile_of(table);
    rows_seen(&table[..layout::AREA], profile, party, number, prefix)
}

// The records of a node that a party sees and whose keys begin with the prefix, tombstones too: 14, 2, 1.
pub fn prefix_rows(table: &[u8], party: Party, number: u64, prefix: &[u8]) -> Result<Rows, Refusal>
    ensures { Says rows_told (lent_prefix_rows party number prefix.now table.now) result }
{
    if table_check::check_table(table) {
        prefix_rows_known(table, party, number, prefix)
    } else {
        Err(Refusal::BadTable)
    }
}
