// Writing the digest of a lent table into a lent datagram from a stated place on, in the edition whose number the caller tells. Excluded nodes are left
// out. The bytes before the place and those behind the digest stay as they are. What is written is what the definitions of `rules` say.
#![tactic(auto)]

ghost use Rattle.std.specs.Prelude.{◌≡◌, true, ◌+◌, ◌*◌, ◌≤◌, length};
ghost use Rattle.fields.specs.Blocks.{flat};
ghost use Rattle.fields.specs.Parts.{put};
ghost use Rattle.rules.specs.Answers.{written_told};
ghost use Rattle.rules.specs.Given.{Gives, Tells};
ghost use Rattle.fields.specs.Numbers.{bytes_of};
ghost use Rattle.rules.specs.Digest.{digest_bytes, digest_of, digest_of_node, entry_bytes, entry_width, head_width, is_edition, write_digest};
ghost use Rattle.rules.specs.Layout.{decode, decode_node, node_width, valid};
ghost use Rattle.rules.specs.Lent.{lent_digest};
ghost use Rattle.rules.specs.Sizes.{max_nodes};
ghost use Rattle.table.specs.Fits.{LaidTable};
ghost use Rattle.digest_read.specs.Held.{back, held};
ghost use Rattle.digest_write.specs.Digests.{EntriesFit};

use digest_read::NodeDigest;
use rules::{Refusal, wire};
use table::layout;

// What the digest tells of the node in these bytes.
fn entry_of(node: &[u8]) -> NodeDigest
    requires { length node.now ≡ node_width }
    ensures { result ≡ held (digest_of_node (decode_node node.now)) }
{
    let header = table_read::read_header(node);
    NodeDigest {
        number: fields::read_u64(node, layout::NUMBER),
        heartbeat: header.heartbeat,
        last_gc: header.last_gc,
        max: header.max,
    }
}

// How many nodes of the table are not excluded.
fn count_written(table: &[u8], excluded: &[u64]) -> usize
    requires { LaidTable table.now }
    ensures { (result ≡ length (digest_of excluded.now (decode table.now))) × (result ≤ max_nodes) }
{
    let nodes = fields::byte_at(table, layout::NODE_COUNT);
    let mut count = 0;
    for i in 0..nodes {
        let number = fields::read_u64(table::node_of(table, i), layout::NUMBER);
        if table_read::is_excluded(excluded, number) {
            continue;
        }
        count += 1;
    }
    count
}

// Stores an entry in its bytes.
fn write_entry(datagram: &mut [u8], entry: NodeDigest)
    requires { entry_width ≤ length datagram.old }
    ensures { datagram.new ≡ put 0 (entry_bytes (back entry)) datagram.old }
{
    fields::write_u64(datagram, wire::ENTRY_NUMBER, entry.number);
    fields::write_u64(datagram, wire::ENTRY_HEARTBEAT, entry.heartbeat.0);
    fields::write_u64(datagram, wire::ENTRY_LAST_GC, entry.last_gc);
    fields::write_u64(datagram, wire::ENTRY_MAX, entry.max);
}

// Stores the entries of the nodes that are not excluded, one behind the other.
fn write_entries(table: &[u8], excluded: &[u64], datagram: &mut [u8])
    requires { LaidTable table.now × EntriesFit 0 excluded.now table.now datagram.old }
    ensures { datagram.new ≡ put 0 (flat entry_bytes (digest_of excluded.now (decode table.now))) datagram.old }
{
    let nodes = fields::byte_at(table, layout::NODE_COUNT);
    let mut at = 0;
    for i in 0..nodes {
        let e = entry_of(table::node_of(table, i));
        if table_read::is_excluded(excluded, e.number) {
            continue;
        }
        let end = at + wire::ENTRY_WIDTH;
        write_entry(&mut datagram[at..end], e);
        at = end;
    }
}

// Stores the count in front of the entries, where the edition has one.
fn write_count(datagram: &mut [u8], edition: u64, count: usize)
    requires { head_width edition ≤ length datagram.old }
    ensures { datagram.new ≡ put 0 (bytes_of (head_width edition) count) datagram.old }
{
    if edition == wire::V0 {
        fields::write_u16(datagram, 0, count);
    }
}

// Stores the count and the entries at the front of what is lent.
fn store_digest(table: &[u8], edition: u64, excluded: &[u64], datagram: &mut [u8], count: usize)
    requires { LaidTable table.now × EntriesFit (head_width edition) excluded.now table.now datagram.old
        × (count ≡ length (digest_of excluded.now (decode table.now))) }
    ensures { datagram.new
        ≡ put 0 (digest_bytes edition (digest_of excluded.now (decode table.now))) datagram.old }
{
    write_count(datagram, edition, count);
    let head = wire::head_width(edition);
    write_entries(table, excluded, &mut datagram[head..]);
}

// The bytes of a digest of so many nodes.
fn size_for(edition: u64, count: usize) -> usize
    requires { count ≤ max_nodes }
    ensures { result ≡ head_width edition + count * entry_width }
{
    wire::head_width(edition) + count * wire::ENTRY_WIDTH
}

// The bytes of the digest of the table.
pub fn digest_size(table: &[u8], edition: u64, excluded: &[u64]) -> usize
    requires { LaidTable table.now }
    ensures { result ≡ length (digest_bytes edition (digest_of excluded.now (decode table.now))) }
{
    size_for(edition, count_written(table, excluded))
}

// The digest in an edition that there is: 8 where the place is past the end or too few bytes are free from there, or the bytes.
fn write_known(
    table: &[u8],
    edition: u64,
    excluded: &[u64],
    datagram: &mut [u8],
    place: usize,
) -> Result<usize, Refusal>
    requires { (valid table.now ≡ true) × (is_edition edition ≡ true) }
    ensures { Gives (write_digest edition excluded.now place (decode table.now) datagram.old)
        result datagram.new }
{
    if datagram.len() < place {
        return Err(Refusal::NoPlace);
    }
    let count = count_written(table, excluded);
    let size = size_for(edition, count);
    if datagram.len() - place < size {
        return Err(Refusal::NoPlace);
    }
    store_digest(table, edition, excluded, &mut datagram[place..], count);
    Ok(size)
}

// The digest of a table that is known to be good: 20 for another edition, then as above.
pub fn write_good(
    table: &[u8],
    edition: u64,
    excluded: &[u64],
    datagram: &mut [u8],
    place: usize,
) -> Result<usize, Refusal>
    requires { valid table.now ≡ true }
    ensures { Gives (write_digest edition excluded.now place (decode table.now) datagram.old)
        result datagram.new }
{
    if wire::is_edition(edition) {
        return write_known(table, edition, excluded, datagram, place);
    }
    Err(Refusal::BadEdition)
}

// The digest of any lent table, from `place` on in the datagram: 14, then as above.
pub fn write_digest(
    table: &[u8],
    edition: u64,
    excluded: &[u64],
    datagram: &mut [u8],
    place: usize,
) -> Result<usize, Refusal>
    ensures { Tells written_told (lent_digest edition excluded.now place datagram.old table.now)
        result datagram.new }
{
    if table_check::check_table(table) {
        return write_good(&table[..layout::AREA], edition, excluded, datagram, place);
    }
    Err(Refusal::BadTable)
}
