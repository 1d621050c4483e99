// The lines of a plan, one after the other: whether each can be sent and in how many bytes, and then their operations, written into the lent datagram. A
// first pass asks everything and sums the sizes; only what it accepts is written by the second. At most eight lines can pass, so that a list of any length ends
// at its ninth line.
#![tactic(auto)]

ghost use Rattle.std.specs.Prelude.{◌≡◌, true, ◌-◌, ◌≤◌, ◌<◌, length, take};
ghost use Rattle.rules.specs.Compute.{stale};
ghost use Rattle.rules.specs.Delta.{KeyValueOp, delta_bytes, size_of};
ghost use Rattle.rules.specs.Given.{Gives};
ghost use Rattle.rules.specs.Layout.{decode, valid};
ghost use Rattle.rules.specs.Sizes.{max_records};
ghost use Rattle.rules.specs.Table.{node_of};
ghost use Rattle.table.specs.Fits.{LaidTable};
ghost use Rattle.table.specs.Tests.{nodes_of};
ghost use Rattle.table_read.specs.Find.{entry_at};
ghost use Rattle.digest_read.specs.Held.{entries_in};
ghost use Rattle.compute.specs.Lined.{at_front};
ghost use Rattle.delta_write.specs.Written.{write_op};
ghost use Rattle.compute_stale.specs.Arranged.{listed, AllBelow};
ghost use Rattle.compute_write.specs.Sending.{record_at, sending};
ghost use Rattle.plan.specs.Faults.{count_fault, judge, line_fault, line_size};
ghost use Rattle.plan.specs.Plan.{line_ops, named, plan_ops, stale_for};
ghost use Rattle.plan_lines.specs.Lines.{above_of, as_line, line_at, ops_at, records_at, taken};

use digest_read::Digest;
use plan::{Fault, NotSent};
use rules::{Sent, wire};
use table::layout;
use table_read::Place;

// Stale records of a node: how many, and how many bytes they take as operations.
#[derive(Clone, Copy)]
pub struct Above {
    pub count: usize,
    pub bytes: usize,
}

// The bytes of record `q` of the node at `p`, as an operation.
fn record_size(table: &[u8], p: usize, q: usize) -> usize
    requires { LaidTable table.now × (p < nodes_of table.now) × (q < length (entry_at (decode table.now) p).node.recs) }
    ensures { result ≡ size_of (KeyValueOp (record_at (decode table.now) p q)) }
{
    let b = table::record_of(table::node_of(table, p), q);
    wire::BESIDE_TEXTS + table::key_of(b).len() + table::value_of(b).len()
}

// The bytes of a line that takes the first `count` of the `n` places of records in order: the Node, then the records, or SetMaxVersion where it takes none.
fn size_of(table: &[u8], p: usize, from: u64, at: &[usize], n: usize, count: usize) -> usize
    requires { LaidTable table.now × (p < nodes_of table.now) × (length at.now ≡ max_records) × (n ≤ max_records) × (count ≤ n)
        × AllBelow (length (entry_at (decode table.now) p).node.recs) (listed n at.now) }
    ensures { result ≡ length (delta_bytes (ops_at (decode table.now) p from (take count (listed n at.now)))) }
{
    if count == 0 {
        return wire::NODE_WIDTH + wire::MAX_WIDTH;
    }
    let mut size = wire::NODE_WIDTH;
    let end = n - count;
    for k in (end..n).rev() {
        let q = at[k];
        size += record_size(table, p, q);
    }
    size
}

// The version of record `q` of the node at `p`.
fn version_at(table: &[u8], p: usize, q: usize) -> u64
    requires { LaidTable table.now × (p < nodes_of table.now) × (q < length (entry_at (decode table.now) p).node.recs) }
    ensures { result ≡ (record_at (decode table.now) p q).version }
{
    let b = table::record_of(table::node_of(table, p), q);
    fields::read_u64(b, layout::VERSION)
}

// The stale records of the node at `p`, all of them: how many, and their bytes. A sum needs no order.
fn weigh_all(table: &[u8], p: usize, from: u64) -> Above
    requires { LaidTable table.now × (p < nodes_of table.now) }
    ensures { result ≡ above_of (stale from (entry_at (decode table.now) p).node.recs) }
{
    let n = fields::byte_at(table::node_of(table, p), layout::RECORD_COUNT);
    let mut count = 0;
    let mut bytes = 0;
    for i in 0..n {
        if from < version_at(table, p, i) {
            count += 1;
            bytes += record_size(table, p, i);
        }
    }
    Above { count, bytes }
}

// The bytes of a line that takes the `count` lowest versions of a node's stale records; only where that is a part of them they are put in order.
fn line_size(table: &[u8], p: usize, from: u64, count: usize, all: Above) -> usize
    requires { LaidTable table.now × (p < nodes_of table.now) × (all ≡ above_of (stale from (entry_at (decode table.now) p).node.recs))
        × (count ≤ all.count) }
    ensures { result ≡ length (delta_bytes (line_at (decode table.now) p from count)) }
{
    if 0 < count {
        if count == all.count {
            return wire::NODE_WIDTH + all.bytes;
        }
    }
    let stale = compute_stale::stale_places(table::node_of(table, p), from);
    let at = stale.at;
    size_of(table, p, from, &at, stale.count, count)
}

// A line about the node at `p`, so many bytes being left of the MTU: its count, then its bytes.
fn weigh(table: &[u8], p: usize, from: u64, count: u64, left: usize) -> Result<usize, Fault>
    requires { LaidTable table.now × (p < nodes_of table.now) }
    ensures { result ≡ as_line (count_fault count (stale from (entry_at (decode table.now) p).node.recs)
        (length (delta_bytes (line_at (decode table.now) p from count))) left)
        (length (delta_bytes (line_at (decode table.now) p from count))) }
{
    let all = weigh_all(table, p, from);
    let n = all.count;
    if (n as u64) < count {
        return Err(Fault::TooMany);
    }
    if count == 0 {
        if n != 0 {
            return Err(Fault::TooFew);
        }
    }
    let size = line_size(table, p, from, count as usize, all);
    if left < size {
        return Err(Fault::NoFit);
    }
    Ok(size)
}

// A line behind those that name the nodes `before` and leave so many bytes of the MTU: held, not excluded, named once, stale; then its count and its bytes.
fn judge_line(
    table: &[u8],
    digest: Digest,
    excluded: &[u64],
    before: &[u64],
    left: usize,
    number: u64,
    count: u64,
) -> Result<usize, Fault>
    requires { valid table.now ≡ true }
    ensures { result ≡ as_line (line_fault excluded.now before.now left (entries_in digest) number count
        (node_of number (decode table.now)))
        (line_size (entries_in digest) number count (node_of number (decode table.now))) }
{
    let Place::At(p) = table_read::find_node(table, number) else {
        return Err(Fault::NotHeld);
    };
    if table_read::is_excluded(excluded, number) {
        return Err(Fault::Excluded);
    }
    if table_read::is_excluded(before, number) {
        return Err(Fault::NamedBefore);
    }
    let Some(from) = compute::stale_from(table, p, digest, &excluded[..0]) else {
        return Err(Fault::UpToDate);
    };
    weigh(table, p, from, count, left)
}

// The first line that is at fault, or that none is.
pub fn judge_lines(
    table: &[u8],
    digest: Digest,
    mtu: usize,
    excluded: &[u64],
    nodes: &[u64],
    counts: &[u64],
) -> Result<(), NotSent>
    requires { valid table.now ≡ true }
    ensures { result ≡ judge excluded.now nodes.now counts.now mtu (entries_in digest) (decode table.now) }
{
    let mut left = mtu;
    for j in 0..nodes.len() {
        if counts.len() <= j {
            return Err(NotSent::AtFault {
                line: j,
                why: Fault::Alone,
            });
        }
        match judge_line(
            table,
            digest,
            excluded,
            &nodes[..j],
            left,
            nodes[j],
            counts[j],
        ) {
            Ok(size) => left -= size,
            Err(why) => return Err(NotSent::AtFault { line: j, why }),
        }
    }
    if nodes.len() < counts.len() {
        return Err(NotSent::AtFault {
            line: nodes.len(),
            why: Fault::Alone,
        });
    }
    Ok(())
}

// The smaller of a line's count and the node's stale records.
fn taken(count: u64, stale: usize) -> usize
    ensures { result ≡ taken count stale }
{
    if count < stale as u64 {
        return count as usize;
    }
    stale
}

// Writes record `q` of the node at `p`, where it fits; its texts are copied by words.
fn write_record(table: &[u8], p: usize, q: usize, datagram: &mut [u8]) -> Option<usize>
    requires { LaidTable table.now × (p < nodes_of table.now) × (q < length (entry_at (decode table.now) p).node.recs) }
    ensures { Gives (write_op (KeyValueOp (record_at (decode table.now) p q)) datagram.old) result datagram.new }
{
    if datagram.len() < record_size(table, p, q) {
        return None;
    }
    let b = table::record_of(table::node_of(table, p), q);
    Some(record_write::store_record(b, datagram))
}

// Writes the records of the node at `p` that stand behind the first `end` of the `n` places, while they fit; the first of the order stands last.
fn write_records(
    table: &[u8],
    p: usize,
    at: &[usize],
    n: usize,
    end: usize,
    datagram: &mut [u8],
) -> Sent
    requires { LaidTable table.now × (p < nodes_of table.now) × (length at.now ≡ max_records) × (n ≤ max_records) × (end ≤ n)
        × AllBelow (length (entry_at (decode table.now) p).node.recs) (listed n at.now) }
    ensures { Gives (sending 0 0 (records_at (decode table.now) p (take (n - end) (listed n at.now))) datagram.old)
        result datagram.new }
{
    let mut ops = 0;
    let mut used = 0;
    for k in (end..n).rev() {
        let q = at[k];
        let Some(size) = write_record(table, p, q, &mut datagram[used..]) else {
            break;
        };
        ops += 1;
        used += size;
    }
    Sent { ops, bytes: used }
}

// Writes the operations of a line about the node at `p`, while they fit: the Node, then the lowest versions, or SetMaxVersion where it takes no record.
fn write_line(table: &[u8], p: usize, from: u64, count: u64, datagram: &mut [u8]) -> Sent
    requires { LaidTable table.now × (p < nodes_of table.now) }
    ensures { Gives (sending 0 0 (line_at (decode table.now) p from count) datagram.old) result datagram.new }
{
    let Some(size) = compute_write::write_node(table, p, from, &mut datagram[0..]) else {
        return Sent { ops: 0, bytes: 0 };
    };
    let stale = compute_stale::stale_places(table::node_of(table, p), from);
    let at = stale.at;
    let n = stale.count;
    let count = taken(count, n);
    let max = compute_write::write_max(table, p, count, &mut datagram[size..]);
    let used = size + max.bytes;
    let records = write_records(table, p, &at, n, n - count, &mut datagram[used..]);
    Sent {
        ops: 1 + max.ops + records.ops,
        bytes: used + records.bytes,
    }
}

// Writes the operations of the line that names this node, where they fit. A node that is not held, excluded or not stale has none.
fn write_named(
    table: &[u8],
    digest: Digest,
    excluded: &[u64],
    number: u64,
    count: u64,
    datagram: &mut [u8],
) -> Sent
    requires { (valid table.now ≡ true)
        × (length (delta_bytes (line_ops count (named number (stale_for excluded.now (entries_in digest) (decode table.now))))) ≤ length datagram.old) }
    ensures { Gives (at_front (line_ops count (named number (stale_for excluded.now (entries_in digest) (decode table.now))))
        datagram.old) result datagram.new }
{
    let Place::At(p) = table_read::find_node(table, number) else {
        return Sent { ops: 0, bytes: 0 };
    };
    let Some(from) = compute::stale_from(table, p, digest, excluded) else {
        return Sent { ops: 0, bytes: 0 };
    };
    write_line(table, p, from, count, datagram)
}

// Writes the operations of the lines of a plan whose bytes fit.
pub fn write_lines(
    table: &[u8],
    digest: Digest,
    excluded: &[u64],
    nodes: &[u64],
    counts: &[u64],
    datagram: &mut [u8],
) -> Sent
    requires { (valid table.now ≡ true) × (length nodes.now ≡ length counts.now)
        × (length (delta_bytes (plan_ops (stale_for excluded.now (entries_in digest) (decode table.now)) nodes.now counts.now)) ≤ length datagram.old) }
    ensures { Gives (at_front (plan_ops (stale_for excluded.now (entries_in digest) (decode table.now)) nodes.now
        counts.now) datagram.old) result datagram.new }
{
    let mut ops = 0;
    let mut used = 0;
    for j in 0..nodes.len() {
        let sent = write_named(
            table,
            digest,
            excluded,
            nodes[j],
            counts[j],
            &mut datagram[used..],
        );
        ops += sent.ops;
        used += sent.bytes;
    }
    Sent { ops, bytes: used }
}
