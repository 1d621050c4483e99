// Removal by the clock: over all nodes of a lent table, the scheduled records whose grace is over go, and each node's last_gc becomes the larger of
// itself and the versions that went. A record is scheduled from its start; it stays while the time is below start and grace together, a sum that may
// exceed 64 bits and is never formed.
//
// `remove_scheduled` takes any bytes, and `remove_good` a table known to be good, without the check. `remove_within` is the same with a bound for each node:
// a record goes only if its version is within the bound. The functions above them go from one record to one node.
#![tactic(auto)]

ghost use Rattle.std.specs.Prelude.{◌≡◌, true, not, ◌&&◌, ◌+◌, ◌≤◌, ◌<◌, leb, ltb};
ghost use Rattle.rules.specs.Answers.{answer_told};
ghost use Rattle.rules.specs.Given.{Tells};
ghost use Rattle.rules.specs.Node.{goes, due};
ghost use Rattle.rules.specs.Table.{remove_all};
ghost use Rattle.rules.specs.Layout.{encode_node, decode_node, encode, decode, valid};
ghost use Rattle.rules.specs.Lent.{lent_gc};
ghost use Rattle.table.specs.Tests.{count_of, recs_in};
ghost use Rattle.table.specs.Fits.{LaidNode};
ghost use Rattle.table.specs.Places.{rec_at};
ghost use Rattle.table.specs.Changes.{with_rec_at};
ghost use Rattle.removal.specs.Removals.{due_within, first_going, with_gone, with_first, removed, remove_within};

use rules::{Refusal, Status, sizes};
use table::layout;

// Whether the grace of a record that is scheduled from `start` is over.
fn is_due(start: u64, clock: u64, grace: u64) -> bool
    ensures { result ≡ not (ltb clock (start + grace)) }
{
    start <= clock && grace <= clock - start
}

// Whether a scheduled record goes: its grace is over, and its version is within the bound.
fn may_go(start: u64, version: u64, clock: u64, grace: u64, bound: u64) -> bool
    ensures { result ≡ (not (ltb clock (start + grace)) && leb version bound) }
{
    is_due(start, clock, grace) && version <= bound
}

// Whether record `j` of a node's bytes goes.
fn must_go(node: &[u8], j: usize, clock: u64, grace: u64, bound: u64) -> bool
    requires { LaidNode node.now × (j < count_of node.now) }
    ensures { result ≡ goes (due_within bound clock grace) (rec_at j node.now) }
{
    let r = table_read::read_record(table::record_of(node, j));
    match r.status {
        Status::Set => false,
        Status::Delete | Status::Ttl => may_go(r.start, r.version, clock, grace, bound),
    }
}

// Record `j` of a node is one that goes: last_gc becomes the larger of itself and the record's version.
fn raise_last_gc(node: &mut [u8], j: usize)
    requires { LaidNode node.old × (j < count_of node.old) }
    ensures { node.new ≡ encode_node (with_gone (rec_at j node.old).kv.version (decode_node node.old)) }
{
    let held = fields::read_u64(node, layout::LAST_GC);
    let version = fields::read_u64(node, table::record_place(j) + layout::VERSION);
    table_write::set_last_gc(node, held.max(version));
}

// Record `j` of a node is one that stays: it comes to place `to`, which is not behind it.
fn bring_down(node: &mut [u8], j: usize, to: usize)
    requires { LaidNode node.old × (to ≤ j) × (j < count_of node.old) }
    ensures { node.new ≡ encode_node (with_rec_at to (rec_at j node.old) (decode_node node.old)) }
{
    let from = table::record_place(j);
    let place = table::record_place(to);
    fields::move_down(node, from, place, layout::RECORD);
}

// The first `kept` records of a node stay. The places of the others are cleared, so that they leave no byte behind.
fn cut(node: &mut [u8], kept: usize)
    requires { LaidNode node.old × (kept ≤ count_of node.old) }
    ensures { node.new ≡ encode_node (with_first kept (decode_node node.old)) }
{
    let n = fields::byte_at(node, layout::RECORD_COUNT);
    if kept < n {
        let from = table::record_place(kept);
        let room = fields::times(n - kept, layout::RECORD);
        fields::clear(node, from, room);
        fields::write_byte(node, layout::RECORD_COUNT, kept);
    }
}

// The place of the first record that goes; how many there are, where none does.
fn first_due(node: &[u8], clock: u64, grace: u64, bound: u64) -> usize
    requires { LaidNode node.now }
    ensures { result ≡ first_going (due_within bound clock grace) (recs_in node.now) }
{
    let n = fields::byte_at(node, layout::RECORD_COUNT);
    for j in 0..n {
        if must_go(node, j, clock, grace, bound) {
            return j;
        }
    }
    n
}

// All records of a node that are due go, in one pass: from the first of them on, those that stay come down to the next free place. Where none goes,
// nothing is written.
fn remove_due_within(node: &mut [u8], clock: u64, grace: u64, bound: u64)
    requires { LaidNode node.old }
    ensures { node.new ≡ encode_node (removed (due_within bound clock grace) (decode_node node.old)) }
{
    let n = fields::byte_at(node, layout::RECORD_COUNT);
    let first = first_due(node, clock, grace, bound);
    let mut kept = first;
    for j in first..n {
        if must_go(node, j, clock, grace, bound) {
            raise_last_gc(node, j);
            continue;
        }
        bring_down(node, j, kept);
        kept += 1;
    }
    cut(node, kept);
}

// All records of a node that are due go: no version passes the bound.
pub fn remove_due(node: &mut [u8], clock: u64, grace: u64)
    requires { LaidNode node.old }
    ensures { node.new ≡ encode_node (removed (due clock grace) (decode_node node.old)) }
{
    remove_due_within(node, clock, grace, u64::MAX);
}

// The removal over all nodes of a good table, with a bound for each.
pub fn remove_within(table: &mut [u8], clock: u64, grace: u64, bounds: [u64; sizes::NODES])
    requires { valid table.old ≡ true }
    ensures { table.new ≡ encode (remove_within clock grace bounds (decode table.old)) }
{
    let n = fields::byte_at(table, layout::NODE_COUNT);
    for i in 0..n {
        let a = table::node_place(i);
        let e = a + layout::NODE;
        remove_due_within(&mut table[a..e], clock, grace, bounds[i]);
    }
}

// The removal over all nodes of a good table: no version passes the bound.
pub fn remove_good(table: &mut [u8], clock: u64, grace: u64)
    requires { valid table.old ≡ true }
    ensures { table.new ≡ encode (remove_all (λ i. due clock grace) (decode table.old)) }
{
    remove_within(table, clock, grace, [u64::MAX; sizes::NODES]);
}

// The removal in lent bytes: 14.
pub fn remove_scheduled(table: &mut [u8], clock: u64, grace: u64) -> Result<(), Refusal>
    ensures { Tells answer_told (lent_gc clock grace table.old) result table.new }
{
    if !table_check::check_table(table) {
        return Err(Refusal::BadTable);
    }
    remove_good(&mut table[..layout::AREA], clock, grace);
    Ok(())
}
