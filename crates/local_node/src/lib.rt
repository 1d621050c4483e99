// The four local calls that give a version, on the bytes of one node: set, set with TTL, delete, delete after TTL. Each decides in document 01's order:
// 1, 3, nothing to change, 5, 6. What is granted is done by `local_grant`. A refused call changes no byte.
//
// `write_node` is all four; the functions above it are its parts. The calls on a whole table stand in the crate `local`.
#![tactic(auto)]

ghost use Rattle.std.specs.Prelude.{◌≡◌, true, ◌≤◌, ◌<◌, length};
ghost use Rattle.rules.specs.Given.{Gives};
ghost use Rattle.rules.specs.Sizes.{max_key, max_value};
ghost use Rattle.rules.specs.Node.{same_status};
ghost use Rattle.rules.specs.Table.{keys_rise};
ghost use Rattle.table.specs.Tests.{count_of, recs_in};
ghost use Rattle.table.specs.Fits.{LaidNode};
ghost use Rattle.table.specs.Places.{rec_at};
ghost use Rattle.table_read.specs.Find.{find_key};
ghost use Rattle.table_read.specs.declared.Place.TheVariants.{At};
ghost use Rattle.local_grant.specs.Granting.{change_of};
ghost use Rattle.local_node.specs.Writes.{alike, call_of, deleting};
ghost use Rattle.local_node.specs.Writes.{copied, node_set_at, node_set, node_dropped, node_called};

use rules::{Record, Refusal, Status};
use table_read::Place;

// Which of the four calls.
#[derive(Clone, Copy)]
pub enum Kind {
    Setting,
    SettingTtl,
    Deleting,
    DeletingAfterTtl,
}

// Whether two statuses are the same.
fn same_status(a: Status, b: Status) -> bool
    ensures { result ≡ same_status a b }
{
    a.byte() == b.byte()
}

// Whether record `j` of a node has this value and status already.
fn is_same(node: &[u8], j: usize, value: &[u8], status: Status) -> bool
    requires { LaidNode node.now × (j < count_of node.now) }
    ensures { result ≡ alike (rec_at j node.now) value.now status }
{
    let x = table::record_of(node, j);
    same_status(table_read::read_record(x).status, status)
        && fields::same(table::value_of(x), value)
}

// A set of record `j`, which has the key: nothing to change, 6, or the change.
fn set_at(
    node: &mut [u8],
    j: usize,
    key: &[u8],
    value: &[u8],
    status: Status,
    start: u64,
) -> Result<(), Refusal>
    requires { LaidNode node.old × (find_key key.now (recs_in node.old) ≡ At j) × (length key.now ≤ max_key) × (length value.now ≤ max_value) }
    ensures { Gives (node_set_at j key.now (change_of value.now status start) node.old) result node.new }
{
    if is_same(node, j, value, status) {
        return Ok(());
    }
    local_grant::rewrite(node, j, key, value, status, start)
}

// A set: 1, nothing to change, 5, 6, or the change.
fn set_key(
    node: &mut [u8],
    key: &[u8],
    value: &[u8],
    status: Status,
    start: u64,
) -> Result<(), Refusal>
    requires { LaidNode node.old × (keys_rise (recs_in node.old) ≡ true) }
    ensures { Gives (node_set key.now (change_of value.now status start) node.old) result node.new }
{
    if Record::KEY < key.len() {
        return Err(Refusal::TooLong);
    }
    if Record::VALUE < value.len() {
        return Err(Refusal::TooLong);
    }
    match table_read::search_key(node, key) {
        Place::At(j) => set_at(node, j, key, value, status, start),
        Place::Free(j) => local_grant::grant(node, Place::Free(j), key, value, status, start),
    }
}

// The value of record `j`, copied to the front of `out`: how many bytes it has.
fn copy_value(node: &[u8], j: usize, out: &mut [u8]) -> usize
    requires { LaidNode node.now × (j < count_of node.now) × (length out.old ≡ max_value) }
    ensures { Gives (copied (rec_at j node.now).kv.value out.old) result out.new }
{
    let value = table::value_of(table::record_of(node, j));
    fields::copy_to(out, 0, value);
    value.len()
}

// A delete of record `j`, which has the key, or one after TTL, which keeps the value: 6, or the record is scheduled.
fn delete_at(node: &mut [u8], j: usize, key: &[u8], keeps: bool, clock: u64) -> Result<(), Refusal>
    requires { LaidNode node.old × (find_key key.now (recs_in node.old) ≡ At j) × (length key.now ≤ max_key) }
    ensures { Gives (node_dropped j keeps clock key.now node.old) result node.new }
{
    if keeps {
        let mut held = [0u8; Record::VALUE];
        let n = copy_value(node, j, &mut held);
        return local_grant::rewrite(node, j, key, &held[..n], Status::Ttl, clock);
    }
    local_grant::rewrite(node, j, key, b"", Status::Delete, clock)
}

// A delete, or one after TTL: 1, 3, 6, or the key's record is scheduled.
fn delete_key(node: &mut [u8], key: &[u8], keeps: bool, clock: u64) -> Result<(), Refusal>
    requires { LaidNode node.old × (keys_rise (recs_in node.old) ≡ true) }
    ensures { Gives (node_called (deleting keeps clock) key.now node.old) result node.new }
{
    if Record::KEY < key.len() {
        return Err(Refusal::TooLong);
    }
    match table_read::search_key(node, key) {
        Place::At(j) => delete_at(node, j, key, keeps, clock),
        Place::Free(_) => Err(Refusal::NoKey),
    }
}

// One of the four calls at a key of a node. The deletes bring no value.
pub fn write_node(
    node: &mut [u8],
    kind: Kind,
    key: &[u8],
    value: &[u8],
    clock: u64,
) -> Result<(), Refusal>
    requires { LaidNode node.old × (keys_rise (recs_in node.old) ≡ true) }
    ensures { Gives (node_called (call_of kind value.now clock) key.now node.old) result node.new }
{
    match kind {
        Kind::Setting => set_key(node, key, value, Status::Set, 0),
        Kind::SettingTtl => set_key(node, key, value, Status::Ttl, clock),
        Kind::Deleting => delete_key(node, key, false, clock),
        Kind::DeletingAfterTtl => delete_key(node, key, true, clock),
    }
}
