// The records of a node delta, as they stand in the bytes of an accepted delta, taken into the bytes of one node. Each record is taken or skipped as
// document 01 says; a record that would be a 33rd key ends the taking with no room.
#![tactic(auto)]

ghost use Rattle.std.specs.Prelude.{true, ◌≡◌, ◌+◌, ◌≤◌, length};
ghost use Rattle.rules.specs.Sizes.{max_key, max_value};
ghost use Rattle.rules.specs.Node.{scheduled, store};
ghost use Rattle.rules.specs.Apply.{start_at, take_all};
ghost use Rattle.delta_op.specs.Places.{Inside, op_of};
ghost use Rattle.delta_op.specs.Plain.{recs_from};
ghost use Rattle.table_read.specs.Find.{find_key};
ghost use Rattle.table_read.specs.declared.Place.TheVariants.{Free};
ghost use Rattle.table.specs.Tests.{count_of, recs_in};
ghost use Rattle.table.specs.Changes.{rec_of};
ghost use Rattle.apply_node.specs.Taking.{takes_as, carried, Rising, Tried, take_one, Stepped};

use delta_op::Op;
use rules::{Header, Status};
use std::cmp::Ordering;
use table::layout;
use table_read::Place;

// What an operation of a node delta comes to.
#[derive(Clone, Copy)]
pub enum Step {
    // The record is in the node, or skipped.
    Taken,
    // The record would be a 33rd key.
    Full,
    // The next Node: the records are over.
    Over,
}

// ---- one record

// A taken scheduled record starts at the receiver's clock.
fn start_of(status: Status, clock: u64) -> u64
    ensures { result ≡ start_at (scheduled status) clock }
{
    match status {
        Status::Set => 0,
        Status::Delete => clock,
        Status::Ttl => clock,
    }
}

// Whether a record is taken, where `held` is the max held before the first of them.
fn takes(held: u64, last_gc: u64, version: u64, status: Status) -> bool
    ensures { result ≡ takes_as held last_gc version status }
{
    if version <= held {
        return false;
    }
    match status {
        Status::Set => true,
        Status::Delete => last_gc < version,
        Status::Ttl => last_gc < version,
    }
}

// Whether the key comes behind all keys of the node.
fn comes_last(node: &[u8], key: &[u8]) -> bool
    requires { Rising node.now }
    ensures { result ≡ true → find_key key.now (recs_in node.now) ≡ Free (count_of node.now) }
{
    let n = fields::byte_at(node, layout::RECORD_COUNT);
    if n == 0 {
        return true;
    }
    match fields::compare(key, table::key_of(table::record_of(node, n - 1))) {
        Ordering::Less => false,
        Ordering::Equal => false,
        Ordering::Greater => true,
    }
}

// The place of the record with this key. Records often come in the order of their keys, so the last key is looked at first.
fn find_key(node: &[u8], key: &[u8]) -> Place
    requires { Rising node.now }
    ensures { result ≡ find_key key.now (recs_in node.now) }
{
    if comes_last(node, key) {
        return Place::Free(fields::byte_at(node, layout::RECORD_COUNT));
    }
    table_read::search_key(node, key)
}

// Stores a record in a node, and says whether there was room for it.
fn store_record(
    node: &mut [u8],
    key: &[u8],
    value: &[u8],
    version: u64,
    status: Status,
    start: u64,
) -> bool
    requires { Rising node.old × (length key.now ≤ max_key) × (length value.now ≤ max_value) }
    ensures { Tried
        (store (rec_of key.now value.now version status start) (recs_in node.old))
        node.old result node.new }
{
    let found = find_key(node, key);
    match found {
        Place::At(j) => {
            table_write::put_record(node, j, key, value, version, status, start);
            true
        }
        Place::Free(j) => {
            if fields::byte_at(node, layout::RECORD_COUNT) == Header::RECORDS {
                return false;
            }
            table_write::insert_record(node, j, key, value, version, status, start);
            true
        }
    }
}

// Takes or skips the record whose key and value stand at these places of the delta.
fn take_record(
    node: &mut [u8],
    delta: &[u8],
    keyat: usize,
    keylen: usize,
    valueat: usize,
    valuelen: usize,
    version: u64,
    status: Status,
    held: u64,
    last_gc: u64,
    clock: u64,
) -> bool
    requires { Rising node.old
        × (keyat + keylen ≤ length delta.now) × (valueat + valuelen ≤ length delta.now) × (keylen ≤ max_key) × (valuelen ≤ max_value) }
    ensures { Tried
        (take_one held last_gc clock (carried delta.now keyat keylen valueat valuelen version status) (recs_in node.old))
        node.old result node.new }
{
    if takes(held, last_gc, version, status) {
        let keyend = keyat + keylen;
        let valueend = valueat + valuelen;
        let start = start_of(status, clock);
        return store_record(
            node,
            &delta[keyat..keyend],
            &delta[valueat..valueend],
            version,
            status,
            start,
        );
    }
    true
}

// Goes over one operation.
fn take_op(node: &mut [u8], delta: &[u8], op: Op, held: u64, last_gc: u64, clock: u64) -> Step
    requires { Rising node.old × Inside (length delta.now) op }
    ensures { Stepped held last_gc clock (op_of delta.now op) node.old result node.new }
{
    match op {
        Op::Node {
            number: _,
            last_gc: _,
            from: _,
        } => Step::Over,
        Op::KeyValue {
            keyat,
            keylen,
            valueat,
            valuelen,
            version,
            status,
        } => {
            if take_record(
                node, delta, keyat, keylen, valueat, valuelen, version, status, held, last_gc,
                clock,
            ) {
                return Step::Taken;
            }
            Step::Full
        }
        Op::SetMaxVersion { max: _ } => Step::Taken,
    }
}

// Takes the records from `at` up to the next Node, and says whether there was room for all of them.
pub fn take_records(
    node: &mut [u8],
    delta: &[u8],
    at: usize,
    held: u64,
    last_gc: u64,
    clock: u64,
) -> bool
    requires { Rising node.old × (at ≤ length delta.now) }
    ensures { Tried
        (take_all held last_gc clock (recs_from delta.now at) (recs_in node.old))
        node.old result node.new }
{
    let mut i = at;
    // An operation is as long as its texts, so the place goes by variable steps.
    while i < delta.len() {
        let read = delta_op::read_op(delta, i);
        let Ok((op, next)) = read else {
            return true;
        };
        let step = take_op(node, delta, op, held, last_gc, clock);
        match step {
            Step::Over => return true,
            Step::Full => return false,
            Step::Taken => i = next,
        }
    }
    true
}
