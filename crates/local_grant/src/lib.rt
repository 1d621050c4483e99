// What is granted to a local call on one node's bytes: 5, 6, or max rises by one and the key's record takes that version, at its place in the order of the
// keys. A refused call changes no byte.
#![tactic(auto)]

ghost use Rattle.std.specs.Prelude.{◌≡◌, false, ◌≤◌, length};
ghost use Rattle.rules.specs.Given.{Gives};
ghost use Rattle.rules.specs.Sizes.{max_key, max_value};
ghost use Rattle.rules.specs.Layout.{node_width, encode_node, decode_node};
ghost use Rattle.table.specs.Tests.{recs_in};
ghost use Rattle.table.specs.Fits.{LaidNode};
ghost use Rattle.table.specs.Changes.{rec_of};
ghost use Rattle.table_read.specs.Find.{find_key};
ghost use Rattle.table_read.specs.declared.Place.TheVariants.{At};
ghost use Rattle.local_grant.specs.Granting.{node_in, change_of, full_at, with_stored, node_granted};

use rules::{Header, Refusal, Status, sizes};
use table::layout;
use table_read::Place;

// Whether a key that belongs at this place would be the 33rd.
fn is_full(node: &[u8], place: Place) -> bool
    requires { length node.now ≡ node_width }
    ensures { result ≡ full_at place (node_in node.now) }
{
    match place {
        Place::At(_) => false,
        Place::Free(_) => Header::RECORDS <= fields::byte_at(node, layout::RECORD_COUNT),
    }
}

// A record takes its place: that of its key's record, or its own in the order of the keys.
fn place_record(
    node: &mut [u8],
    place: Place,
    key: &[u8],
    value: &[u8],
    version: u64,
    status: Status,
    start: u64,
)
    requires { LaidNode node.old × (find_key key.now (recs_in node.old) ≡ place) × (full_at place (node_in node.old) ≡ false)
        × (length key.now ≤ max_key) × (length value.now ≤ max_value) }
    ensures { node.new ≡ encode_node
        (with_stored (rec_of key.now value.now version status start) (decode_node node.old)) }
{
    match place {
        Place::At(j) => table_write::put_record(node, j, key, value, version, status, start),
        Place::Free(j) => table_write::insert_record(node, j, key, value, version, status, start),
    }
}

// The record of a key changes, or comes new at this place: 5, 6, or max rises and the record takes that version.
pub fn grant(
    node: &mut [u8],
    place: Place,
    key: &[u8],
    value: &[u8],
    status: Status,
    start: u64,
) -> Result<(), Refusal>
    requires { LaidNode node.old × (find_key key.now (recs_in node.old) ≡ place) × (length key.now ≤ max_key) × (length value.now ≤ max_value) }
    ensures { Gives (node_granted place key.now (change_of value.now status start) node.old) result node.new }
{
    if is_full(node, place) {
        return Err(Refusal::NodeFull);
    }
    let max = fields::read_u64(node, layout::MAX);
    if max == sizes::TOP {
        return Err(Refusal::Exhausted);
    }
    table_write::set_max(node, max + 1);
    place_record(node, place, key, value, max + 1, status, start);
    Ok(())
}

// The record of a key that is there changes: 6, or max rises and the record takes that version. It is `grant` at a place that is taken, by itself because a
// set of a key that is held is what a hub does most: there is no room to look for.
pub fn rewrite(
    node: &mut [u8],
    j: usize,
    key: &[u8],
    value: &[u8],
    status: Status,
    start: u64,
) -> Result<(), Refusal>
    requires { LaidNode node.old × (find_key key.now (recs_in node.old) ≡ At j) × (length key.now ≤ max_key) × (length value.now ≤ max_value) }
    ensures { Gives (node_granted (At j) key.now (change_of value.now status start) node.old) result node.new }
{
    let max = fields::read_u64(node, layout::MAX);
    if max == sizes::TOP {
        return Err(Refusal::Exhausted);
    }
    table_write::set_max(node, max + 1);
    table_write::put_record(node, j, key, value, max + 1, status, start);
    Ok(())
}
