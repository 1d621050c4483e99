// What an accepted node delta does to one node: a reset where it begins afresh, its records taken, its max. The node is changed where it stands; where its
// records may be too many it is saved first and put back if they are, so that Room leaves it as it is. Too many are over 32, and in a shared table over 16 of
// one party.
#![tactic(auto)]

ghost use Rattle.std.specs.Prelude.{◌≡◌, ◌+◌, ◌≤◌, leb, length};
ghost use Rattle.rules.specs.Sizes.{max_each};
ghost use Rattle.rules.specs.Party.{own, of_keys};
ghost use Rattle.rules.specs.Given.{Gives};
ghost use Rattle.rules.specs.Layout.{encode_node, decode_node};
ghost use Rattle.rules.specs.declared.Profile.TheVariants.{Free};
ghost use Rattle.table.specs.Fits.{LaidNode};
ghost use Rattle.table.specs.Tests.{recs_in};
ghost use Rattle.delta_op.specs.Plain.{recs_from};
ghost use Rattle.apply_node.specs.Taking.{Rising};
ghost use Rattle.apply_grow.specs.Growing.{roomy_each_for, roomy_for, emptied, begun, grown, Grown, Stored, grown_or_kept};

use rules::{Header, Party, Profile};
use table::layout;

// ---- room by profile

// Whether a party may have so many records more.
fn has_room_for(node: &[u8], party: Party, count: usize) -> bool
    requires { LaidNode node.now }
    ensures { result ≡ leb (count + length (of_keys (own party) (recs_in node.now))) max_each }
{
    let n = party_count::count_own(node, party);
    if n <= Party::RECORDS {
        return count <= Party::RECORDS - n;
    }
    false
}

// Whether each party may.
fn each_has_room_for(node: &[u8], count: usize) -> bool
    requires { LaidNode node.now }
    ensures { result ≡ roomy_each_for count (recs_in node.now) }
{
    if has_room_for(node, Party::Metering, count) {
        return has_room_for(node, Party::Building, count);
    }
    false
}

// Whether so many records may come, whosever they are.
fn is_sure(node: &[u8], profile: Profile, count: usize) -> bool
    requires { LaidNode node.now }
    ensures { result ≡ roomy_for profile count (recs_in node.now) }
{
    let free = Header::RECORDS - fields::byte_at(node, layout::RECORD_COUNT);
    if count <= free {
        return match profile {
            Profile::Free => true,
            Profile::Meter => true,
            Profile::Shared => each_has_room_for(node, count),
        };
    }
    false
}

// ---- growing

// A reset: a fresh node under the same number with the delta's last_gc.
fn reset(node: &mut [u8], last_gc: u64)
    requires { LaidNode node.old }
    ensures { node.new ≡ encode_node (emptied last_gc (decode_node node.old)) }
{
    let number = fields::read_u64(node, layout::NUMBER);
    table_write::write_fresh(node, number);
    table_write::set_last_gc(node, last_gc);
}

// The node before the first record is taken: as it is, or after a reset.
fn begin(node: &mut [u8], afresh: bool, last_gc: u64)
    requires { LaidNode node.old }
    ensures { node.new ≡ encode_node (begun afresh last_gc (decode_node node.old)) }
{
    if afresh {
        reset(node, last_gc);
        return;
    }
}

// The node with the records from `at` taken and max the delta's, and whether there was document 01's room. Without room its bytes are of no further use.
fn grow(
    node: &mut [u8],
    delta: &[u8],
    at: usize,
    afresh: bool,
    last_gc: u64,
    max: u64,
    clock: u64,
) -> bool
    requires { Rising node.old × (at ≤ length delta.now) }
    ensures { Grown Free
        (grown clock delta.now at max (begun afresh last_gc (decode_node node.old))) result node.new }
{
    begin(node, afresh, last_gc);
    let own = table_read::read_header(node);
    if apply_node::take_records(node, delta, at, own.max, own.last_gc, clock) {
        table_write::set_max(node, max);
        return true;
    }
    false
}

// The same, and whether there was the profile's room.
fn grow_as(
    node: &mut [u8],
    profile: Profile,
    delta: &[u8],
    at: usize,
    afresh: bool,
    last_gc: u64,
    max: u64,
    clock: u64,
) -> bool
    requires { Rising node.old × (at ≤ length delta.now) }
    ensures { Grown profile
        (grown clock delta.now at max (begun afresh last_gc (decode_node node.old))) result node.new }
{
    if grow(node, delta, at, afresh, last_gc, max, clock) {
        return profile_check::node_fits(profile, node);
    }
    false
}

// The same, but without room the node is as it was.
fn grow_or_keep(
    node: &mut [u8],
    profile: Profile,
    delta: &[u8],
    at: usize,
    afresh: bool,
    last_gc: u64,
    max: u64,
    clock: u64,
) -> bool
    requires { Rising node.old × (at ≤ length delta.now) }
    ensures { Stored profile
        (grown clock delta.now at max (begun afresh last_gc (decode_node node.old)))
        node.old result node.new }
{
    let mut saved = [0u8; layout::NODE];
    fields::copy_to(&mut saved, 0, node);
    if grow_as(node, profile, delta, at, afresh, last_gc, max, clock) {
        return true;
    }
    fields::copy_to(node, 0, &saved);
    false
}

// The same, where no more than `count` records come: if there is room for so many, nothing need be saved.
pub fn grow_in_place(
    node: &mut [u8],
    profile: Profile,
    delta: &[u8],
    at: usize,
    count: usize,
    afresh: bool,
    last_gc: u64,
    max: u64,
    clock: u64,
) -> bool
    requires { Rising node.old × (at ≤ length delta.now) × (length (recs_from delta.now at) ≤ count) }
    ensures { Gives
        (grown_or_kept profile (grown clock delta.now at max (begun afresh last_gc (decode_node node.old))) node.old)
        result node.new }
{
    if is_sure(node, profile, count) {
        return grow(node, delta, at, afresh, last_gc, max, clock);
    }
    grow_or_keep(node, profile, delta, at, afresh, last_gc, max, clock)
}
