// The one line that is printed of bytes that are no good table: 14, and the first thing that is wrong where it has a name. It is written as far as there
// is room.
#![tactic(auto)]

ghost use Rattle.std.specs.Prelude.{◌≡◌, ◌≤◌, drop, length};
ghost use Rattle.rules.specs.Given.{Gives};
ghost use Rattle.rules.specs.Sizes.{max_nodes};
ghost use Rattle.rules.specs.Layout.{node_place, table_width};
ghost use Rattle.rules.specs.Whole.{tail_width};
ghost use Rattle.listing_room.specs.Room.{put_within};
ghost use Rattle.table_listing.specs.TableListing.{first_bad, wrong_area, wrong_line, wrong_tail, wrong_text};

use rules::{Mode, Profile, sizes};
use table::layout;

// The place of the first of `n` nodes whose bytes are none of a node that obeys; `n` where there is none such.
fn first_bad(area: &[u8], n: usize) -> usize
    requires { (length area.now ≡ table_width) × (n ≤ max_nodes) }
    ensures { result ≡ first_bad n (drop (node_place 0) area.now) }
{
    for i in 0..n {
        if !table_check::check_node(table::node_of(area, i)) {
            return i;
        }
    }
    n
}

// The line with a name and a number.
fn put_wrong(out: &mut [u8], name: &[u8], v: u64) -> usize
    requires { length name.now ≤ 16 }
    ensures { Gives (put_within 0 (wrong_line name.now v) out.old) result out.new }
{
    let next = listing_room::put_text(out, 0, b"end=refused code=14");
    listing_room::put_last(out, next, name, v)
}

// Of bytes whose nodes are good, one by one.
fn put_tail(out: &mut [u8], tail: &[u8]) -> usize
    requires { length tail.now ≡ tail_width }
    ensures { Gives (put_within 0 (wrong_tail tail.now) out.old) result out.new }
{
    let m = fields::byte_at(tail, layout::MODE);
    let mode = Mode::of_byte(m);
    if mode.byte() != m {
        return put_wrong(out, b" mode=", m as u64);
    }
    let p = fields::byte_at(tail, layout::PROFILE);
    let profile = Profile::of_byte(p);
    if profile.byte() != p {
        return put_wrong(out, b" profile=", p as u64);
    }
    listing_room::put_text(out, 0, b"end=refused code=14\n")
}

// Of bytes that are as long as a table.
fn put_area(out: &mut [u8], area: &[u8], tail: &[u8]) -> usize
    requires { (length area.now ≡ table_width) × (length tail.now ≡ tail_width) }
    ensures { Gives (put_within 0 (wrong_area area.now tail.now) out.old) result out.new }
{
    let n = fields::byte_at(area, layout::NODE_COUNT);
    if sizes::NODES < n {
        return put_wrong(out, b" nodes=", n as u64);
    }
    let i = first_bad(area, n);
    if i < n {
        return put_wrong(out, b" place=", i as u64);
    }
    put_tail(out, tail)
}

// Of any bytes.
pub fn put_line(out: &mut [u8], table: &[u8]) -> usize
    ensures { Gives (put_within 0 (wrong_text table.now) out.old) result out.new }
{
    if table.len() != layout::TABLE {
        return put_wrong(out, b" length=", table.len() as u64);
    }
    put_area(
        out,
        &table[..layout::AREA],
        &table[layout::AREA..layout::TABLE],
    )
}
