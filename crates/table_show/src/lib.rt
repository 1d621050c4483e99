// The listing of a stored table, written into a lent buffer: a line for its kind, for each node, each record, each removed node and for the end, or the one
// line of bytes that are no good table. It is measured first, with no room at all, so that nothing is written where there is too little.
#![tactic(auto)]

ghost use Rattle.std.specs.Prelude.{◌≡◌, true, ◌≤◌, length};
ghost use Rattle.rules.specs.Answers.{written_told};
ghost use Rattle.rules.specs.Given.{Gives, Tells};
ghost use Rattle.rules.specs.Sizes.{max_removed};
ghost use Rattle.rules.specs.Layout.{decode};
ghost use Rattle.rules.specs.Whole.{decode_memory, decode_whole, tail_width, valid_whole};
ghost use Rattle.table.specs.Tests.{removed_in};
ghost use Rattle.table.specs.Fits.{LaidTable};
ghost use Rattle.listing_room.specs.Room.{Ends, put_within};
ghost use Rattle.table_listing.specs.TableListing.{behind_nodes, list_table, table_listing, whole_text};

use rules::{Header, Refusal, sizes};
use table::layout;

// The most bytes of each line.
const KIND: usize = 28;

const NODE: usize = 106;

const RECORD: usize = 370;

const REMOVED: usize = 60;

const END: usize = 92;

// Room for every listing.
pub const LONGEST: usize = KIND
    + (sizes::NODES * (NODE + Header::RECORDS * RECORD) + (sizes::REMOVED * REMOVED + END));

// What stands behind the nodes.
fn put_behind(out: &mut [u8], at: usize, area: &[u8], tail: &[u8]) -> usize
    requires { LaidTable area.now × (length tail.now ≡ tail_width) × (removed_in tail.now ≤ max_removed)
        × Ends at (behind_nodes (decode area.now) (decode_memory tail.now)) }
    ensures { Gives (put_within at (behind_nodes (decode area.now) (decode_memory tail.now)) out.old) result
        out.new }
{
    let nodes = fields::byte_at(area, layout::NODE_COUNT) as u64;
    let records = table_lines::count_records(area) as u64;
    let removed = fields::byte_at(tail, layout::REMOVED_COUNT) as u64;
    let next = table_lines::put_removed(out, at, tail);
    table_lines::put_end(out, next, nodes, records, removed)
}

// The listing of a good table, as far as there is room.
fn put_good(out: &mut [u8], table: &[u8]) -> usize
    requires { valid_whole table.now ≡ true }
    ensures { Gives (put_within 0 (whole_text (decode_whole table.now)) out.old) result out.new }
{
    let area = &table[..layout::AREA];
    let tail = &table[layout::AREA..layout::TABLE];
    let m = table_lines::put_kind(out, 0, table);
    let n = table_lines::put_nodes(out, m, area);
    put_behind(out, n, area, tail)
}

// The listing of any bytes, as far as there is room.
fn put_listing(out: &mut [u8], table: &[u8]) -> usize
    ensures { Gives (put_within 0 (table_listing table.now) out.old) result out.new }
{
    if table_check::check_table(table) {
        return put_good(out, table);
    }
    table_wrong::put_line(out, table)
}

// The listing of any bytes, at the front of the buffer, and its length. 8, and nothing changed, where the buffer is too short.
pub fn list_table(table: &[u8], out: &mut [u8]) -> Result<usize, Refusal>
    ensures { Tells written_told (list_table table.now out.old) result out.new }
{
    let n = put_listing(&mut out[..0], table);
    if out.len() < n {
        return Err(Refusal::NoPlace);
    }
    put_listing(out, table);
    Ok(n)
}
