// The lines of a table's listing: of its kind, of its nodes with their records, of the nodes that were removed from it, of the end. Each is written as far as
// there is room, and answers the place behind it.
#![tactic(auto)]

ghost use Rattle.std.specs.Prelude.{◌≡◌, ◌≤◌, length};
ghost use Rattle.fields.specs.Blocks.{flat};
ghost use Rattle.rules.specs.Given.{Gives};
ghost use Rattle.rules.specs.Sizes.{max_key, max_removed, max_value};
ghost use Rattle.rules.specs.Layout.{decode, decode_node, decode_rec, node_width, rec_width};
ghost use Rattle.rules.specs.Whole.{decode_memory, decode_whole, tail_width, whole_width};
ghost use Rattle.table.specs.Tests.{key_length, recs_in, removed_in, value_length};
ghost use Rattle.table.specs.Fits.{LaidNode, LaidTable};
ghost use Rattle.listing_room.specs.Room.{Ends, put_within};
ghost use Rattle.table_listing.specs.TableListing.{end_text, entry_text, kind_line, mode_text, node_line, profile_text, record_line, records_of, removed_line};
ghost use Rattle.table_listing.specs.TableListing.{rest_text, texts_text};

use rules::{Mode, Profile};
use table::layout;

// ---- the kind

fn put_mode(out: &mut [u8], at: usize, mode: Mode) -> usize
    requires { Ends at (mode_text mode) }
    ensures { Gives (put_within at (mode_text mode) out.old) result out.new }
{
    match mode {
        Mode::Plain => listing_room::put_text(out, at, b"mode=plain"),
        Mode::Fenced => listing_room::put_text(out, at, b"mode=fenced"),
        Mode::Guarded => listing_room::put_text(out, at, b"mode=guarded"),
    }
}

fn put_profile(out: &mut [u8], at: usize, profile: Profile) -> usize
    requires { Ends at (profile_text profile) }
    ensures { Gives (put_within at (profile_text profile) out.old) result out.new }
{
    match profile {
        Profile::Free => listing_room::put_text(out, at, b" profile=free"),
        Profile::Meter => listing_room::put_text(out, at, b" profile=meter"),
        Profile::Shared => listing_room::put_text(out, at, b" profile=shared"),
    }
}

// The mode that stands in a table's bytes.
fn mode_of(table: &[u8]) -> Mode
    requires { length table.now ≡ whole_width }
    ensures { result ≡ (decode_whole table.now).kind.mode }
{
    Mode::of_byte(fields::byte_at(table, layout::AREA + layout::MODE))
}

// The line of a table's kind.
pub fn put_kind(out: &mut [u8], at: usize, table: &[u8]) -> usize
    requires { (length table.now ≡ whole_width) × Ends at (kind_line (decode_whole table.now).kind) }
    ensures { Gives (put_within at (kind_line (decode_whole table.now).kind) out.old) result out.new }
{
    let mode = mode_of(table);
    let profile = profile_check::profile_of(table);
    let m = put_mode(out, at, mode);
    let n = put_profile(out, m, profile);
    listing_room::put_text(out, n, b"\n")
}

// ---- records

// Key and value of a record.
fn put_texts(out: &mut [u8], at: usize, record: &[u8]) -> usize
    requires { (length «record».now ≡ rec_width) × (key_length «record».now ≤ max_key) × (value_length «record».now ≤ max_value)
        × Ends at (texts_text (decode_rec «record».now)) }
    ensures { Gives (put_within at (texts_text (decode_rec «record».now)) out.old) result out.new }
{
    let key = table::key_of(record);
    let value = table::value_of(record);
    let next = listing_room::put_named(out, at, b"key=", key);
    listing_room::put_named(out, next, b" value=", value)
}

// Version, status and start of a record.
fn put_rest(out: &mut [u8], at: usize, record: &[u8]) -> usize
    requires { (length «record».now ≡ rec_width) × (key_length «record».now ≤ max_key) × (value_length «record».now ≤ max_value)
        × Ends at (rest_text (decode_rec «record».now)) }
    ensures { Gives (put_within at (rest_text (decode_rec «record».now)) out.old) result out.new }
{
    let held = table_read::read_record(record);
    let status = held.status;
    let m = listing_room::put_numbered(out, at, b" version=", held.version);
    let n = listing_room::put_status(out, m, status);
    listing_room::put_last(out, n, b" start=", held.start)
}

// The line of a record.
fn put_record(out: &mut [u8], at: usize, record: &[u8]) -> usize
    requires { (length «record».now ≡ rec_width) × (key_length «record».now ≤ max_key) × (value_length «record».now ≤ max_value)
        × Ends at (record_line (decode_rec «record».now)) }
    ensures { Gives (put_within at (record_line (decode_rec «record».now)) out.old) result out.new }
{
    let next = put_texts(out, at, record);
    put_rest(out, next, record)
}

// The lines of a node's records.
fn put_records(out: &mut [u8], at: usize, node: &[u8]) -> usize
    requires { LaidNode node.now × Ends at (flat record_line (recs_in node.now)) }
    ensures { Gives (put_within at (flat record_line (recs_in node.now)) out.old) result out.new }
{
    let count = fields::byte_at(node, layout::RECORD_COUNT);
    let mut n = at;
    for i in 0..count {
        let record = table::record_of(node, i);
        n = put_record(out, n, record);
    }
    n
}

// ---- nodes

// The line of a node itself.
fn put_header(out: &mut [u8], at: usize, node: &[u8]) -> usize
    requires { (length node.now ≡ node_width) × Ends at (node_line (decode_node node.now)) }
    ensures { Gives (put_within at (node_line (decode_node node.now)) out.old) result out.new }
{
    let number = fields::read_u64(node, layout::NUMBER);
    let header = table_read::read_header(node);
    let m = listing_room::put_numbered(out, at, b"node=", number);
    let n = listing_room::put_numbered(out, m, b" heartbeat=", header.heartbeat.0);
    listing_room::put_last_two(out, n, b" max=", header.max, b" gc=", header.last_gc)
}

// The lines of a node and its records.
fn put_node(out: &mut [u8], at: usize, node: &[u8]) -> usize
    requires { LaidNode node.now × Ends at (entry_text (decode_node node.now)) }
    ensures { Gives (put_within at (entry_text (decode_node node.now)) out.old) result out.new }
{
    let next = put_header(out, at, node);
    put_records(out, next, node)
}

// The lines of all nodes.
pub fn put_nodes(out: &mut [u8], at: usize, area: &[u8]) -> usize
    requires { LaidTable area.now × Ends at (flat entry_text (decode area.now)) }
    ensures { Gives (put_within at (flat entry_text (decode area.now)) out.old) result out.new }
{
    let count = fields::byte_at(area, layout::NODE_COUNT);
    let mut n = at;
    for i in 0..count {
        let node = table::node_of(area, i);
        n = put_node(out, n, node);
    }
    n
}

// How many records they have together.
pub fn count_records(area: &[u8]) -> usize
    requires { LaidTable area.now }
    ensures { result ≡ records_of (decode area.now) }
{
    let count = fields::byte_at(area, layout::NODE_COUNT);
    let mut n: usize = 0;
    for i in 0..count {
        let node = table::node_of(area, i);
        n += fields::byte_at(node, layout::RECORD_COUNT);
    }
    n
}

// ---- removed nodes, and the end

// The lines of the removed nodes.
pub fn put_removed(out: &mut [u8], at: usize, tail: &[u8]) -> usize
    requires { (length tail.now ≡ tail_width) × (removed_in tail.now ≤ max_removed) × Ends at (flat removed_line (decode_memory tail.now)) }
    ensures { Gives (put_within at (flat removed_line (decode_memory tail.now)) out.old) result out.new }
{
    let count = fields::byte_at(tail, layout::REMOVED_COUNT);
    let mut n = at;
    for i in 0..count {
        let a = table::removed_place(i);
        let number = fields::read_u64(tail, a + layout::REMOVED_NUMBER);
        let beat = fields::read_u64(tail, a + layout::REMOVED_HEARTBEAT);
        n = listing_room::put_last_two(out, n, b"removed=", number, b" heartbeat=", beat);
    }
    n
}

// The line of the end.
pub fn put_end(out: &mut [u8], at: usize, nodes: u64, records: u64, removed: u64) -> usize
    requires { Ends at (end_text nodes records removed) }
    ensures { Gives (put_within at (end_text nodes records removed) out.old) result out.new }
{
    let next = listing_room::put_numbered(out, at, b"end=ok nodes=", nodes);
    listing_room::put_last_two(out, next, b" records=", records, b" removed=", removed)
}
