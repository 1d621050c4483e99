// Writing on a good table: a number of a node's header, a record, a fresh node. Each function leaves exactly the bytes of the changed node or row; room
// that falls free is cleared, so that what is removed leaves no byte behind.
#![tactic(auto)]

ghost use Rattle.std.specs.Prelude.{◌≡◌, ◌++◌, ◌+◌, ◌≤◌, ◌<◌, length};
ghost use Rattle.fields.specs.Numbers.{bytes_of};
ghost use Rattle.fields.specs.Parts.{put};
ghost use Rattle.fields.specs.Blocks.{zeros, fit};
ghost use Rattle.rules.specs.Sizes.{max_records, max_key, max_value};
ghost use Rattle.rules.specs.Layout.{rec_place, rec_width, node_width, encode_rec, encode_node, decode_node};
ghost use Rattle.table.specs.Tests.{count_of};
ghost use Rattle.table.specs.Fits.{LaidNode};
ghost use Rattle.table.specs.Changes.{with_beat, with_max, with_gc, with_rec_at, with_new_rec, fresh_entry, rec_of};
ghost use Rattle.table_write.specs.Rows.{blocks_in, block_place, without_block};

use rules::{Header, Heartbeat, Record, Status};
use table::layout;

// Stores the length of a text at `at`, and behind it the text in room for `room` bytes, the others zero.
fn write_text(record: &mut [u8], at: usize, room: usize, text: &[u8])
    requires { (length text.now ≤ room) × (at + 1 + room ≤ length «record».old) }
    ensures { «record».new ≡ put at (bytes_of 1 (length text.now) ++ fit room text.now) «record».old }
{
    fields::write_byte(record, at, text.len());
    fields::clear(record, at + 1, room);
    fields::copy_to(record, at + 1, text);
}

// Stores a record in its place.
fn write_record(
    record: &mut [u8],
    key: &[u8],
    value: &[u8],
    version: u64,
    status: Status,
    start: u64,
)
    requires { (length «record».old ≡ rec_width) × (length key.now ≤ max_key) × (length value.now ≤ max_value) }
    ensures { «record».new ≡ encode_rec (rec_of key.now value.now version status start) }
{
    let code = status.byte();
    write_text(record, layout::KEY_LENGTH, Record::KEY, key);
    write_text(record, layout::VALUE_LENGTH, Record::VALUE, value);
    fields::write_u64(record, layout::VERSION, version);
    fields::write_byte(record, layout::STATUS, code);
    fields::write_u64(record, layout::START, start);
}

// Record `j` of a node becomes this one.
pub fn put_record(
    node: &mut [u8],
    j: usize,
    key: &[u8],
    value: &[u8],
    version: u64,
    status: Status,
    start: u64,
)
    requires { LaidNode node.old × (j < count_of node.old) × (length key.now ≤ max_key) × (length value.now ≤ max_value) }
    ensures { node.new ≡ encode_node
        (with_rec_at j (rec_of key.now value.now version status start) (decode_node node.old)) }
{
    let a = table::record_place(j);
    let e = a + layout::RECORD;
    write_record(&mut node[a..e], key, value, version, status, start);
}

// A new record comes before record `j` of a node that has room.
pub fn insert_record(
    node: &mut [u8],
    j: usize,
    key: &[u8],
    value: &[u8],
    version: u64,
    status: Status,
    start: u64,
)
    requires { LaidNode node.old × (j ≤ count_of node.old) × (count_of node.old < max_records)
        × (length key.now ≤ max_key) × (length value.now ≤ max_value) }
    ensures { node.new ≡ encode_node
        (with_new_rec j (rec_of key.now value.now version status start) (decode_node node.old)) }
{
    let n = fields::byte_at(node, layout::RECORD_COUNT);
    let a = table::record_place(j);
    let e = a + layout::RECORD;
    fields::move_up(node, a, e, fields::times(n - j, layout::RECORD));
    write_record(&mut node[a..e], key, value, version, status, start);
    fields::write_byte(node, layout::RECORD_COUNT, n + 1);
}

// Block `i` goes from a row of blocks with its count at `at`: those behind it move down, and the place that falls free is cleared.
pub fn remove_block(row: &mut [u8], at: usize, width: usize, i: usize)
    requires { (i < blocks_in at row.old) × (block_place at width (blocks_in at row.old) ≤ length row.old) × (width < 65536) }
    ensures { row.new ≡ without_block at width i row.old }
{
    let n = fields::byte_at(row, at);
    let a = at + 1 + fields::times(i, width);
    let m = fields::times(n - (i + 1), width);
    fields::move_down(row, a + width, a, m);
    fields::clear(row, a + m, width);
    fields::write_byte(row, at, n - 1);
}

// A node's heartbeat becomes this one.
pub fn set_heartbeat(node: &mut [u8], heartbeat: Heartbeat)
    requires { LaidNode node.old }
    ensures { node.new ≡ encode_node (with_beat heartbeat (decode_node node.old)) }
{
    fields::write_u64(node, layout::HEARTBEAT, heartbeat.0);
}

// A node's max becomes this one.
pub fn set_max(node: &mut [u8], max: u64)
    requires { LaidNode node.old }
    ensures { node.new ≡ encode_node (with_max max (decode_node node.old)) }
{
    fields::write_u64(node, layout::MAX, max);
}

// A node's last_gc becomes this one.
pub fn set_last_gc(node: &mut [u8], last_gc: u64)
    requires { LaidNode node.old }
    ensures { node.new ≡ encode_node (with_gc last_gc (decode_node node.old)) }
{
    fields::write_u64(node, layout::LAST_GC, last_gc);
}

// How many bytes of a node are in use: its header and its records. Zeros stand behind them.
pub fn used(node: &[u8]) -> usize
    requires { (length node.now ≡ node_width) × (count_of node.now ≤ max_records) }
    ensures { result ≡ rec_place (count_of node.now) }
{
    table::record_place(fields::byte_at(node, layout::RECORD_COUNT))
}

// A node's bytes become zeros.
pub fn clear_node(node: &mut [u8])
    requires { LaidNode node.old }
    ensures { node.new ≡ zeros node_width }
{
    let n = used(node);
    fields::clear(node, 0, n);
}

// A fresh node with this number takes a node's place.
pub fn write_fresh(node: &mut [u8], number: u64)
    requires { LaidNode node.old }
    ensures { node.new ≡ encode_node (fresh_entry number) }
{
    let header = Header::new();
    let beat = header.heartbeat;
    clear_node(node);
    fields::write_u64(node, layout::NUMBER, number);
    fields::write_u64(node, layout::HEARTBEAT, beat.0);
    fields::write_u64(node, layout::MAX, header.max);
    fields::write_u64(node, layout::LAST_GC, header.last_gc);
}
