// Finding in a table: where a node or a record stands, or where it belongs, and what its bytes say. Whether a number is one of a lent list.
#![tactic(auto)]

ghost use Rattle.std.specs.Prelude.{◌≡◌, true, ◌+◌, ◌≤◌, ◌<◌, length};
ghost use Rattle.rules.specs.Sizes.{max_nodes, max_key, max_value};
ghost use Rattle.rules.specs.Table.{keys_rise, among};
ghost use Rattle.rules.specs.Layout.{rec_width, node_width, table_width, decode_rec, decode_node, decode, valid};
ghost use Rattle.table.specs.Tests.{key_length, value_length, nodes_of, recs_in};
ghost use Rattle.table.specs.Fits.{LaidNode};
ghost use Rattle.table_read.specs.Find.{find_node, find_key, span_in, entry_at, header_of, record_of};

use rules::{Header, Heartbeat, Record, Status};
use std::cmp::Ordering;
use table::layout;

// Where something stands, or the place in the order where it belongs.
#[derive(Clone, Copy)]
pub enum Place {
    At(usize),
    Free(usize),
}

// Where the bytes of a node stand in a table's: from `start` up to `end`.
#[derive(Clone, Copy)]
pub struct Span {
    pub start: usize,
    pub end: usize,
}

// What a record's bytes say beside its key and value.
pub fn read_record(record: &[u8]) -> Record
    requires { (length «record».now ≡ rec_width) × (key_length «record».now ≤ max_key) × (value_length «record».now ≤ max_value) }
    ensures { result ≡ record_of (decode_rec «record».now) }
{
    let status = Status::of_byte(fields::byte_at(record, layout::STATUS));
    Record {
        keylen: fields::byte_at(record, layout::KEY_LENGTH),
        valuelen: fields::byte_at(record, layout::VALUE_LENGTH),
        version: fields::read_u64(record, layout::VERSION),
        status: status,
        start: fields::read_u64(record, layout::START),
    }
}

// What a node's bytes say beside its number and records.
pub fn read_header(node: &[u8]) -> Header
    requires { length node.now ≡ node_width }
    ensures { result ≡ header_of (decode_node node.now).node }
{
    let heartbeat = Heartbeat(fields::read_u64(node, layout::HEARTBEAT));
    Header {
        heartbeat: heartbeat,
        max: fields::read_u64(node, layout::MAX),
        last_gc: fields::read_u64(node, layout::LAST_GC),
    }
}

// The number of the node at a place.
pub fn number_at(table: &[u8], p: usize) -> u64
    requires { (length table.now ≡ table_width) × (nodes_of table.now ≤ max_nodes) × (p < nodes_of table.now) }
    ensures { result ≡ (entry_at (decode table.now) p).number }
{
    fields::read_u64(table::node_of(table, p), layout::NUMBER)
}

// The max of the node at a place.
pub fn max_at(table: &[u8], p: usize) -> u64
    requires { (length table.now ≡ table_width) × (nodes_of table.now ≤ max_nodes) × (p < nodes_of table.now) }
    ensures { result ≡ (entry_at (decode table.now) p).node.max }
{
    fields::read_u64(table::node_of(table, p), layout::MAX)
}

// The last_gc of the node at a place.
pub fn last_gc_at(table: &[u8], p: usize) -> u64
    requires { (length table.now ≡ table_width) × (nodes_of table.now ≤ max_nodes) × (p < nodes_of table.now) }
    ensures { result ≡ (entry_at (decode table.now) p).node.last_gc }
{
    fields::read_u64(table::node_of(table, p), layout::LAST_GC)
}

// The place of the node with this number.
pub fn find_node(table: &[u8], number: u64) -> Place
    requires { (length table.now ≡ table_width) × (nodes_of table.now ≤ max_nodes) }
    ensures { result ≡ find_node number (decode table.now) }
{
    let n = fields::byte_at(table, layout::NODE_COUNT);
    for i in 0..n {
        let x = fields::read_u64(table, table::node_place(i));
        if number == x {
            return Place::At(i);
        }
        if number < x {
            return Place::Free(i);
        }
    }
    Place::Free(n)
}

// Where the bytes of the node with this number stand in a good table.
pub fn node_span(table: &[u8], number: u64) -> Option<Span>
    requires { valid table.now ≡ true }
    ensures { result ≡ span_in number table.now }
{
    match find_node(table, number) {
        Place::At(i) => {
            let start = table::node_place(i);
            Some(Span {
                start,
                end: start + layout::NODE,
            })
        }
        Place::Free(_) => None,
    }
}

// The place of the record with this key in a node's bytes, whose keys rise. It is sought by halves.
pub fn search_key(node: &[u8], key: &[u8]) -> Place
    requires { LaidNode node.now × (keys_rise (recs_in node.now) ≡ true) }
    ensures { result ≡ find_key key.now (recs_in node.now) }
{
    let mut low = 0;
    let mut high = fields::byte_at(node, layout::RECORD_COUNT);
    while low < high {
        let j = (low + high) / 2;
        match fields::compare(key, table::key_of(table::record_of(node, j))) {
            Ordering::Equal => return Place::At(j),
            Ordering::Less => high = j,
            Ordering::Greater => low = j + 1,
        }
    }
    Place::Free(low)
}

// Whether a node is one of the excluded; repeats and strangers in the list do not matter.
pub fn is_excluded(excluded: &[u64], number: u64) -> bool
    ensures { result ≡ among number excluded.now }
{
    excluded.contains(&number)
}
