// The check behind number 14: whether lent bytes are a table that obeys the rules. It makes one pass over them: the records by `record_check`, their
// versions by `numbers_differ`, the bytes behind the nodes by `tail_check`. Where the table has a profile, `profile_check` looks at its records once more.
#![tactic(auto)]

ghost use Rattle.std.specs.Prelude.{◌≡◌, true, ◌≤◌, length, take, drop};
ghost use Rattle.fields.specs.Blocks.{all_blocks};
ghost use Rattle.fields.specs.Order.{less_bytes};
ghost use Rattle.rules.specs.Sizes.{max_nodes, max_records, max_key};
ghost use Rattle.rules.specs.Table.{keys_rise, versions, rising, numbers_of};
ghost use Rattle.rules.specs.Layout.{rec_place, node_place, rec_width, node_width, table_width, decode_rec, decode, valid};
ghost use Rattle.rules.specs.Whole.{valid_whole};
ghost use Rattle.table.specs.Tests.{key_length, rec_good, node_good, count_of, recs_in, nodes_of};

use rules::{Header, sizes};
use std::cmp::Ordering;
use table::layout;

// The versions of a node's records, in its first `n` places.
fn versions_of(node: &[u8], n: usize) -> [u64; Header::RECORDS]
    requires { (length node.now ≡ node_width) × (n ≤ max_records) × (n ≡ count_of node.now) }
    ensures { (length result ≡ max_records) × (take n result ≡ versions (recs_in node.now)) }
{
    let mut vs = [0u64; Header::RECORDS];
    for i in 0..n {
        vs[i] = fields::read_u64(node, table::record_place(i) + layout::VERSION);
    }
    vs
}

// Whether the first record's key is below the second's.
fn key_below(x: &[u8], y: &[u8]) -> bool
    requires { (length x.now ≡ rec_width) × (key_length x.now ≤ max_key) × (length y.now ≡ rec_width) × (key_length y.now ≤ max_key) }
    ensures { result ≡ less_bytes (decode_rec x.now).kv.key (decode_rec y.now).kv.key }
{
    match fields::compare(table::key_of(x), table::key_of(y)) {
        Ordering::Less => true,
        Ordering::Equal => false,
        Ordering::Greater => false,
    }
}

// Whether each key of a node's records is below the next.
fn keys_rise(node: &[u8], n: usize, max: u64) -> bool
    requires { (length node.now ≡ node_width) × (n ≤ max_records) × (n ≡ count_of node.now)
        × (all_blocks (rec_good max) rec_width n (drop (rec_place 0) node.now) ≡ true) }
    ensures { result ≡ keys_rise (recs_in node.now) }
{
    for i in 1..n {
        if !key_below(table::record_of(node, i - 1), table::record_of(node, i)) {
            return false;
        }
    }
    true
}

// Whether the bytes are those of a node.
pub fn check_node(node: &[u8]) -> bool
    requires { length node.now ≡ node_width }
    ensures { result ≡ node_good node.now }
{
    let n = fields::byte_at(node, layout::RECORD_COUNT);
    if Header::RECORDS < n {
        return false;
    }
    let max = fields::read_u64(node, layout::MAX);
    if record_check::check_records(node, n, max) {
        if keys_rise(node, n, max) {
            let vs = versions_of(node, n);
            if numbers_differ::all_differ(&vs, n) {
                let a = table::record_place(n);
                return fields::is_zero(&node[a..layout::NODE]);
            }
        }
    }
    false
}

// Whether the first `n` nodes are nodes.
fn check_nodes(table: &[u8], n: usize) -> bool
    requires { (length table.now ≡ table_width) × (n ≤ max_nodes) }
    ensures { result ≡ all_blocks node_good node_width n (drop (node_place 0) table.now) }
{
    for i in 0..n {
        if !check_node(table::node_of(table, i)) {
            return false;
        }
    }
    true
}

// Whether each node's number is below the next.
fn numbers_rise(table: &[u8], n: usize) -> bool
    requires { (length table.now ≡ table_width) × (n ≤ max_nodes) × (n ≡ nodes_of table.now) }
    ensures { result ≡ rising (numbers_of (decode table.now)) }
{
    for i in 1..n {
        let x = fields::read_u64(table, table::node_place(i - 1));
        let y = fields::read_u64(table, table::node_place(i));
        if y <= x {
            return false;
        }
    }
    true
}

// Whether the bytes are those of a table's area that obeys the rules.
fn check_area(area: &[u8]) -> bool
    ensures { result ≡ valid area.now }
{
    if area.len() != layout::AREA {
        return false;
    }
    let n = fields::byte_at(area, layout::NODE_COUNT);
    if sizes::NODES < n {
        return false;
    }
    if check_nodes(area, n) {
        if numbers_rise(area, n) {
            let a = table::node_place(n);
            return fields::is_zero(&area[a..layout::AREA]);
        }
    }
    false
}

// Whether the bytes are those of a table that obeys the rules: number 14 is refused exactly where they are not.
pub fn check_table(table: &[u8]) -> bool
    ensures { result ≡ valid_whole table.now }
{
    if table.len() != layout::TABLE {
        return false;
    }
    if check_area(&table[..layout::AREA]) {
        if tail_check::check_tail(&table[..layout::AREA], &table[layout::AREA..layout::TABLE]) {
            return profile_check::check_profile(table);
        }
    }
    false
}
