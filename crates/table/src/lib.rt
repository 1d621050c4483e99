// The parts of a lent table: nodes, records, keys and values, each handed out as those very bytes.
#![tactic(auto)]

ghost use Rattle.std.specs.Prelude.{◌≡◌, ◌≤◌, ◌<◌, length};
ghost use Rattle.fields.specs.Parts.{part};
ghost use Rattle.rules.specs.Sizes.{max_nodes, max_records, max_key, max_value, max_removed};
ghost use Rattle.rules.specs.Layout.{rec_place, node_place, rec_width, node_width, table_width, decode_rec};
ghost use Rattle.rules.specs.Whole.{removed_place};
ghost use Rattle.table.specs.Tests.{key_length, value_length};

pub mod layout;

// Where node `i` begins in a table's bytes; behind the last one, where they end.
pub fn node_place(i: usize) -> usize
    requires { i ≤ max_nodes }
    ensures { result ≡ node_place i }
{
    layout::NODES + fields::times(i, layout::NODE)
}

// Where record `j` begins in a node's bytes; behind the last one, where they end.
pub fn record_place(j: usize) -> usize
    requires { j ≤ max_records }
    ensures { result ≡ rec_place j }
{
    layout::RECORDS + fields::times(j, layout::RECORD)
}

// Where removed node `i` begins in a tail's bytes; behind the last one, where they end.
pub fn removed_place(i: usize) -> usize
    requires { i ≤ max_removed }
    ensures { result ≡ removed_place i }
{
    layout::REMOVED_NODES + i * layout::REMOVED
}

// Node `i` of a table's bytes.
pub fn node_of(table: &[u8], i: usize) -> &[u8]
    requires { (length table.now ≡ table_width) × (i < max_nodes) }
    ensures { result.now ≡ part (node_place i) node_width table.now }
{
    let a = node_place(i);
    let e = a + layout::NODE;
    &table[a..e]
}

// Record `j` of a node's bytes.
pub fn record_of(node: &[u8], j: usize) -> &[u8]
    requires { (length node.now ≡ node_width) × (j < max_records) }
    ensures { result.now ≡ part (rec_place j) rec_width node.now }
{
    let a = record_place(j);
    let e = a + layout::RECORD;
    &node[a..e]
}

// The key in a record's bytes.
pub fn key_of(record: &[u8]) -> &[u8]
    requires { (length «record».now ≡ rec_width) × (key_length «record».now ≤ max_key) }
    ensures { result.now ≡ (decode_rec «record».now).kv.key }
{
    let e = layout::KEY + fields::byte_at(record, layout::KEY_LENGTH);
    &record[layout::KEY..e]
}

// The value in a record's bytes.
pub fn value_of(record: &[u8]) -> &[u8]
    requires { (length «record».now ≡ rec_width) × (value_length «record».now ≤ max_value) }
    ensures { result.now ≡ (decode_rec «record».now).kv.value }
{
    let e = layout::VALUE + fields::byte_at(record, layout::VALUE_LENGTH);
    &record[layout::VALUE..e]
}
