// The nodes of a good table moved, one put in, one taken out. A node's place is 3,713 bytes long and most nodes use few of them, so of each node only the
// bytes in use are moved; what was in use at its new place, and is not any more, is cleared.
#![tactic(auto)]

ghost use Rattle.std.specs.Prelude.{◌≡◌, ◌+◌, ◌*◌, ◌-◌, ◌≤◌, ◌<◌, length};
ghost use Rattle.fields.specs.Parts.{part, put};
ghost use Rattle.fields.specs.Blocks.{insert_at, remove_at};
ghost use Rattle.rules.specs.Sizes.{max_nodes};
ghost use Rattle.rules.specs.Layout.{rec_place, node_place, node_width, encode, decode};
ghost use Rattle.table.specs.Tests.{count_of, nodes_of};
ghost use Rattle.table.specs.Fits.{LaidNode, LaidTable};
ghost use Rattle.table.specs.Changes.{fresh_entry};

use table::layout;

// How much more the second is than the first; 0 where it is not.
fn above(n: usize, m: usize) -> usize
    ensures { result ≡ m - n }
{
    if n < m {
        return m - n;
    }
    0
}

// How many bytes are in use of the node at `at`.
fn used_at(pair: &[u8], at: usize) -> usize
    requires { (at + node_width ≤ length pair.now) × LaidNode (part at node_width pair.now) }
    ensures { (result ≡ rec_place (count_of (part at node_width pair.now))) × (result ≤ node_width) }
{
    let e = at + layout::NODE;
    table_write::used(&pair[at..e])
}

// Of two places one behind the other, the second becomes as the first.
fn raise(pair: &mut [u8])
    requires { (length pair.old ≡ node_width + node_width) × LaidNode (part 0 node_width pair.old) × LaidNode (part node_width node_width pair.old) }
    ensures { pair.new ≡ put node_width (part 0 node_width pair.old) pair.old }
{
    let n = used_at(pair, 0);
    let m = used_at(pair, layout::NODE);
    fields::move_up(pair, 0, layout::NODE, n);
    fields::clear(pair, layout::NODE + n, above(n, m));
}

// Of two places one behind the other, the first becomes as the second.
fn lower(pair: &mut [u8])
    requires { (length pair.old ≡ node_width + node_width) × LaidNode (part 0 node_width pair.old) × LaidNode (part node_width node_width pair.old) }
    ensures { pair.new ≡ put 0 (part node_width node_width pair.old) pair.old }
{
    let n = used_at(pair, layout::NODE);
    let m = used_at(pair, 0);
    fields::move_down(pair, layout::NODE, 0, n);
    fields::clear(pair, n, above(n, m));
}

// The nodes from `i` up to `n` of a table move up by one place.
fn raise_from(table: &mut [u8], i: usize, n: usize)
    requires { LaidTable table.old × (i ≤ n) × (n < max_nodes) }
    ensures { table.new ≡ put (node_place i + node_width) (part (node_place i) ((n - i) * node_width) table.old) table.old }
{
    for k in (i..n).rev() {
        let a = table::node_place(k);
        let e = a + layout::PAIR;
        raise(&mut table[a..e]);
    }
}

// The nodes behind node `i` of `n` move down by one place.
fn lower_behind(table: &mut [u8], i: usize, n: usize)
    requires { LaidTable table.old × (i < n) × (n ≤ max_nodes) }
    ensures { table.new ≡ put (node_place i)
        (part (node_place i + node_width) ((n - (i + 1)) * node_width) table.old) table.old }
{
    for k in i..n - 1 {
        let a = table::node_place(k);
        let e = a + layout::PAIR;
        lower(&mut table[a..e]);
    }
}

// A fresh node comes before node `i` of a table that has room.
pub fn insert_node(table: &mut [u8], i: usize, number: u64)
    requires { LaidTable table.old × (i ≤ nodes_of table.old) × (nodes_of table.old < max_nodes) }
    ensures { table.new ≡ encode (insert_at i (fresh_entry number) (decode table.old)) }
{
    let n = fields::byte_at(table, layout::NODE_COUNT);
    raise_from(table, i, n);
    let a = table::node_place(i);
    let e = a + layout::NODE;
    table_write::write_fresh(&mut table[a..e], number);
    fields::write_byte(table, layout::NODE_COUNT, n + 1);
}

// Node `i` of a table goes.
pub fn remove_node(table: &mut [u8], i: usize)
    requires { LaidTable table.old × (i < nodes_of table.old) }
    ensures { table.new ≡ encode (remove_at i (decode table.old)) }
{
    let n = fields::byte_at(table, layout::NODE_COUNT);
    lower_behind(table, i, n);
    let a = table::node_place(n - 1);
    let e = a + layout::NODE;
    table_write::clear_node(&mut table[a..e]);
    fields::write_byte(table, layout::NODE_COUNT, n - 1);
}
