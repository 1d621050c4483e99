// Writing a delta under the MTU: for each node in line a Node operation, then its stale records by rising version, or a SetMaxVersion where there
// are none. Each operation is written to the part of the datagram that begins at its place and ends where the MTU does.
#![tactic(auto)]

ghost use Rattle.std.specs.Prelude.{◌≡◌, ◌≤◌, ◌<◌, length};
ghost use Rattle.rules.specs.Given.{Gives};
ghost use Rattle.rules.specs.Sizes.{max_nodes};
ghost use Rattle.rules.specs.Delta.{KeyValueOp};
ghost use Rattle.rules.specs.Layout.{decode};
ghost use Rattle.table.specs.Fits.{LaidTable};
ghost use Rattle.table.specs.Tests.{nodes_of};
ghost use Rattle.table_read.specs.Find.{entry_at};
ghost use Rattle.delta_write.specs.Written.{write_op};
ghost use Rattle.compute_stale.specs.Arranged.{listed, AllBelow};
ghost use Rattle.compute_write.specs.Sending.{node_op_at, record_at, ops_at, sending, closed};

use rules::Sent;

// The Node operation of the node at `p`.
pub fn write_node(table: &[u8], p: usize, from: u64, datagram: &mut [u8]) -> Option<usize>
    requires { LaidTable table.now × (p < nodes_of table.now) }
    ensures { Gives (write_op (node_op_at (decode table.now) p from) datagram.old) result datagram.new }
{
    delta_write::write_node(
        datagram,
        table_read::number_at(table, p),
        table_read::last_gc_at(table, p),
        from,
    )
}

// Record `q` of the node at `p`.
pub fn write_record(table: &[u8], p: usize, q: usize, datagram: &mut [u8]) -> Option<usize>
    requires { LaidTable table.now × (p < nodes_of table.now) × (q < length (entry_at (decode table.now) p).node.recs) }
    ensures { Gives (write_op (KeyValueOp (record_at (decode table.now) p q)) datagram.old) result datagram.new }
{
    let b = table::record_of(table::node_of(table, p), q);
    let r = table_read::read_record(b);
    let status = r.status;
    delta_write::write_key_value(
        datagram,
        table::key_of(b),
        table::value_of(b),
        r.version,
        status,
    )
}

// SetMaxVersion, where the node at `p` has no stale records. It is dropped where it does not fit.
pub fn write_max(table: &[u8], p: usize, stale: usize, datagram: &mut [u8]) -> Sent
    requires { LaidTable table.now × (p < nodes_of table.now) }
    ensures { Gives (closed stale (entry_at (decode table.now) p).node.max datagram.old) result datagram.new }
{
    if stale != 0 {
        return Sent { ops: 0, bytes: 0 };
    }
    match delta_write::write_set_max_version(datagram, table_read::max_at(table, p)) {
        Some(bytes) => Sent { ops: 1, bytes },
        None => Sent { ops: 0, bytes: 0 },
    }
}

// Writes the operations of the `n` nodes in line, first to last, while they fit. The first record that does not fit ends the whole delta, and so
// does a Node.
pub fn write_nodes(
    table: &[u8],
    froms: &[u64],
    line: &[usize],
    n: usize,
    datagram: &mut [u8],
) -> Sent
    requires { LaidTable table.now × (length froms.now ≡ max_nodes) × (length line.now ≡ max_nodes) × (n ≤ max_nodes)
        × AllBelow (nodes_of table.now) (listed n line.now) }
    ensures { Gives (sending 0 0 (ops_at (decode table.now) froms.now (listed n line.now)) datagram.old)
        result datagram.new }
{
    let mut ops = 0;
    let mut used = 0;
    'nodes: for j in (0..n).rev() {
        let p = line[j];
        let from = froms[p];
        let Some(size) = write_node(table, p, from, &mut datagram[used..]) else {
            break 'nodes;
        };
        ops += 1;
        used += size;
        let stale = compute_stale::stale_places(table::node_of(table, p), from);
        let at = stale.at;
        let sent = write_max(table, p, stale.count, &mut datagram[used..]);
        ops += sent.ops;
        used += sent.bytes;
        for k in (0..stale.count).rev() {
            let q = at[k];
            let Some(size) = write_record(table, p, q, &mut datagram[used..]) else {
                break 'nodes;
            };
            ops += 1;
            used += size;
        }
    }
    Sent { ops, bytes: used }
}
