// The check of what stands behind a table's area: the mode, the profile, and the memory of removed nodes. Where nothing is remembered, the memory costs no
// more than its zeros.
#![tactic(auto)]

ghost use Rattle.std.specs.Prelude.{◌≡◌, ◌&&◌, ◌≤◌, ◌<◌, length, take};
ghost use Rattle.rules.specs.Sizes.{max_nodes, max_removed};
ghost use Rattle.rules.specs.Table.{differ, numbers_of};
ghost use Rattle.rules.specs.Memory.{apart, removed_numbers};
ghost use Rattle.rules.specs.Layout.{table_width, decode};
ghost use Rattle.rules.specs.Whole.{tail_width, decode_memory};
ghost use Rattle.table.specs.Tests.{nodes_of, removed_in, tail_good};

use rules::{Mode, Profile, sizes};
use table::layout;

// The numbers of the removed nodes, in its first `n` places.
fn removed_numbers(tail: &[u8], n: usize) -> [u64; sizes::REMOVED]
    requires { (length tail.now ≡ tail_width) × (n ≤ max_removed) × (n ≡ removed_in tail.now) }
    ensures { (length result ≡ max_removed) × (take n result ≡ removed_numbers (decode_memory tail.now)) }
{
    let mut ns = [0u64; sizes::REMOVED];
    for i in 0..n {
        ns[i] = fields::read_u64(tail, table::removed_place(i) + layout::REMOVED_NUMBER);
    }
    ns
}

// Whether no node of the area has one of the first `n` numbers.
fn none_held(area: &[u8], ns: &[u64], n: usize) -> bool
    requires { (length area.now ≡ table_width) × (nodes_of area.now ≤ max_nodes) × (n ≤ length ns.now) }
    ensures { result ≡ apart (numbers_of (decode area.now)) (take n ns.now) }
{
    let m = fields::byte_at(area, layout::NODE_COUNT);
    for i in 0..m {
        let x = fields::read_u64(area, table::node_place(i));
        if numbers_differ::stands_from(ns, 0, n, x) {
            return false;
        }
    }
    true
}

// Whether no removed node stands twice in the tail, and none is held in the area.
fn check_numbers(area: &[u8], tail: &[u8], n: usize) -> bool
    requires { (length area.now ≡ table_width) × (nodes_of area.now ≤ max_nodes)
        × (length tail.now ≡ tail_width) × (n ≤ max_removed) × (n ≡ removed_in tail.now) }
    ensures { result ≡ (differ (removed_numbers (decode_memory tail.now))
        && apart (numbers_of (decode area.now)) (removed_numbers (decode_memory tail.now))) }
{
    if n == 0 {
        return true;
    }
    let ns = removed_numbers(tail, n);
    if numbers_differ::all_differ(&ns, n) {
        return none_held(area, &ns, n);
    }
    false
}

// Whether the bytes are those of a tail behind this area: a mode, a profile, at most 16 removed nodes, zeros behind them, none twice, none that is held.
pub fn check_tail(area: &[u8], tail: &[u8]) -> bool
    requires { (length area.now ≡ table_width) × (nodes_of area.now ≤ max_nodes) × (length tail.now ≡ tail_width) }
    ensures { result ≡ tail_good (numbers_of (decode area.now)) tail.now }
{
    if Mode::LAST < fields::byte_at(tail, layout::MODE) {
        return false;
    }
    if Profile::LAST < fields::byte_at(tail, layout::PROFILE) {
        return false;
    }
    let n = fields::byte_at(tail, layout::REMOVED_COUNT);
    if sizes::REMOVED < n {
        return false;
    }
    let a = table::removed_place(n);
    if fields::is_zero(&tail[a..layout::TAIL]) {
        return check_numbers(area, tail, n);
    }
    false
}
