// The memory of removed nodes in a lent tail: asking for one, forgetting one, remembering one more. The longest remembered stands first, and free places are
// zero.
#![tactic(auto)]

ghost use Rattle.std.specs.Prelude.{◌≡◌, [], ◌∷◌, ◌++◌, ◌≤◌, ◌<◌, length};
ghost use Rattle.rules.specs.Sizes.{max_removed};
ghost use Rattle.rules.specs.Memory as memory;
ghost use Rattle.rules.specs.Lent.{remembered_as};
ghost use Rattle.rules.specs.Whole.{tail_width, encode_tail, decode_tail, decode_memory};
ghost use Rattle.table.specs.Tests.{removed_in};
ghost use Rattle.table.specs.Fits.{LaidTail};
ghost use Rattle.removed.specs.Find.{index_of};

use rules::{Heartbeat, Refusal, sizes};
use table::layout;

// Where the node with this number stands among the `n` removed ones; `n` where it is none of them.
fn find(tail: &[u8], number: u64, n: usize) -> usize
    requires { (length tail.now ≡ tail_width) × (n ≤ max_removed) × (n ≡ removed_in tail.now) }
    ensures { (result ≡ index_of number (decode_memory tail.now)) × (result ≤ n) }
{
    for i in 0..n {
        if number == fields::read_u64(tail, table::removed_place(i) + layout::REMOVED_NUMBER) {
            return i;
        }
    }
    n
}

// The last heartbeat of a removed node. The tail is lent for reading: asking cannot change the order.
pub fn last_heartbeat(tail: &[u8], number: u64) -> Result<Option<Heartbeat>, Refusal>
    requires { (length tail.now ≡ tail_width) × (removed_in tail.now ≤ max_removed) }
    ensures { result ≡ remembered_as (memory.heartbeat_of number (decode_memory tail.now)) }
{
    let n = fields::byte_at(tail, layout::REMOVED_COUNT);
    let i = find(tail, number, n);
    if i < n {
        let beat = fields::read_u64(tail, table::removed_place(i) + layout::REMOVED_HEARTBEAT);
        return Ok(Some(Heartbeat(beat)));
    }
    Ok(None)
}

// The node is forgotten, and the others keep their order.
pub fn forget(tail: &mut [u8], number: u64)
    requires { LaidTail tail.old }
    ensures { tail.new ≡ encode_tail (decode_tail tail.old) (memory.forget number (decode_memory tail.old)) }
{
    let n = fields::byte_at(tail, layout::REMOVED_COUNT);
    let i = find(tail, number, n);
    if i < n {
        table_write::remove_block(tail, layout::REMOVED_COUNT, layout::REMOVED, i);
    }
}

// Where there is no room for one more, the longest remembered goes.
fn make_room(tail: &mut [u8])
    requires { LaidTail tail.old }
    ensures { tail.new ≡ encode_tail (decode_tail tail.old) (memory.make_room (decode_memory tail.old)) }
{
    if sizes::REMOVED <= fields::byte_at(tail, layout::REMOVED_COUNT) {
        table_write::remove_block(tail, layout::REMOVED_COUNT, layout::REMOVED, 0);
    }
}

// One more, behind the last.
fn append(tail: &mut [u8], number: u64, heartbeat: Heartbeat)
    requires { LaidTail tail.old × (removed_in tail.old < max_removed) }
    ensures { tail.new ≡ encode_tail (decode_tail tail.old)
        (decode_memory tail.old ++ (memory.removed number heartbeat ∷ [])) }
{
    let n = fields::byte_at(tail, layout::REMOVED_COUNT);
    let a = table::removed_place(n);
    fields::write_u64(tail, a, number);
    fields::write_u64(tail, a + layout::REMOVED_HEARTBEAT, heartbeat.0);
    fields::write_byte(tail, layout::REMOVED_COUNT, n + 1);
}

// The node is remembered with its last heartbeat.
pub fn remember(tail: &mut [u8], number: u64, heartbeat: Heartbeat)
    requires { LaidTail tail.old }
    ensures { tail.new ≡ encode_tail (decode_tail tail.old) (memory.remember number heartbeat (decode_memory tail.old)) }
{
    make_room(tail);
    append(tail, number, heartbeat);
}
