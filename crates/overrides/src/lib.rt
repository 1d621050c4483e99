// Site overrides: a lent table of overrides, one node in form. A caretaker puts a label over a shared one, takes it back, and has the deleted ones removed, by
// document 01's rules of a node. The entry points take any bytes and refuse with 14 first; a refused call changes no byte. How overrides are read together
// with a node of a table stands in the crates `over_find` and `over_list`.
#![tactic(auto)]

ghost use Rattle.std.specs.Prelude.{◌≡◌, true};
ghost use Rattle.rules.specs.Answers.{answer_told};
ghost use Rattle.rules.specs.Given.{Gives, Tells};
ghost use Rattle.rules.specs.Node.{Deleting, DeletingAfterTtl};
ghost use Rattle.rules.specs.Delta.{status_byte};
ghost use Rattle.rules.specs.Layout.{decode_node};
ghost use Rattle.local_node.specs.Writes.{call_of};
ghost use Rattle.overrides.specs.Overrides.{valid_node, stored_node, written};
ghost use Rattle.overrides.specs.Overrides.{lent_new_overrides, lent_write_override, lent_call_override, lent_remove_overrides};
ghost use Rattle.overrides.specs.Both.{which_code};

use local_node::Kind;
use rules::{Refusal, Status};
use table::layout;

// Of two lent things, the one that a refusal is of.
#[derive(Clone, Copy)]
pub enum Which {
    // The refusal is of what was asked, and not of a lent thing.
    Neither,
    Overrides,
    Table,
}

// A refusal of a call that looks at both, and of which of them it is.
#[derive(Clone, Copy)]
pub struct RefusedOver {
    pub which: Which,
    pub why: Refusal,
}

impl Which {
    // The number that stands for it.
    pub fn code(self) -> u64
        ensures { result ≡ which_code self }
    {
        match self {
            Which::Neither => 0,
            Which::Overrides => 1,
            Which::Table => 2,
        }
    }
}

// Whether the bytes are those of overrides that obey the rules: number 14 is refused exactly where they are not.
pub fn check_overrides(overrides: &[u8]) -> bool
    ensures { result ≡ valid_node overrides.now }
{
    overrides.len() == layout::NODE && table_check::check_node(overrides)
}

// The slice becomes overrides without a record, under this number, whatever stood there; one of another length is refused with 14.
pub fn new_overrides(overrides: &mut [u8], number: u64) -> Result<(), Refusal>
    ensures { Tells answer_told (lent_new_overrides number overrides.old) result overrides.new }
{
    if overrides.len() != layout::NODE {
        return Err(Refusal::BadTable);
    }
    fields::clear(overrides, 0, layout::NODE);
    fields::write_u64(overrides, layout::NUMBER, number);
    Ok(())
}

// One of document 01's four calls at a key: 14, then what the node's rules say.
fn call(
    overrides: &mut [u8],
    kind: Kind,
    key: &[u8],
    value: &[u8],
    clock: u64,
) -> Result<(), Refusal>
    ensures { Tells answer_told (lent_call_override (call_of kind value.now clock) key.now overrides.old)
        result overrides.new }
{
    if !check_overrides(overrides) {
        return Err(Refusal::BadTable);
    }
    local_node::write_node(overrides, kind, key, value, clock)
}

// The write on good overrides: 10, then what the node's rules say.
fn write_good(
    overrides: &mut [u8],
    key: &[u8],
    value: &[u8],
    wanted: Status,
    clock: u64,
) -> Result<(), Refusal>
    requires { valid_node overrides.old ≡ true }
    ensures { Gives
        (stored_node (written (status_byte wanted) value.now clock key.now (decode_node overrides.old)))
        result overrides.new }
{
    match wanted {
        Status::Set => local_node::write_node(overrides, Kind::Setting, key, value, clock),
        Status::Delete => Err(Refusal::BadTag),
        Status::Ttl => local_node::write_node(overrides, Kind::SettingTtl, key, value, clock),
    }
}

// The write: the key's override takes this value and the wanted status, Set or TTL, and stays as it is where it has both already. Under TTL a changed one is
// scheduled from this time on; under Set the time is not looked at. 14, 10, 1, 5, 6.
pub fn write_override(
    overrides: &mut [u8],
    key: &[u8],
    value: &[u8],
    wanted: Status,
    clock: u64,
) -> Result<(), Refusal>
    ensures { Tells answer_told (lent_write_override (status_byte wanted) value.now clock key.now overrides.old)
        result overrides.new }
{
    if !check_overrides(overrides) {
        return Err(Refusal::BadTable);
    }
    write_good(overrides, key, value, wanted, clock)
}

// Delete: the key's override is emptied and hidden, so that the shared record shows again, and scheduled from this time on. 14, 1, 3, 6.
pub fn delete_override(overrides: &mut [u8], key: &[u8], clock: u64) -> Result<(), Refusal>
    ensures { Tells answer_told (lent_call_override (Deleting clock) key.now overrides.old) result overrides.new }
{
    call(overrides, Kind::Deleting, key, b"", clock)
}

// Delete after TTL: the key's override keeps its value and shows, and is scheduled from this time on. 14, 1, 3, 6.
pub fn delete_override_after_ttl(
    overrides: &mut [u8],
    key: &[u8],
    clock: u64,
) -> Result<(), Refusal>
    ensures { Tells answer_told (lent_call_override (DeletingAfterTtl clock) key.now overrides.old)
        result overrides.new }
{
    call(overrides, Kind::DeletingAfterTtl, key, b"", clock)
}

// The scheduled overrides whose grace is over go. 14.
pub fn remove_overrides(overrides: &mut [u8], clock: u64, grace: u64) -> Result<(), Refusal>
    ensures { Tells answer_told (lent_remove_overrides clock grace overrides.old) result overrides.new }
{
    if !check_overrides(overrides) {
        return Err(Refusal::BadTable);
    }
    removal::remove_due(overrides, clock, grace);
    Ok(())
}
