// The local calls that give a version, on a lent table: the write, delete, delete after TTL. The write takes the wanted status, Set or TTL. The entry points
// take any bytes and refuse in document 01's order: 14, for the write then 10, then 2, then what the node's rules say (crate `local_node`): 1, 3, nothing
// to change, 5, 6. In a table of the meter profile (crate `local_guard`) a write is refused with 17 straight behind 1, and with 18 before 5. In a shared table
// any of the calls is refused with 19 straight behind 1 where the key is not the party's own, and 5 goes by the party's records; in other tables the party
// is not looked at. A refused call changes no byte. A name with `known` in it is for a table known to be good, so that a caller need not pay for the check
// again.
#![tactic(auto)]

ghost use Rattle.std.specs.Prelude.{◌≡◌, true};
ghost use Rattle.rules.specs.Answers.{answer_told};
ghost use Rattle.rules.specs.Given.{Gives, Tells};
ghost use Rattle.rules.specs.Node.{Deleting, DeletingAfterTtl};
ghost use Rattle.rules.specs.Local as rule;
ghost use Rattle.rules.specs.Delta.{status_byte};
ghost use Rattle.rules.specs.Lent.{stored, on_table, lent_call, lent_write};
ghost use Rattle.rules.specs.Layout.{decode, valid};
ghost use Rattle.rules.specs.Whole.{decode_whole, valid_whole};
ghost use Rattle.std.specs.Prelude.{Err};
ghost use Rattle.rules.specs.declared.Refusal.TheVariants.{BadTable};
ghost use Rattle.local_node.specs.Writes.{call_of};
ghost use Rattle.local.specs.Wanted.{asked_by, is_shared, wanted_of};

use local_node::Kind;
use rules::{Party, Profile, Refusal, Status};
use table::layout;

// One of document 01's four calls at a key of a node of a good table: 2, then what the node's rules say.
fn call_good(
    table: &mut [u8],
    number: u64,
    kind: Kind,
    key: &[u8],
    value: &[u8],
    clock: u64,
) -> Result<(), Refusal>
    requires { valid table.old ≡ true }
    ensures { Gives (stored (rule.call (call_of kind value.now clock) number key.now (decode table.old)))
        result table.new }
{
    let span = table_read::node_span(table, number).ok_or(Refusal::NoNode)?;
    local_node::write_node(&mut table[span.start..span.end], kind, key, value, clock)
}

// The same on a whole table.
fn call_let(
    table: &mut [u8],
    number: u64,
    kind: Kind,
    key: &[u8],
    value: &[u8],
    clock: u64,
) -> Result<(), Refusal>
    requires { valid_whole table.old ≡ true }
    ensures { Gives
        (on_table (Err BadTable) (rule.call (call_of kind value.now clock) number key.now) table.old)
        result table.new }
{
    call_good(&mut table[..layout::AREA], number, kind, key, value, clock)
}

// The same in the table's profile, by a party: what the profile refuses, then the call.
fn call_guarded(
    table: &mut [u8],
    party: Party,
    number: u64,
    kind: Kind,
    key: &[u8],
    value: &[u8],
    clock: u64,
) -> Result<(), Refusal>
    requires { valid_whole table.old ≡ true }
    ensures { Gives (lent_call party (call_of kind value.now clock) number key.now table.old) result table.new }
{
    let profile = profile_check::profile_of(table);
    local_guard::guard(
        &table[..layout::AREA],
        profile,
        party,
        number,
        kind,
        key,
        value,
    )?;
    call_good(&mut table[..layout::AREA], number, kind, key, value, clock)
}

// The same. A free table lets all through, and pays one compare.
fn call_known(
    table: &mut [u8],
    party: Party,
    number: u64,
    kind: Kind,
    key: &[u8],
    value: &[u8],
    clock: u64,
) -> Result<(), Refusal>
    requires { valid_whole table.old ≡ true }
    ensures { Gives (lent_call party (call_of kind value.now clock) number key.now table.old) result table.new }
{
    match profile_check::profile_of(table) {
        Profile::Free => call_let(table, number, kind, key, value, clock),
        Profile::Meter => call_guarded(table, party, number, kind, key, value, clock),
        Profile::Shared => call_guarded(table, party, number, kind, key, value, clock),
    }
}

// One of the four calls on any bytes.
fn call(
    table: &mut [u8],
    party: Party,
    number: u64,
    kind: Kind,
    key: &[u8],
    value: &[u8],
    clock: u64,
) -> Result<(), Refusal>
    ensures { Tells answer_told (lent_call party (call_of kind value.now clock) number key.now table.old)
        result table.new }
{
    if !table_check::check_table(table) {
        return Err(Refusal::BadTable);
    }
    call_guarded(table, party, number, kind, key, value, clock)
}

// ---- the write

fn asked_call(wanted: Status) -> Option<Kind>
    ensures { result ≡ asked_by wanted }
{
    match wanted {
        Status::Set => Some(Kind::Setting),
        Status::Delete => None,
        Status::Ttl => Some(Kind::SettingTtl),
    }
}

// The status that a number from outside wants: 0 Set, 1 Delete, 2 TTL. Any other is taken for Delete, which a write does not take either.
pub fn wanted(n: u64) -> Status
    ensures { result ≡ wanted_of n }
{
    if n == 0 {
        return Status::Set;
    }
    if n == 2 {
        return Status::Ttl;
    }
    Status::Delete
}

// The write on a good table: 10, then as the call that it asks for.
fn write_guarded(
    table: &mut [u8],
    party: Party,
    number: u64,
    key: &[u8],
    value: &[u8],
    wanted: Status,
    clock: u64,
) -> Result<(), Refusal>
    requires { valid_whole table.old ≡ true }
    ensures { Gives (lent_write party (status_byte wanted) value.now clock number key.now table.old)
        result table.new }
{
    let kind = asked_call(wanted).ok_or(Refusal::BadTag)?;
    call_guarded(table, party, number, kind, key, value, clock)
}

// The same, without a step aside where the table is free.
pub fn write_known(
    table: &mut [u8],
    party: Party,
    number: u64,
    key: &[u8],
    value: &[u8],
    wanted: Status,
    clock: u64,
) -> Result<(), Refusal>
    requires { valid_whole table.old ≡ true }
    ensures { Gives (lent_write party (status_byte wanted) value.now clock number key.now table.old)
        result table.new }
{
    let kind = asked_call(wanted).ok_or(Refusal::BadTag)?;
    call_known(table, party, number, kind, key, value, clock)
}

// The write: the key's record of the node takes this value and the wanted status, Set or TTL, and stays as it is where it has both already. Under TTL a changed
// record is scheduled from this time on; under Set the time is not looked at.
pub fn write(
    table: &mut [u8],
    party: Party,
    number: u64,
    key: &[u8],
    value: &[u8],
    wanted: Status,
    clock: u64,
) -> Result<(), Refusal>
    ensures { Tells answer_told
        (lent_write party (status_byte wanted) value.now clock number key.now table.old)
        result table.new }
{
    if !table_check::check_table(table) {
        return Err(Refusal::BadTable);
    }
    write_guarded(table, party, number, key, value, wanted, clock)
}

// ---- the deletes

// Whether a table is shared.
fn is_shared(table: &[u8]) -> bool
    requires { valid_whole table.now ≡ true }
    ensures { result ≡ is_shared (decode_whole table.now).kind.profile }
{
    matches!(profile_check::profile_of(table), Profile::Shared)
}

// The two on a good table. The profiles let them through, but for the shared one.
pub fn delete_known(
    table: &mut [u8],
    party: Party,
    number: u64,
    key: &[u8],
    clock: u64,
) -> Result<(), Refusal>
    requires { valid_whole table.old ≡ true }
    ensures { Gives (lent_call party (Deleting clock) number key.now table.old) result table.new }
{
    if is_shared(table) {
        return call_guarded(table, party, number, Kind::Deleting, key, b"", clock);
    }
    call_let(table, number, Kind::Deleting, key, b"", clock)
}

pub fn delete_after_ttl_known(
    table: &mut [u8],
    party: Party,
    number: u64,
    key: &[u8],
    clock: u64,
) -> Result<(), Refusal>
    requires { valid_whole table.old ≡ true }
    ensures { Gives (lent_call party (DeletingAfterTtl clock) number key.now table.old) result table.new }
{
    if is_shared(table) {
        return call_guarded(
            table,
            party,
            number,
            Kind::DeletingAfterTtl,
            key,
            b"",
            clock,
        );
    }
    call_let(table, number, Kind::DeletingAfterTtl, key, b"", clock)
}

// Delete: the key's record is emptied and hidden, and scheduled from this time on.
pub fn delete(
    table: &mut [u8],
    party: Party,
    number: u64,
    key: &[u8],
    clock: u64,
) -> Result<(), Refusal>
    ensures { Tells answer_told (lent_call party (Deleting clock) number key.now table.old) result table.new }
{
    call(table, party, number, Kind::Deleting, key, b"", clock)
}

// Delete after TTL: the key's record keeps its value, and is scheduled from this time on.
pub fn delete_after_ttl(
    table: &mut [u8],
    party: Party,
    number: u64,
    key: &[u8],
    clock: u64,
) -> Result<(), Refusal>
    ensures { Tells answer_told (lent_call party (DeletingAfterTtl clock) number key.now table.old) result table.new }
{
    call(
        table,
        party,
        number,
        Kind::DeletingAfterTtl,
        key,
        b"",
        clock,
    )
}
