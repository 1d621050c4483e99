// What a profile refuses of a local call, behind 2 and 1. The meter profile: a write out of form (17), and one to `total` that states a smaller number than the
// unhidden record there (18). The shared profile: any call at a key that is not the party's own (19), and a write of a party's 17th key (5). What is let
// through is document 01's call. It changes nothing. A free table pays one compare.
#![tactic(auto)]

ghost use Rattle.std.specs.Prelude.{◌≡◌, true, not, ◌&&◌, [], ◌≤◌, leb, ltb, length};
ghost use Rattle.std.proofs.Math.Option.{none, some};
ghost use Rattle.fields.specs.Choice.{pick};
ghost use Rattle.rules.specs.Sizes.{max_key, max_value};
ghost use Rattle.rules.specs.Node.{hidden, find};
ghost use Rattle.rules.specs.Table.{keys_rise, node_of};
ghost use Rattle.rules.specs.Party.{own};
ghost use Rattle.rules.specs.Profile.{brings, full_guard, guard_at, guard_in, meter_guard, sizes_fit, smaller};
ghost use Rattle.rules.specs.Profile.{in_form, meter_value, numeral, profile_obeys, recs_formed};
ghost use Rattle.rules.specs.Layout.{decode, decode_rec, rec_width, valid};
ghost use Rattle.rules.specs.declared.Party.TheVariants.{Nobody};
ghost use Rattle.rules.specs.declared.Profile.TheVariants.{Meter, Shared};
ghost use Rattle.rules.specs.declared.Refusal.TheVariants.{SmallerTotal};
ghost use Rattle.rules.specs.declared.Status.TheVariants.{Set};
ghost use Rattle.table.specs.Tests.{key_length, recs_in, value_length};
ghost use Rattle.table.specs.Fits.{LaidNode};
ghost use Rattle.local_node.specs.Writes.{call_of};
ghost use Rattle.local_guard.specs.Guarding.{bringing, guarded_by};

use local_node::Kind;
use rules::{Party, Profile, Record, Refusal, Status};
use table_read::{Place, Span};

// ---- the meter profile

// Whether a record of this status is hidden.
fn is_hidden(status: Status) -> bool
    ensures { result ≡ hidden status }
{
    matches!(status, Status::Delete)
}

// A value in form against that of a record in form: 18 where it states a smaller number, unless the record is hidden.
fn guard_held(record: &[u8], value: &[u8], status: Status) -> Result<(), Refusal>
    requires { (length «record».now ≡ rec_width) × (key_length «record».now ≤ max_key) × (value_length «record».now ≤ max_value)
        × (in_form Meter (decode_rec «record».now).kv ≡ true) × (meter_value status value.now ≡ true) }
    ensures { result ≡ guarded_by (pick
        (not (hidden (decode_rec «record».now).kv.status)
        && ltb (numeral 0 value.now) (numeral 0 (decode_rec «record».now).kv.value))
        (some SmallerTotal) none) }
{
    if is_hidden(table_read::read_record(record).status) {
        return Ok(());
    }
    if meter_form::number_of(value) < meter_form::number_of(table::value_of(record)) {
        return Err(Refusal::SmallerTotal);
    }
    Ok(())
}

// A write in form: 18.
fn guard_total(node: &[u8], key: &[u8], value: &[u8], status: Status) -> Result<(), Refusal>
    requires { LaidNode node.now × (keys_rise (recs_in node.now) ≡ true) × (recs_formed Meter (recs_in node.now) ≡ true)
        × (meter_value status value.now ≡ true) }
    ensures { result ≡ guarded_by
        (pick (smaller (bringing key.now value.now status)
        (find key.now (recs_in node.now))) (some SmallerTotal) none) }
{
    if !fields::same(key, b"total") {
        return Ok(());
    }
    match table_read::search_key(node, key) {
        Place::At(j) => guard_held(table::record_of(node, j), value, status),
        Place::Free(_) => Ok(()),
    }
}

// A write, of which 1 is asked before: 17, 18.
fn guard_write(node: &[u8], key: &[u8], value: &[u8], status: Status) -> Result<(), Refusal>
    requires { LaidNode node.now × (keys_rise (recs_in node.now) ≡ true) × (recs_formed Meter (recs_in node.now) ≡ true) }
    ensures { result ≡ guarded_by (pick (leb (length key.now) max_key && leb (length value.now) max_value)
        (meter_guard (some (bringing key.now value.now status)) (find key.now (recs_in node.now))) none) }
{
    if Record::KEY < key.len() {
        return Ok(());
    }
    if Record::VALUE < value.len() {
        return Ok(());
    }
    if !meter_form::is_formed(key, value, status) {
        return Err(Refusal::BadForm);
    }
    guard_total(node, key, value, status)
}

// One of the four calls at a key of a node: the deletes pass.
fn guard_node(node: &[u8], kind: Kind, key: &[u8], value: &[u8]) -> Result<(), Refusal>
    requires { LaidNode node.now × (keys_rise (recs_in node.now) ≡ true) × (recs_formed Meter (recs_in node.now) ≡ true) }
    ensures { result ≡ guarded_by (guard_at Meter Nobody (call_of kind value.now 0) key.now (recs_in node.now)) }
{
    match kind {
        Kind::Setting => guard_write(node, key, value, Status::Set),
        Kind::SettingTtl => guard_write(node, key, value, Status::Ttl),
        Kind::Deleting => Ok(()),
        Kind::DeletingAfterTtl => Ok(()),
    }
}

// On a good meter table: a node that is not held passes, as 2 comes first.
fn guard_meter(
    table: &[u8],
    number: u64,
    kind: Kind,
    key: &[u8],
    value: &[u8],
) -> Result<(), Refusal>
    requires { (valid table.now ≡ true) × (profile_obeys Meter (decode table.now) ≡ true) }
    ensures { result ≡ guarded_by
        (guard_in Meter Nobody (call_of kind value.now 0) key.now (node_of number (decode table.now))) }
{
    match table_read::node_span(table, number) {
        Some(Span { start, end }) => guard_node(&table[start..end], kind, key, value),
        None => Ok(()),
    }
}

// ---- the shared profile

// Whether key and value are within 1. The deletes bring no value.
fn is_sized(kind: Kind, key: &[u8], value: &[u8]) -> bool
    ensures { result ≡ sizes_fit (call_of kind value.now 0) key.now }
{
    if Record::KEY < key.len() {
        return false;
    }
    match kind {
        Kind::Setting => value.len() <= Record::VALUE,
        Kind::SettingTtl => value.len() <= Record::VALUE,
        Kind::Deleting => true,
        Kind::DeletingAfterTtl => true,
    }
}

// A write at an own key: 5 where the party has 16 and the key is not there. The count is quicker found than the key.
fn guard_own(node: &[u8], party: Party, key: &[u8]) -> Result<(), Refusal>
    requires { LaidNode node.now × (keys_rise (recs_in node.now) ≡ true) × (recs_formed Shared (recs_in node.now) ≡ true) }
    ensures { result ≡ guarded_by (full_guard (own party) (some (bringing key.now [] Set))
        (find key.now (recs_in node.now)) (recs_in node.now)) }
{
    let seen = own_rows::sight_of(node, Profile::Shared, party);
    if seen.count < Party::RECORDS {
        return Ok(());
    }
    match table_read::search_key(node, key) {
        Place::At(_) => Ok(()),
        Place::Free(_) => Err(Refusal::NodeFull),
    }
}

// One of the four calls at an own key: the deletes pass.
fn guard_kind(
    node: &[u8],
    party: Party,
    kind: Kind,
    key: &[u8],
    value: &[u8],
) -> Result<(), Refusal>
    requires { LaidNode node.now × (keys_rise (recs_in node.now) ≡ true) × (recs_formed Shared (recs_in node.now) ≡ true) }
    ensures { result ≡ guarded_by (full_guard (own party) (brings (call_of kind value.now 0) key.now)
        (find key.now (recs_in node.now)) (recs_in node.now)) }
{
    match kind {
        Kind::Setting => guard_own(node, party, key),
        Kind::SettingTtl => guard_own(node, party, key),
        Kind::Deleting => Ok(()),
        Kind::DeletingAfterTtl => Ok(()),
    }
}

// One of the four calls at a key of a node: 1 comes before, then 19, though the key be not there, then 5.
fn guard_party(
    node: &[u8],
    party: Party,
    kind: Kind,
    key: &[u8],
    value: &[u8],
) -> Result<(), Refusal>
    requires { LaidNode node.now × (keys_rise (recs_in node.now) ≡ true) × (recs_formed Shared (recs_in node.now) ≡ true) }
    ensures { result ≡ guarded_by (guard_at Shared party (call_of kind value.now 0) key.now (recs_in node.now)) }
{
    if !is_sized(kind, key, value) {
        return Ok(());
    }
    if !party_form::owns(party, key) {
        return Err(Refusal::OtherParty);
    }
    guard_kind(node, party, kind, key, value)
}

// On a good shared table: a node that is not held passes, as 2 comes first.
fn guard_shared(
    table: &[u8],
    party: Party,
    number: u64,
    kind: Kind,
    key: &[u8],
    value: &[u8],
) -> Result<(), Refusal>
    requires { (valid table.now ≡ true) × (profile_obeys Shared (decode table.now) ≡ true) }
    ensures { result ≡ guarded_by
        (guard_in Shared party (call_of kind value.now 0) key.now (node_of number (decode table.now))) }
{
    match table_read::node_span(table, number) {
        Some(Span { start, end }) => guard_party(&table[start..end], party, kind, key, value),
        None => Ok(()),
    }
}

// ---- any profile

// Whether the profile of a good table lets a call of a party through.
pub fn guard(
    table: &[u8],
    profile: Profile,
    party: Party,
    number: u64,
    kind: Kind,
    key: &[u8],
    value: &[u8],
) -> Result<(), Refusal>
    requires { (valid table.now ≡ true) × (profile_obeys profile (decode table.now) ≡ true) }
    ensures { result ≡ guarded_by
        (guard_in profile party (call_of kind value.now 0) key.now (node_of number (decode table.now))) }
{
    match profile {
        Profile::Free => Ok(()),
        Profile::Meter => guard_meter(table, number, kind, key, value),
        Profile::Shared => guard_shared(table, party, number, kind, key, value),
    }
}
