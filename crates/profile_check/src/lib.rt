// The profile of a table, and whether its records obey it: a part of the check behind number 14. Of a free table no record is looked at.
#![tactic(auto)]

ghost use Rattle.std.specs.Prelude.{◌≡◌, ◌≤◌, length};
ghost use Rattle.rules.specs.Sizes.{max_key, max_value};
ghost use Rattle.rules.specs.Party.{roomy_each};
ghost use Rattle.rules.specs.Profile.{in_form, recs_fit, recs_formed, recs_obey, profile_obeys, table_formed};
ghost use Rattle.rules.specs.Layout.{rec_width, decode_rec, decode};
ghost use Rattle.rules.specs.Whole.{area_of, decode_whole, whole_width};
ghost use Rattle.rules.specs.declared.Profile.TheVariants.{Meter};
ghost use Rattle.table.specs.Tests.{key_length, value_length, recs_in};
ghost use Rattle.table.specs.Fits.{LaidNode, LaidTable};

use rules::{Party, Profile};
use table::layout;

// Whether a record is in the form of the meter profile.
fn meter_formed(record: &[u8]) -> bool
    requires { (length «record».now ≡ rec_width) × (key_length «record».now ≤ max_key) × (value_length «record».now ≤ max_value) }
    ensures { result ≡ in_form Meter (decode_rec «record».now).kv }
{
    let held = table_read::read_record(record);
    let status = held.status;
    meter_form::is_formed(table::key_of(record), table::value_of(record), status)
}

// Whether it is in the form of a profile.
fn record_formed(profile: Profile, record: &[u8]) -> bool
    requires { (length «record».now ≡ rec_width) × (key_length «record».now ≤ max_key) × (value_length «record».now ≤ max_value) }
    ensures { result ≡ in_form profile (decode_rec «record».now).kv }
{
    match profile {
        Profile::Free => true,
        Profile::Meter => meter_formed(record),
        Profile::Shared => party_form::is_someones(table::key_of(record)),
    }
}

// Whether the records of a node are.
fn node_formed(profile: Profile, node: &[u8]) -> bool
    requires { LaidNode node.now }
    ensures { result ≡ recs_formed profile (recs_in node.now) }
{
    let n = fields::byte_at(node, layout::RECORD_COUNT);
    for i in 0..n {
        if !record_formed(profile, table::record_of(node, i)) {
            return false;
        }
    }
    true
}

// Whether neither party has over 16 of them.
fn each_fits(node: &[u8]) -> bool
    requires { LaidNode node.now }
    ensures { result ≡ roomy_each (recs_in node.now) }
{
    if Party::RECORDS < party_count::count_own(node, Party::Metering) {
        return false;
    }
    party_count::count_own(node, Party::Building) <= Party::RECORDS
}

// Whether they are as many as a profile allows, beside document 01's 32.
pub fn node_fits(profile: Profile, node: &[u8]) -> bool
    requires { LaidNode node.now }
    ensures { result ≡ recs_fit profile (recs_in node.now) }
{
    match profile {
        Profile::Free => true,
        Profile::Meter => true,
        Profile::Shared => each_fits(node),
    }
}

// Whether they obey a profile.
fn node_obeys(profile: Profile, node: &[u8]) -> bool
    requires { LaidNode node.now }
    ensures { result ≡ recs_obey profile (recs_in node.now) }
{
    if node_fits(profile, node) {
        return node_formed(profile, node);
    }
    false
}

// Whether all records of a table are in the form of a profile, however many they are.
pub fn check_forms(profile: Profile, area: &[u8]) -> bool
    requires { LaidTable area.now }
    ensures { result ≡ table_formed profile (decode area.now) }
{
    let n = fields::byte_at(area, layout::NODE_COUNT);
    for i in 0..n {
        if !node_formed(profile, table::node_of(area, i)) {
            return false;
        }
    }
    true
}

// Whether all nodes of a table obey it.
fn check_nodes(profile: Profile, area: &[u8]) -> bool
    requires { LaidTable area.now }
    ensures { result ≡ profile_obeys profile (decode area.now) }
{
    let n = fields::byte_at(area, layout::NODE_COUNT);
    for i in 0..n {
        if !node_obeys(profile, table::node_of(area, i)) {
            return false;
        }
    }
    true
}

// The profile that stands in a table's bytes.
pub fn profile_of(table: &[u8]) -> Profile
    requires { length table.now ≡ whole_width }
    ensures { result ≡ (decode_whole table.now).kind.profile }
{
    Profile::of_byte(fields::byte_at(table, layout::AREA + layout::PROFILE))
}

// Whether the records of a table obey its own profile.
pub fn check_profile(table: &[u8]) -> bool
    requires { (length table.now ≡ whole_width) × LaidTable (area_of table.now) }
    ensures { result ≡ profile_obeys (decode_whole table.now).kind.profile (decode (area_of table.now)) }
{
    match profile_of(table) {
        Profile::Free => true,
        Profile::Meter => check_nodes(Profile::Meter, &table[..layout::AREA]),
        Profile::Shared => check_nodes(Profile::Shared, &table[..layout::AREA]),
    }
}
