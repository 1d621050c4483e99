// Whose a key is in a shared table: the metering firm's keys begin `m/`, the building manager's `b/`. In other tables every key is everyone's.
#![tactic(auto)]

ghost use Rattle.std.specs.Prelude.{◌≡◌};
ghost use Rattle.rules.specs.Party.{own, someones, sees};

use rules::{Party, Profile};

// Whether the key is the party's own.
pub fn owns(party: Party, key: &[u8]) -> bool
    ensures { result ≡ own party key.now }
{
    match party {
        Party::Metering => fields::starts_with(b"m/", key),
        Party::Building => fields::starts_with(b"b/", key),
        Party::Nobody => false,
    }
}

// Whether it is of one of the two.
pub fn is_someones(key: &[u8]) -> bool
    ensures { result ≡ someones key.now }
{
    if owns(Party::Metering, key) {
        return true;
    }
    owns(Party::Building, key)
}

// Whether the party may name the key, in a table of this profile.
pub fn may_name(profile: Profile, party: Party, key: &[u8]) -> bool
    ensures { result ≡ sees profile party key.now }
{
    match profile {
        Profile::Free => true,
        Profile::Meter => true,
        Profile::Shared => owns(party, key),
    }
}
