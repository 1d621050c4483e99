// Which records of a node a party sees, as a piece of the node's rows. In a shared table `b/` sorts before `m/`, so the records of the building manager
// stand first and those of the metering firm behind them. Where they part is sought by halves, on the first byte of the keys. Other tables show all.
#![tactic(auto)]

ghost use Rattle.std.specs.Prelude.{◌≡◌, true, length};
ghost use Rattle.rules.specs.Table.{keys_rise};
ghost use Rattle.rules.specs.Party.{own, of_keys};
ghost use Rattle.rules.specs.Profile.{recs_formed};
ghost use Rattle.rules.specs.declared.Profile.TheVariants.{Shared};
ghost use Rattle.rules.specs.declared.Party.TheVariants.{Building};
ghost use Rattle.table.specs.Tests.{recs_in};
ghost use Rattle.table.specs.Fits.{LaidNode};
ghost use Rattle.own_rows.specs.Sight.{shared_sight, sight_in};

use rules::{Party, Profile};
use table::layout;

// The first byte of the building manager's keys, `b`.
const BUILDING: usize = 98;

// The piece: how many records of the node stand before it, and how many it has.
#[derive(Clone, Copy)]
pub struct Sight {
    pub low: usize,
    pub count: usize,
}

// How many records the building manager has in a node of a shared table.
fn building_count(node: &[u8]) -> usize
    requires { LaidNode node.now × (keys_rise (recs_in node.now) ≡ true) × (recs_formed Shared (recs_in node.now) ≡ true) }
    ensures { result ≡ length (of_keys (own Building) (recs_in node.now)) }
{
    let mut low = 0;
    let mut high = fields::byte_at(node, layout::RECORD_COUNT);
    // Nothing is counted here: the piece from `low` to `high` is halved.
    while low < high {
        let j = (low + high) / 2;
        let first = fields::byte_at(node, table::record_place(j) + layout::KEY);
        if first == BUILDING {
            low = j + 1;
        } else {
            high = j;
        }
    }
    low
}

// How many records of a node of a shared table stand before those of a party.
fn shared_low(node: &[u8], party: Party) -> usize
    requires { LaidNode node.now × (keys_rise (recs_in node.now) ≡ true) × (recs_formed Shared (recs_in node.now) ≡ true) }
    ensures { result ≡ (shared_sight party (recs_in node.now)).low }
{
    match party {
        Party::Metering => building_count(node),
        Party::Building | Party::Nobody => 0,
    }
}

// What a party sees of a node of a shared table.
fn shared_sight(node: &[u8], party: Party) -> Sight
    requires { LaidNode node.now × (keys_rise (recs_in node.now) ≡ true) × (recs_formed Shared (recs_in node.now) ≡ true) }
    ensures { result ≡ shared_sight party (recs_in node.now) }
{
    let first = building_count(node);
    let n = fields::byte_at(node, layout::RECORD_COUNT);
    match party {
        Party::Metering => Sight {
            low: first,
            count: n - first,
        },
        Party::Building => Sight {
            low: 0,
            count: first,
        },
        Party::Nobody => Sight { low: 0, count: 0 },
    }
}

// What a party sees of a node's records, in a table of this profile.
pub fn sight_of(node: &[u8], profile: Profile, party: Party) -> Sight
    requires { LaidNode node.now × (keys_rise (recs_in node.now) ≡ true) × (recs_formed profile (recs_in node.now) ≡ true) }
    ensures { result ≡ sight_in profile party (recs_in node.now) }
{
    match profile {
        Profile::Free | Profile::Meter => Sight {
            low: 0,
            count: fields::byte_at(node, layout::RECORD_COUNT),
        },
        Profile::Shared => shared_sight(node, party),
    }
}

// How many records of a node stand before those that a party sees, in a table of this profile.
pub fn low_of(node: &[u8], profile: Profile, party: Party) -> usize
    requires { LaidNode node.now × (keys_rise (recs_in node.now) ≡ true) × (recs_formed profile (recs_in node.now) ≡ true) }
    ensures { result ≡ (sight_in profile party (recs_in node.now)).low }
{
    match profile {
        Profile::Free | Profile::Meter => 0,
        Profile::Shared => shared_low(node, party),
    }
}
