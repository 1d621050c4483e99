// The merged prefix listing of overrides and a node of a table, both lent, by a party: each key once, in key order, the override's record where it is not
// hidden. A hit is a byte: the place of the record among those of the node that the party sees, or 128 and its place in the overrides. Over a shared table a
// party is listed its own keys alone, of the overrides too. There are at most 64 hits. They are gathered before the first goes to the caller's list, so that
// a call without room for them writes nothing. `list_over` takes any bytes, and `list_over_known` overrides and a table known to be good.
#![tactic(auto)]

ghost use Rattle.std.specs.Prelude.{◌≡◌, true, ◌+◌, ◌-◌, ◌≤◌, ◌<◌, length, take};
ghost use Rattle.std.proofs.Math.Option.{some};
ghost use Rattle.rules.specs.Given.{Gives, Tells};
ghost use Rattle.rules.specs.Table.{keys_rise};
ghost use Rattle.rules.specs.Party.{own, sees};
ghost use Rattle.rules.specs.Profile.{recs_formed, profile_obeys};
ghost use Rattle.rules.specs.Layout.{decode_node, decode, valid};
ghost use Rattle.rules.specs.Whole.{valid_whole};
ghost use Rattle.table.specs.Tests.{count_of, recs_in};
ghost use Rattle.table.specs.Fits.{LaidNode};
ghost use Rattle.table.specs.Places.{rec_at};
ghost use Rattle.own_rows.specs.Sight.{seen_node};
ghost use Rattle.overrides.specs.Overrides.{valid_node};
ghost use Rattle.prefix.specs.Run.{RunOf};
ghost use Rattle.over_list.specs.Merged.{places_as, list_on, list_over, lent_list_over};
ghost use Rattle.over_list.specs.Turns.{next_key, shown_once, turn_of, left_in, PassIn};
ghost use Rattle.over_list.specs.Told.{listed_over_told};

use overrides::{RefusedOver, Which};
use prefix::Stretch;
use rules::{Header, Party, Profile, Record, Refusal};
use std::cmp::Ordering;
use table::layout;

// The most hits: all records of the overrides and all of the node.
pub const PLACES: usize = 2 * Header::RECORDS;

// What a hit in the overrides has before its place.
pub const OVER: usize = 128;

// One turn of the merging: a byte, how many times it is listed (0 or 1), and how many records each side goes on.
#[derive(Clone, Copy)]
pub struct Turn {
    pub hit: usize,
    pub listed: usize,
    pub over: usize,
    pub node: usize,
}

// 1 where record `j` of a node's bytes is not hidden, else 0.
fn shown_once(node: &[u8], j: usize) -> usize
    requires { LaidNode node.now × (j < count_of node.now) }
    ensures { result ≡ shown_once (rec_at j node.now) }
{
    if prefix::is_shown(node, j) { 1 } else { 0 }
}

// How the next key of the overrides stands to the next of the node; a side that is at its end comes last.
fn next_key(
    overrides: &[u8],
    a: usize,
    a_end: usize,
    node: &[u8],
    b: usize,
    b_end: usize,
) -> Ordering
    requires { LaidNode overrides.now × LaidNode node.now × (a ≤ a_end) × (a_end ≤ count_of overrides.now)
        × (b ≤ b_end) × (b_end ≤ count_of node.now) }
    ensures { result ≡ next_key a a_end b b_end overrides.now node.now }
{
    if a == a_end {
        return Ordering::Greater;
    }
    if b == b_end {
        return Ordering::Less;
    }
    fields::compare(
        table::key_of(table::record_of(overrides, a)),
        table::key_of(table::record_of(node, b)),
    )
}

// One turn of the merging, of two sides that are not both at their ends. The node's places are told `base` less.
fn next_turn(
    overrides: &[u8],
    a: usize,
    a_end: usize,
    node: &[u8],
    base: usize,
    b: usize,
    b_end: usize,
) -> Turn
    requires { LaidNode overrides.now × LaidNode node.now × (a ≤ a_end) × (a_end ≤ count_of overrides.now)
        × (b ≤ b_end) × (b_end ≤ count_of node.now)
        × (a + b < a_end + b_end) × (base ≤ b) }
    ensures { result ≡ turn_of (next_key a a_end b b_end overrides.now node.now) a (b - base)
        (rec_at a overrides.now) (rec_at b node.now) }
{
    match next_key(overrides, a, a_end, node, b, b_end) {
        Ordering::Less => Turn {
            hit: OVER + a,
            listed: shown_once(overrides, a),
            over: 1,
            node: 0,
        },
        Ordering::Equal => {
            if prefix::is_shown(overrides, a) {
                return Turn {
                    hit: OVER + a,
                    listed: 1,
                    over: 1,
                    node: 1,
                };
            }
            Turn {
                hit: b - base,
                listed: shown_once(node, b),
                over: 1,
                node: 1,
            }
        }
        Ordering::Greater => Turn {
            hit: b - base,
            listed: shown_once(node, b),
            over: 0,
            node: 1,
        },
    }
}

// The hits of a run of the overrides' bytes and of one of a node's, the node's places `base` less, to the front of a list of 64 places, and how many they
// are. A byte that is not listed is written over by the next.
fn merge(
    overrides: &[u8],
    own: Stretch,
    node: &[u8],
    base: usize,
    shared: Stretch,
    out: &mut [u8],
) -> usize
    requires { LaidNode overrides.now × (keys_rise (recs_in overrides.now) ≡ true) × LaidNode node.now × (keys_rise (recs_in node.now) ≡ true)
        × (own.start ≤ own.end) × (own.end ≤ count_of overrides.now)
        × (base ≤ shared.start) × (shared.start ≤ shared.end) × (shared.end ≤ count_of node.now) × (length out.old ≡ 64) }
    ensures { (result ≡ length (left_in overrides.now own.start own.end node.now base shared.start shared.end))
        × (take result out.new ≡ left_in overrides.now own.start own.end node.now base shared.start shared.end) }
{
    let a_end = own.end;
    let b_end = shared.end;
    let mut a = own.start;
    let mut b = shared.start;
    let mut next = 0;
    // Two runs merged: a turn takes from one of them or from both, so neither place is a counter of turns.
    while a + b < a_end + b_end {
        let t = next_turn(overrides, a, a_end, node, base, b, b_end);
        out[next] = t.hit as u8;
        next += t.listed;
        a += t.over;
        b += t.node;
    }
    next
}

// The overrides' records whose keys begin with these bytes.
fn run_of(overrides: &[u8], keys: &[u8]) -> Stretch
    requires { LaidNode overrides.now × (keys_rise (recs_in overrides.now) ≡ true) }
    ensures { RunOf keys.now overrides.now result.start result.end }
{
    let start = prefix::run_start(overrides, keys);
    Stretch {
        start,
        end: prefix::run_end(overrides, keys, start),
    }
}

// Those whose keys are a party's own.
fn own_run(overrides: &[u8], party: Party) -> Stretch
    requires { LaidNode overrides.now × (keys_rise (recs_in overrides.now) ≡ true) }
    ensures { PassIn (own party) overrides.now result.start result.end }
{
    match party {
        Party::Metering => run_of(overrides, b"m/"),
        Party::Building => run_of(overrides, b"b/"),
        Party::Nobody => Stretch { start: 0, end: 0 },
    }
}

// Those whose keys a party may name, over a table of a profile.
fn seen_run(overrides: &[u8], profile: Profile, party: Party) -> Stretch
    requires { LaidNode overrides.now × (keys_rise (recs_in overrides.now) ≡ true) }
    ensures { PassIn (sees profile party) overrides.now result.start result.end }
{
    let n = fields::byte_at(overrides, layout::RECORD_COUNT);
    match profile {
        Profile::Free => Stretch { start: 0, end: n },
        Profile::Meter => Stretch { start: 0, end: n },
        Profile::Shared => own_run(overrides, party),
    }
}

// The hits of the overrides' bytes and of a node's that a party may see, to the front of a list of 64 places, and how many they are.
fn merge_seen(
    overrides: &[u8],
    node: &[u8],
    profile: Profile,
    party: Party,
    prefix: &[u8],
    out: &mut [u8],
) -> usize
    requires { LaidNode overrides.now × (keys_rise (recs_in overrides.now) ≡ true) × LaidNode node.now × (keys_rise (recs_in node.now) ≡ true)
        × (recs_formed profile (recs_in node.now) ≡ true) × (length out.old ≡ 64) }
    ensures { (result ≡ length (places_as profile party prefix.now (recs_in overrides.now) (recs_in node.now)))
        × (take result out.new ≡ places_as profile party prefix.now (recs_in overrides.now) (recs_in node.now)) }
{
    let seen = seen_run(overrides, profile, party);
    let own = prefix::run_in(overrides, seen.start, seen.end - seen.start, prefix);
    let sight = own_rows::sight_of(node, profile, party);
    let shared = prefix::run_in(node, sight.low, sight.count, prefix);
    merge(overrides, own, node, sight.low, shared, out)
}

// The listing by a party of the overrides' bytes and of one node's: 1, 8.
fn in_nodes(
    overrides: &[u8],
    node: &[u8],
    profile: Profile,
    party: Party,
    prefix: &[u8],
    out: &mut [u8],
) -> Result<usize, RefusedOver>
    requires { LaidNode overrides.now × (keys_rise (recs_in overrides.now) ≡ true) × LaidNode node.now × (keys_rise (recs_in node.now) ≡ true)
        × (recs_formed profile (recs_in node.now) ≡ true) }
    ensures { Gives
        (list_on (sees profile party) prefix.now (decode_node overrides.now).node
        (some (seen_node profile party (decode_node node.now).node)) out.old)
        result out.new }
{
    if Record::KEY < prefix.len() {
        return Err(RefusedOver {
            which: Which::Neither,
            why: Refusal::TooLong,
        });
    }
    let mut found = [0u8; PLACES];
    let n = merge_seen(overrides, node, profile, party, prefix, &mut found);
    if out.len() < n {
        return Err(RefusedOver {
            which: Which::Neither,
            why: Refusal::NoPlace,
        });
    }
    fields::copy_to(out, 0, &found[..n]);
    Ok(n)
}

// The listing by a party in good overrides and the area of a good table of a profile: 2, 1, 8.
fn list_over_seen(
    overrides: &[u8],
    area: &[u8],
    profile: Profile,
    party: Party,
    number: u64,
    prefix: &[u8],
    out: &mut [u8],
) -> Result<usize, RefusedOver>
    requires { (valid_node overrides.now ≡ true) × (valid area.now ≡ true) × (profile_obeys profile (decode area.now) ≡ true) }
    ensures { Gives
        (list_over profile party number prefix.now out.old (decode_node overrides.now).node (decode area.now))
        result out.new }
{
    let span = table_read::node_span(area, number).ok_or(RefusedOver {
        which: Which::Neither,
        why: Refusal::NoNode,
    })?;
    in_nodes(
        overrides,
        &area[span.start..span.end],
        profile,
        party,
        prefix,
        out,
    )
}

// The listing by a party in good overrides and a good table: 2, 1, 8.
pub fn list_over_known(
    overrides: &[u8],
    table: &[u8],
    party: Party,
    number: u64,
    prefix: &[u8],
    out: &mut [u8],
) -> Result<usize, RefusedOver>
    requires { (valid_node overrides.now ≡ true) × (valid_whole table.now ≡ true) }
    ensures { Gives
        (lent_list_over party number prefix.now out.old overrides.now table.now)
        result out.new }
{
    let profile = profile_check::profile_of(table);
    list_over_seen(
        overrides,
        &table[..layout::AREA],
        profile,
        party,
        number,
        prefix,
        out,
    )
}

// The listing by a party in lent bytes: 14 of the overrides, 14 of the table, 2, 1, 8.
pub fn list_over(
    overrides: &[u8],
    table: &[u8],
    party: Party,
    number: u64,
    prefix: &[u8],
    out: &mut [u8],
) -> Result<usize, RefusedOver>
    ensures { Tells listed_over_told
        (lent_list_over party number prefix.now out.old overrides.now table.now)
        result out.new }
{
    if !overrides::check_overrides(overrides) {
        return Err(RefusedOver {
            which: Which::Overrides,
            why: Refusal::BadTable,
        });
    }
    if !table_check::check_table(table) {
        return Err(RefusedOver {
            which: Which::Table,
            why: Refusal::BadTable,
        });
    }
    list_over_known(overrides, table, party, number, prefix, out)
}
