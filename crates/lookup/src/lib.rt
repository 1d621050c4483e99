// Looking a value up in a lent table, by a party. `find` tells where it stands, or that there is none, or why the call is refused; `lookup` hands out the
// value as those very bytes of the caller's slice. Both take any bytes. `find_known` and `lookup_known` do the same on a table known to be good, without the
// check. A party that may not name the key is refused with 19, behind 2 and 1. What is told are the places of a table with the party's own records alone:
// the bytes stand further back by the front (`inspect::front`), and `lookup` hands out those. `find_good` is the lookup without a party, in the area of a good
// table, and `in_node` in one node's bytes.
#![tactic(auto)]

ghost use Rattle.std.specs.Prelude.{◌≡◌, true, ◌≤◌, ◌<◌, ◌-◌, length};
ghost use Rattle.std.proofs.Math.Option.{some};
ghost use Rattle.fields.specs.Parts.{part};
ghost use Rattle.rules.specs.Given.{Says};
ghost use Rattle.rules.specs.Table.{keys_rise};
ghost use Rattle.rules.specs.Profile.{recs_formed, profile_obeys};
ghost use Rattle.rules.specs.Layout.{rec_place, rec_width, table_width, decode_rec, decode_node, decode, valid};
ghost use Rattle.rules.specs.Whole.{area_of, decode_whole, valid_whole};
ghost use Rattle.table.specs.Tests.{count_of, recs_in};
ghost use Rattle.table.specs.Fits.{LaidNode};
ghost use Rattle.lookup.specs.Lookup.{found_rec, find_on, found_in, find_on_as, find_as, lent_find, Within, Hands, part_of, value_part, lent_value_part};
ghost use Rattle.lookup.specs.Told.{found_told};

use rules::{Party, Profile, Record, Refusal, Status};
use table::layout;
use table_read::Place;

// Where a value stands in a lent table: the `len` bytes from `start` on. An empty value is found too.
#[derive(Clone, Copy)]
pub struct Found {
    pub start: usize,
    pub len: usize,
}

// The value of record `j` in a node's bytes, which begin at `start` in the table. Its place is told less the `low` records before it that are not seen.
fn in_record(node: &[u8], start: usize, low: usize, j: usize) -> Result<Option<Found>, Refusal>
    requires { LaidNode node.now × (start ≤ table_width) × (low ≤ j) × (j < count_of node.now) }
    ensures { result ≡ found_rec start (j - low) (decode_rec (part (rec_place j) rec_width node.now)) }
{
    let r = table_read::read_record(table::record_of(node, j));
    let value = start + table::record_place(j - low) + layout::VALUE;
    match r.status {
        Status::Delete => Ok(None),
        Status::Set | Status::Ttl => Ok(Some(Found {
            start: value,
            len: r.valuelen,
        })),
    }
}

// The value of the key in a node's bytes, which begin at `start` in the table: 1.
pub fn in_node(node: &[u8], start: usize, key: &[u8]) -> Result<Option<Found>, Refusal>
    requires { LaidNode node.now × (keys_rise (recs_in node.now) ≡ true) × (start ≤ table_width) }
    ensures { result ≡ find_on key.now start (some (decode_node node.now).node) }
{
    if Record::KEY < key.len() {
        return Err(Refusal::TooLong);
    }
    match table_read::search_key(node, key) {
        Place::At(j) => in_record(node, start, 0, j),
        Place::Free(_) => Ok(None),
    }
}

// The value of the key in what a party sees of a node's bytes, which begin at `start` in the table: 1, 19.
fn in_sight(
    node: &[u8],
    start: usize,
    profile: Profile,
    party: Party,
    key: &[u8],
) -> Result<Option<Found>, Refusal>
    requires { LaidNode node.now × (keys_rise (recs_in node.now) ≡ true) × (recs_formed profile (recs_in node.now) ≡ true) × (start ≤ table_width) }
    ensures { result ≡ find_on_as profile party key.now start (some (decode_node node.now).node) }
{
    if Record::KEY < key.len() {
        return Err(Refusal::TooLong);
    }
    if !party_form::may_name(profile, party, key) {
        return Err(Refusal::OtherParty);
    }
    match table_read::search_key(node, key) {
        Place::At(j) => in_record(node, start, own_rows::low_of(node, profile, party), j),
        Place::Free(_) => Ok(None),
    }
}

// Where the value of the key stands in the area of a good table: 2, 1.
pub fn find_good(area: &[u8], number: u64, key: &[u8]) -> Result<Option<Found>, Refusal>
    requires { valid area.now ≡ true }
    ensures { result ≡ found_in number key.now (decode area.now) }
{
    let span = table_read::node_span(area, number).ok_or(Refusal::NoNode)?;
    in_node(&area[span.start..span.end], span.start, key)
}

// Where the value of the key stands in what a party sees of the area of a good table of this profile: 2, 1, 19.
fn find_as(
    area: &[u8],
    profile: Profile,
    party: Party,
    number: u64,
    key: &[u8],
) -> Result<Option<Found>, Refusal>
    requires { (valid area.now ≡ true) × (profile_obeys profile (decode area.now) ≡ true) }
    ensures { result ≡ find_as profile party number key.now (decode area.now) }
{
    let span = table_read::node_span(area, number).ok_or(Refusal::NoNode)?;
    in_sight(&area[span.start..span.end], span.start, profile, party, key)
}

// Where the value of the key stands in what a party sees of a good table: 2, 1, 19.
pub fn find_known(
    table: &[u8],
    party: Party,
    number: u64,
    key: &[u8],
) -> Result<Option<Found>, Refusal>
    requires { valid_whole table.now ≡ true }
    ensures { result ≡ find_as (decode_whole table.now).kind.profile party number key.now (decode (area_of table.now)) }
{
    let profile = profile_check::profile_of(table);
    find_as(&table[..layout::AREA], profile, party, number, key)
}

// Where the value of the key stands in what a party sees of lent bytes: 14, 2, 1, 19.
pub fn find(table: &[u8], party: Party, number: u64, key: &[u8]) -> Result<Option<Found>, Refusal>
    ensures { Says found_told (lent_find party number key.now table.now) result }
{
    if !table_check::check_table(table) {
        return Err(Refusal::BadTable);
    }
    find_known(table, party, number, key)
}

// The part of the slice that was found, and where nothing was, the empty part at its front.
pub fn held(table: &[u8], found: Result<Option<Found>, Refusal>) -> &[u8]
    requires { Within (length table.now) found }
    ensures { Hands (part_of table.now found) table.entry.ref_ptr result.now result.ref_ptr }
{
    match found {
        Ok(Some(Found { start, len })) => &table[start..start + len],
        Ok(None) => &table[..0],
        Err(_) => &table[..0],
    }
}

// The value of the key as those very bytes of a good table; where a party finds none, the empty part at the table's front.
pub fn lookup_known<'a>(table: &'a [u8], party: Party, number: u64, key: &[u8]) -> &'a [u8]
    requires { valid_whole table.now ≡ true }
    ensures { Hands (value_part (decode_whole table.now).kind.profile party number key.now (decode (area_of table.now)))
        table.entry.ref_ptr result.now result.ref_ptr }
{
    if !party_form::may_name(profile_check::profile_of(table), party, key) {
        return &table[..0];
    }
    held(table, find_good(&table[..layout::AREA], number, key))
}

// The value of the key as those very bytes of the lent table; where a party finds none or the call is refused, the empty part at the table's front. `find`
// tells these apart.
pub fn lookup<'a>(table: &'a [u8], party: Party, number: u64, key: &[u8]) -> &'a [u8]
    ensures { Hands (lent_value_part party number key.now table.now) table.entry.ref_ptr result.now result.ref_ptr }
{
    if !table_check::check_table(table) {
        return &table[..0];
    }
    lookup_known(table, party, number, key)
}
