// A record's key or value as those very bytes of the lent table, the record being named by its place among those that a party sees. `find_text` tells where
// it stands or why the call is refused, and `text_at` hands it out. Both take any bytes; `find_text_known` and `text_known` do the same on a table known to be
// good, without the check. A place past the end is refused with 8. What is told are the places of a table with the party's own records alone: the bytes stand
// further back by the front (`inspect::front`), and `text_at` hands out those.
#![tactic(auto)]

ghost use Rattle.std.specs.Prelude.{◌≡◌, true, ◌≤◌, length};
ghost use Rattle.std.proofs.Math.Option.{some};
ghost use Rattle.rules.specs.Given.{Says};
ghost use Rattle.rules.specs.Table.{keys_rise};
ghost use Rattle.rules.specs.Profile.{recs_formed, profile_obeys};
ghost use Rattle.rules.specs.Layout.{table_width, decode_node, decode, valid};
ghost use Rattle.rules.specs.Whole.{area_of, decode_whole, valid_whole};
ghost use Rattle.table.specs.Tests.{recs_in};
ghost use Rattle.table.specs.Fits.{LaidNode};
ghost use Rattle.own_rows.specs.Sight.{seen_held};
ghost use Rattle.lookup.specs.Lookup.{Within, Hands, part_of, moved_by};
ghost use Rattle.lookup.specs.Told.{found_told};
ghost use Rattle.inspect_text.specs.Texts.{text_on, text_found_as, lent_text_found, text_part, lent_text_part};

use lookup::Found;
use rules::{Party, Profile, Refusal};
use table::layout;

// One of a record's two texts.
#[derive(Clone, Copy)]
pub enum Text {
    Key,
    Value,
}

// Where the text of record `j` of those that a party sees stands, in a node's bytes, which begin at `start` in the table: 8.
fn in_node(
    node: &[u8],
    start: usize,
    profile: Profile,
    party: Party,
    j: usize,
    text: Text,
) -> Result<Option<Found>, Refusal>
    requires { LaidNode node.now × (keys_rise (recs_in node.now) ≡ true) × (recs_formed profile (recs_in node.now) ≡ true) × (start ≤ table_width) }
    ensures { result ≡ text_on text j start (seen_held profile party (some (decode_node node.now).node)) }
{
    let sight = own_rows::sight_of(node, profile, party);
    if sight.count <= j {
        return Err(Refusal::NoPlace);
    }
    let r = table_read::read_record(table::record_of(node, sight.low + j));
    let record = start + table::record_place(j);
    match text {
        Text::Key => Ok(Some(Found {
            start: record + layout::KEY,
            len: r.keylen,
        })),
        Text::Value => Ok(Some(Found {
            start: record + layout::VALUE,
            len: r.valuelen,
        })),
    }
}

// Where the text of record `j` of those that a party sees of a node stands, in the area of a good table of this profile: 2, 8.
fn find_text_as(
    area: &[u8],
    profile: Profile,
    party: Party,
    number: u64,
    j: usize,
    text: Text,
) -> Result<Option<Found>, Refusal>
    requires { (valid area.now ≡ true) × (profile_obeys profile (decode area.now) ≡ true) }
    ensures { result ≡ text_found_as profile party text number j (decode area.now) }
{
    let span = table_read::node_span(area, number).ok_or(Refusal::NoNode)?;
    in_node(
        &area[span.start..span.end],
        span.start,
        profile,
        party,
        j,
        text,
    )
}

// Where the text of record `j` of those that a party sees of a node stands, in a good table: 2, 8.
pub fn find_text_known(
    table: &[u8],
    party: Party,
    number: u64,
    j: usize,
    text: Text,
) -> Result<Option<Found>, Refusal>
    requires { valid_whole table.now ≡ true }
    ensures { result ≡ text_found_as (decode_whole table.now).kind.profile party text number j (decode (area_of table.now)) }
{
    let profile = profile_check::profile_of(table);
    find_text_as(&table[..layout::AREA], profile, party, number, j, text)
}

// Where the text of record `j` of those that a party sees of a node stands, in lent bytes: 14, 2, 8.
pub fn find_text(
    table: &[u8],
    party: Party,
    number: u64,
    j: usize,
    text: Text,
) -> Result<Option<Found>, Refusal>
    ensures { Says found_told (lent_text_found party text number j table.now) result }
{
    if !table_check::check_table(table) {
        return Err(Refusal::BadTable);
    }
    find_text_known(table, party, number, j, text)
}

// The part of the slice `front` bytes behind what was told, and where nothing was, the empty part at its front.
fn held_behind(table: &[u8], told: Result<Option<Found>, Refusal>, front: usize) -> &[u8]
    requires { Within (length table.now) (moved_by front told) }
    ensures { Hands (part_of table.now (moved_by front told)) table.entry.ref_ptr result.now result.ref_ptr }
{
    match told {
        Ok(Some(Found { start, len })) => lookup::held(
            table,
            Ok(Some(Found {
                start: start + front,
                len,
            })),
        ),
        Ok(None) => &table[..0],
        Err(_) => &table[..0],
    }
}

// The text of record `j` of those that a party sees of a node, as those very bytes of a good table; where the call is refused, the empty part at the table's
// front.
pub fn text_known(table: &[u8], party: Party, number: u64, j: usize, text: Text) -> &[u8]
    requires { valid_whole table.now ≡ true }
    ensures { Hands (text_part (decode_whole table.now).kind.profile party text number j (decode (area_of table.now)))
        table.entry.ref_ptr result.now result.ref_ptr }
{
    held_behind(
        table,
        find_text_known(table, party, number, j, text),
        inspect::front_known(table, party, number).unwrap_or(0),
    )
}

// The text of record `j` of those that a party sees of a node, as those very bytes of the lent table; where the call is refused, the empty part at the table's
// front. `find_text` tells an empty text from a refusal.
pub fn text_at(table: &[u8], party: Party, number: u64, j: usize, text: Text) -> &[u8]
    ensures { Hands (lent_text_part party text number j table.now) table.entry.ref_ptr result.now result.ref_ptr }
{
    if !table_check::check_table(table) {
        return &table[..0];
    }
    text_known(table, party, number, j, text)
}
