// Small readings of a lent table: which nodes are held, a node's header, its records one by one. Each takes any bytes and answers a refusal where there
// is nothing to read; the one that ends in `_good` or `_known` does the same on a table known to be good, without the check. A place past the end is refused
// with 8. Records are read by a party, in what it sees of the table: counts and places are those of a table with its own records alone. So many bytes further
// back as `front` tells they stand in the lent table. The keys and values themselves are handed out by the crate `inspect_text`.
#![tactic(auto)]

ghost use Rattle.std.specs.Prelude.{◌≡◌, true, ◌≤◌, ◌<◌, ◌-◌};
ghost use Rattle.std.proofs.Math.Option.{some};
ghost use Rattle.fields.specs.Parts.{part};
ghost use Rattle.rules.specs.Given.{Says};
ghost use Rattle.rules.specs.Table.{keys_rise};
ghost use Rattle.rules.specs.Profile.{recs_formed, profile_obeys};
ghost use Rattle.rules.specs.Layout.{rec_place, rec_width, table_width, decode_rec, decode_node, decode, valid};
ghost use Rattle.rules.specs.Whole.{area_of, decode_whole, valid_whole};
ghost use Rattle.table.specs.Tests.{count_of, recs_in};
ghost use Rattle.table.specs.Fits.{LaidNode};
ghost use Rattle.own_rows.specs.Sight.{seen_held};
ghost use Rattle.inspect.specs.Look.{node_count, node_number, node_header, records_on, read_rec, record_on, record_by_key_on_as, rows_on, front_told};
ghost use Rattle.inspect.specs.Look.{record_count_as, read_record_as, record_of_as, record_by_key_as, node_rows_as, front_as};
ghost use Rattle.inspect.specs.Look.{lent_node_count, lent_node_number, lent_node_header, lent_record_count, lent_node_rows, lent_front};
ghost use Rattle.inspect.specs.Look.{lent_read_record, lent_record_of, lent_record_by_key};
ghost use Rattle.inspect.specs.Told.{count_told, node_number_told, node_header_told, record_read_told, rows_told};

use rules::{Header, Party, Profile, Record, Refusal};
use table::layout;
use table_read::Place;

// A record of a lent table: its key is the bytes from `key` on, its value those from `value` on.
#[derive(Clone, Copy)]
pub struct RecordRead {
    pub key: usize,
    pub value: usize,
    pub record: Record,
}

// Where rows of a node stand in the bytes of a lent table, one behind the other, and how many.
#[derive(Clone, Copy)]
pub struct Rows {
    pub at: usize,
    pub count: usize,
}

// How many nodes a good table holds.
pub fn node_count_good(table: &[u8]) -> Result<usize, Refusal>
    requires { valid table.now ≡ true }
    ensures { result ≡ node_count (decode table.now) }
{
    Ok(fields::byte_at(table, layout::NODE_COUNT))
}

// How many nodes are held: 14.
pub fn node_count(table: &[u8]) -> Result<usize, Refusal>
    ensures { Says count_told (lent_node_count table.now) result }
{
    if !table_check::check_table(table) {
        return Err(Refusal::BadTable);
    }
    node_count_good(&table[..layout::AREA])
}

// The number of the node in place `i` of a good table: 8.
pub fn node_number_good(table: &[u8], i: usize) -> Result<u64, Refusal>
    requires { valid table.now ≡ true }
    ensures { result ≡ node_number i (decode table.now) }
{
    let n = fields::byte_at(table, layout::NODE_COUNT);
    if n <= i {
        return Err(Refusal::NoPlace);
    }
    Ok(fields::read_u64(table, table::node_place(i)))
}

// The number of the node in place `i`: 14, 8.
pub fn node_number(table: &[u8], i: usize) -> Result<u64, Refusal>
    ensures { Says node_number_told (lent_node_number i table.now) result }
{
    if !table_check::check_table(table) {
        return Err(Refusal::BadTable);
    }
    node_number_good(&table[..layout::AREA], i)
}

// The header of a node of a good table: 2.
pub fn node_header_good(table: &[u8], number: u64) -> Result<Header, Refusal>
    requires { valid table.now ≡ true }
    ensures { result ≡ node_header number (decode table.now) }
{
    let span = table_read::node_span(table, number).ok_or(Refusal::NoNode)?;
    Ok(table_read::read_header(&table[span.start..span.end]))
}

// The header of a node: 14, 2.
pub fn node_header(table: &[u8], number: u64) -> Result<Header, Refusal>
    ensures { Says node_header_told (lent_node_header number table.now) result }
{
    if !table_check::check_table(table) {
        return Err(Refusal::BadTable);
    }
    node_header_good(&table[..layout::AREA], number)
}

// How many records of a node's bytes a party sees.
fn count_in(node: &[u8], profile: Profile, party: Party) -> Result<usize, Refusal>
    requires { LaidNode node.now × (keys_rise (recs_in node.now) ≡ true) × (recs_formed profile (recs_in node.now) ≡ true) }
    ensures { result ≡ records_on (seen_held profile party (some (decode_node node.now).node)) }
{
    Ok(own_rows::sight_of(node, profile, party).count)
}

// How many records a party sees of a node, tombstones counted, in the area of a good table of this profile: 2.
fn record_count_as(
    area: &[u8],
    profile: Profile,
    party: Party,
    number: u64,
) -> Result<usize, Refusal>
    requires { (valid area.now ≡ true) × (profile_obeys profile (decode area.now) ≡ true) }
    ensures { result ≡ record_count_as profile party number (decode area.now) }
{
    let span = table_read::node_span(area, number).ok_or(Refusal::NoNode)?;
    count_in(&area[span.start..span.end], profile, party)
}

// How many records a party sees of a node, tombstones counted, in a good table: 2.
pub fn record_count_known(table: &[u8], party: Party, number: u64) -> Result<usize, Refusal>
    requires { valid_whole table.now ≡ true }
    ensures { result ≡ record_count_as (decode_whole table.now).kind.profile party number (decode (area_of table.now)) }
{
    let profile = profile_check::profile_of(table);
    record_count_as(&table[..layout::AREA], profile, party, number)
}

// How many records a party sees of a node, tombstones counted: 14, 2.
pub fn record_count(table: &[u8], party: Party, number: u64) -> Result<usize, Refusal>
    ensures { Says count_told (lent_record_count party number table.now) result }
{
    if !table_check::check_table(table) {
        return Err(Refusal::BadTable);
    }
    record_count_known(table, party, number)
}

// How many bytes stand before the records that a party sees of a node's bytes, and are not told to it.
fn front_in(node: &[u8], profile: Profile, party: Party) -> Result<usize, Refusal>
    requires { LaidNode node.now × (keys_rise (recs_in node.now) ≡ true) × (recs_formed profile (recs_in node.now) ≡ true) }
    ensures { result ≡ front_told profile party (some (decode_node node.now).node) }
{
    Ok(fields::times(own_rows::sight_of(node, profile, party).low, layout::RECORD))
}

// How many bytes further back than is told stand the records that a party sees of a node, in the area of a good table of this profile: 2.
fn front_as(area: &[u8], profile: Profile, party: Party, number: u64) -> Result<usize, Refusal>
    requires { (valid area.now ≡ true) × (profile_obeys profile (decode area.now) ≡ true) }
    ensures { result ≡ front_as profile party number (decode area.now) }
{
    let span = table_read::node_span(area, number).ok_or(Refusal::NoNode)?;
    front_in(&area[span.start..span.end], profile, party)
}

// How many bytes further back than is told stand the records that a party sees of a node, in a good table: 2.
pub fn front_known(table: &[u8], party: Party, number: u64) -> Result<usize, Refusal>
    requires { valid_whole table.now ≡ true }
    ensures { result ≡ front_as (decode_whole table.now).kind.profile party number (decode (area_of table.now)) }
{
    let profile = profile_check::profile_of(table);
    front_as(&table[..layout::AREA], profile, party, number)
}

// How many bytes further back than is told stand the records that a party sees of a node: 14, 2.
pub fn front(table: &[u8], party: Party, number: u64) -> Result<usize, Refusal>
    ensures { Says count_told (lent_front party number table.now) result }
{
    if !table_check::check_table(table) {
        return Err(Refusal::BadTable);
    }
    front_known(table, party, number)
}

// The records of a node's bytes that a party sees, in one piece; they begin at `start` in the table.
fn rows_in(node: &[u8], start: usize, profile: Profile, party: Party) -> Result<Rows, Refusal>
    requires { LaidNode node.now × (keys_rise (recs_in node.now) ≡ true) × (recs_formed profile (recs_in node.now) ≡ true) × (start ≤ table_width) }
    ensures { result ≡ rows_on start (seen_held profile party (some (decode_node node.now).node)) }
{
    Ok(Rows {
        at: start + layout::RECORDS,
        count: own_rows::sight_of(node, profile, party).count,
    })
}

// The records that a party sees of a node, in one piece, tombstones too, in the area of a good table of this profile: 2.
fn node_rows_as(area: &[u8], profile: Profile, party: Party, number: u64) -> Result<Rows, Refusal>
    requires { (valid area.now ≡ true) × (profile_obeys profile (decode area.now) ≡ true) }
    ensures { result ≡ node_rows_as profile party number (decode area.now) }
{
    let span = table_read::node_span(area, number).ok_or(Refusal::NoNode)?;
    rows_in(&area[span.start..span.end], span.start, profile, party)
}

// The records that a party sees of a node, in one piece, tombstones too, in a good table: 2.
pub fn node_rows_known(table: &[u8], party: Party, number: u64) -> Result<Rows, Refusal>
    requires { valid_whole table.now ≡ true }
    ensures { result ≡ node_rows_as (decode_whole table.now).kind.profile party number (decode (area_of table.now)) }
{
    let profile = profile_check::profile_of(table);
    node_rows_as(&table[..layout::AREA], profile, party, number)
}

// The records that a party sees of a node, in one piece, tombstones too: 14, 2.
pub fn node_rows(table: &[u8], party: Party, number: u64) -> Result<Rows, Refusal>
    ensures { Says rows_told (lent_node_rows party number table.now) result }
{
    if !table_check::check_table(table) {
        return Err(Refusal::BadTable);
    }
    node_rows_known(table, party, number)
}

// Record `j` of a node's bytes, which begin at `start` in the table. Its places are told less the `low` records before it that are not seen.
fn placed(node: &[u8], start: usize, low: usize, j: usize) -> Result<Option<RecordRead>, Refusal>
    requires { LaidNode node.now × (start ≤ table_width) × (low ≤ j) × (j < count_of node.now) }
    ensures { result ≡ read_rec start (j - low) (decode_rec (part (rec_place j) rec_width node.now)) }
{
    let r = table_read::read_record(table::record_of(node, j));
    let at = start + table::record_place(j - low);
    Ok(Some(RecordRead {
        key: at + layout::KEY,
        value: at + layout::VALUE,
        record: r,
    }))
}

// The record in place `j` of those that a party sees of a node's bytes, which begin at `start` in the table: 8.
fn record_in(
    node: &[u8],
    start: usize,
    profile: Profile,
    party: Party,
    j: usize,
) -> Result<Option<RecordRead>, Refusal>
    requires { LaidNode node.now × (keys_rise (recs_in node.now) ≡ true) × (recs_formed profile (recs_in node.now) ≡ true) × (start ≤ table_width) }
    ensures { result ≡ record_on j start (seen_held profile party (some (decode_node node.now).node)) }
{
    let sight = own_rows::sight_of(node, profile, party);
    if sight.count <= j {
        return Err(Refusal::NoPlace);
    }
    placed(node, start, sight.low, sight.low + j)
}

// The record in place `j` of those that a party sees of a node, in the area of a good table of this profile: 2, 8.
fn record_at_as(
    area: &[u8],
    profile: Profile,
    party: Party,
    number: u64,
    j: usize,
) -> Result<Option<RecordRead>, Refusal>
    requires { (valid area.now ≡ true) × (profile_obeys profile (decode area.now) ≡ true) }
    ensures { result ≡ read_record_as profile party number j (decode area.now) }
{
    let span = table_read::node_span(area, number).ok_or(Refusal::NoNode)?;
    record_in(&area[span.start..span.end], span.start, profile, party, j)
}

// The record in place `j` of those that a party sees of a node, in a good table: 2, 8.
pub fn record_at_known(
    table: &[u8],
    party: Party,
    number: u64,
    j: usize,
) -> Result<Option<RecordRead>, Refusal>
    requires { valid_whole table.now ≡ true }
    ensures { result ≡ read_record_as (decode_whole table.now).kind.profile party number j (decode (area_of table.now)) }
{
    let profile = profile_check::profile_of(table);
    record_at_as(&table[..layout::AREA], profile, party, number, j)
}

// The record in place `j` of those that a party sees of a node: 14, 2, 8.
pub fn record_at(
    table: &[u8],
    party: Party,
    number: u64,
    j: usize,
) -> Result<Option<RecordRead>, Refusal>
    ensures { Says record_read_told (lent_read_record party number j table.now) result }
{
    if !table_check::check_table(table) {
        return Err(Refusal::BadTable);
    }
    record_at_known(table, party, number, j)
}

// The record in place `j` of those that a party sees of the node in place `i`, in the area of a good table of this profile: 8.
fn record_of_as(
    area: &[u8],
    profile: Profile,
    party: Party,
    i: usize,
    j: usize,
) -> Result<Option<RecordRead>, Refusal>
    requires { (valid area.now ≡ true) × (profile_obeys profile (decode area.now) ≡ true) }
    ensures { result ≡ record_of_as profile party i j (decode area.now) }
{
    let nodes = fields::byte_at(area, layout::NODE_COUNT);
    if nodes <= i {
        return Err(Refusal::NoPlace);
    }
    record_in(
        table::node_of(area, i),
        table::node_place(i),
        profile,
        party,
        j,
    )
}

// The record in place `j` of those that a party sees of the node in place `i`, in a good table: 8.
pub fn record_of_known(
    table: &[u8],
    party: Party,
    i: usize,
    j: usize,
) -> Result<Option<RecordRead>, Refusal>
    requires { valid_whole table.now ≡ true }
    ensures { result ≡ record_of_as (decode_whole table.now).kind.profile party i j (decode (area_of table.now)) }
{
    let profile = profile_check::profile_of(table);
    record_of_as(&table[..layout::AREA], profile, party, i, j)
}

// The record in place `j` of those that a party sees of the node in place `i`: 14, 8.
pub fn record_of(
    table: &[u8],
    party: Party,
    i: usize,
    j: usize,
) -> Result<Option<RecordRead>, Refusal>
    ensures { Says record_read_told (lent_record_of party i j table.now) result }
{
    if !table_check::check_table(table) {
        return Err(Refusal::BadTable);
    }
    record_of_known(table, party, i, j)
}

// The record of a key in what a party sees of a node's bytes, which begin at `start` in the table: 1, 19.
fn record_keyed(
    node: &[u8],
    start: usize,
    profile: Profile,
    party: Party,
    key: &[u8],
) -> Result<Option<RecordRead>, Refusal>
    requires { LaidNode node.now × (keys_rise (recs_in node.now) ≡ true) × (recs_formed profile (recs_in node.now) ≡ true) × (start ≤ table_width) }
    ensures { result ≡ record_by_key_on_as profile party key.now start (some (decode_node node.now).node) }
{
    if Record::KEY < key.len() {
        return Err(Refusal::TooLong);
    }
    if !party_form::may_name(profile, party, key) {
        return Err(Refusal::OtherParty);
    }
    match table_read::search_key(node, key) {
        Place::At(j) => placed(node, start, own_rows::sight_of(node, profile, party).low, j),
        Place::Free(_) => Ok(None),
    }
}

// The record of a key in what a party sees of a node, hidden or not, in the area of a good table of this profile: 2, 1, 19.
fn record_by_key_as(
    area: &[u8],
    profile: Profile,
    party: Party,
    number: u64,
    key: &[u8],
) -> Result<Option<RecordRead>, Refusal>
    requires { (valid area.now ≡ true) × (profile_obeys profile (decode area.now) ≡ true) }
    ensures { result ≡ record_by_key_as profile party number key.now (decode area.now) }
{
    let span = table_read::node_span(area, number).ok_or(Refusal::NoNode)?;
    record_keyed(&area[span.start..span.end], span.start, profile, party, key)
}

// The record of a key in what a party sees of a node, hidden or not, in a good table: 2, 1, 19.
pub fn record_by_key_known(
    table: &[u8],
    party: Party,
    number: u64,
    key: &[u8],
) -> Result<Option<RecordRead>, Refusal>
    requires { valid_whole table.now ≡ true }
    ensures { result ≡ record_by_key_as (decode_whole table.now).kind.profile party number key.now
        (decode (area_of table.now)) }
{
    let profile = profile_check::profile_of(table);
    record_by_key_as(&table[..layout::AREA], profile, party, number, key)
}

// The record of a key in what a party sees of a node, hidden or not: 14, 2, 1, 19.
pub fn record_by_key(
    table: &[u8],
    party: Party,
    number: u64,
    key: &[u8],
) -> Result<Option<RecordRead>, Refusal>
    ensures { Says record_read_told (lent_record_by_key party number key.now table.now) result }
{
    if !table_check::check_table(table) {
        return Err(Refusal::BadTable);
    }
    record_by_key_known(table, party, number, key)
}
