// The library that a hub links: every call as a C function, for a caller in C or Rust. A slice is a pointer and a length, an answer a number or a struct by
// value (crate `answers`). These take any bytes, and each promises what the call of its name promises, in the number and the values of its answer. The
// functions of `good` are the same calls on a table that `kev_check` accepts, without the check. The header is include/kevdarosh.h.
#![tactic(auto)]

ghost use Rattle.std.specs.Prelude.{◌≡◌};
ghost use Rattle.rules.specs.Answers.{party_of, answer_told, offered_told, remembered_told, listed_told, written_told, computed_told, read_told, applied_told};
ghost use Rattle.rules.specs.Given.{Gives};
ghost use Rattle.rules.specs.Node.{Deleting, DeletingAfterTtl, beats};
ghost use Rattle.rules.specs.Delta.{delta_read};
ghost use Rattle.rules.specs.Listing.{list_delta};
ghost use Rattle.rules.specs.Lent.{lent_add, lent_remove_node, lent_removed, lent_call, lent_write, lent_gc, lent_offer, lent_beat};
ghost use Rattle.rules.specs.Lent.{lent_prefixed, lent_digest, lent_compute, both, lent_apply};
ghost use Rattle.leaving.specs.Leaving.{lent_leaving};
ghost use Rattle.lookup.specs.Lookup.{lent_find};
ghost use Rattle.lookup.specs.Told.{found_told};
ghost use Rattle.inspect.specs.Look.{lent_node_count, lent_node_number, lent_node_header};
ghost use Rattle.inspect.specs.Look.{lent_record_count, lent_read_record, lent_record_of, lent_record_by_key};
ghost use Rattle.inspect.specs.Look.{lent_node_rows, lent_front};
ghost use Rattle.inspect.specs.Told.{count_told, node_number_told, node_header_told, record_read_told, rows_told};
ghost use Rattle.prefix.specs.Rows.{lent_prefix_rows};
ghost use Rattle.inspect_text.specs.Texts.{lent_text_found};
ghost use Rattle.inspect_text.specs.declared.Text.TheVariants.{Key, Value};
ghost use Rattle.digest_read.specs.Held.{digest_in};
ghost use Rattle.digest_read.specs.Told.{digest_told};
ghost use Rattle.exchange.specs.Exchanging.{all_four, exchanged_told, lending, lent_exchange};
ghost use Rattle.answers.specs.Shown.{shown_as, number_shown, count_shown, node_shown, heartbeat_shown, found_shown, header_shown, record_shown, rows_shown};
ghost use Rattle.answers.specs.Shown.{digest_shown, entry_told, entry_shown, computed_shown, judged_shown, delta_shown, applied_shown, exchanged_shown};
ghost use Rattle.answers.specs.Shown.{made_shown};
ghost use Rattle.plan.specs.Faults.{judged_told, lent_judge};
ghost use Rattle.plan.specs.Plan.{lent_compute_plan};
ghost use Rattle.listing_make.specs.Make.{lent_make, made_told};
ghost use Rattle.table_listing.specs.TableListing.{list_table};
ghost use Rattle.delta_names.specs.Names.{delta_nodes};
ghost use Rattle.overrides.specs.Overrides.{lent_new_overrides, lent_write_override, lent_call_override, lent_remove_overrides};
ghost use Rattle.over_find.specs.Over.{lent_find_over};
ghost use Rattle.over_find.specs.Told.{found_over_told};
ghost use Rattle.over_list.specs.Merged.{lent_list_over};
ghost use Rattle.over_list.specs.Told.{listed_over_told};
ghost use Rattle.answers.specs.Shown.{found_over_shown, listed_over_shown};
ghost use Rattle.library.specs.Numbers.{check_number, overrides_number, made_by};

use answers::{
    KevApplied, KevComputed, KevCount, KevDelta, KevDigest, KevEntry, KevExchanged, KevFound,
    KevFoundOver, KevHeader, KevHeartbeat, KevJudged, KevListedOver, KevMade, KevNode, KevRecord,
    KevRows,
};
use inspect_text::Text;
use rules::{Heartbeat, Mode, Party, Profile, Refusal};

pub mod good;
pub mod watch;

// ---- the check

// 0 where the bytes are a table that obeys the rules, else 14.
#[unsafe(no_mangle)]
pub extern "C" fn kev_check(table: &[u8]) -> u64
    ensures { result ≡ check_number table.now }
{
    if table_check::check_table(table) {
        return 0;
    }
    Refusal::BadTable.number()
}

// The slice becomes an empty table in the mode and the profile of these numbers: 14 where one is the number of none, or the slice is not as long as a table.
#[unsafe(no_mangle)]
pub extern "C" fn kev_new_table(table: &mut [u8], mode: usize, profile: usize) -> u64
    ensures { Gives (shown_as answer_told number_shown (made_by mode profile table.old)) result table.new }
{
    let chosen = Mode::of_byte(mode);
    let form = Profile::of_byte(profile);
    if chosen.byte() != mode {
        return Refusal::BadTable.number();
    }
    if form.byte() != profile {
        return Refusal::BadTable.number();
    }
    answers::number(nodes::new_table(table, chosen, form))
}

// ---- the table and its nodes

// A fresh node with this number; one held already stays: 14, 4.
#[unsafe(no_mangle)]
pub extern "C" fn kev_add_node(table: &mut [u8], number: u64) -> u64
    ensures { Gives (shown_as answer_told number_shown (lent_add number table.old)) result table.new }
{
    answers::number(nodes::add_node(table, number))
}

// The node with this number goes: 14, 2.
#[unsafe(no_mangle)]
pub extern "C" fn kev_remove_node(table: &mut [u8], number: u64) -> u64
    ensures { Gives (shown_as answer_told number_shown (lent_remove_node number table.old)) result table.new }
{
    answers::number(nodes::remove_node(table, number))
}

// The last heartbeat of a node that was removed, where it is remembered: 14.
#[unsafe(no_mangle)]
pub extern "C" fn kev_last_heartbeat(table: &[u8], number: u64) -> KevHeartbeat
    ensures { result ≡ heartbeat_shown (remembered_told (lent_removed number table.now)) }
{
    answers::heartbeat(nodes::last_heartbeat(table, number))
}

// ---- local calls

// The key's record takes this value under the wanted status, 0 Set or 2 TTL: 14, 10, 2, 1, 17, 19, 18, 5, 6.
#[unsafe(no_mangle)]
pub extern "C" fn kev_write(
    table: &mut [u8],
    party: u64,
    number: u64,
    key: &[u8],
    value: &[u8],
    wanted: u64,
    clock: u64,
) -> u64
    ensures { Gives
        (shown_as answer_told number_shown (lent_write (party_of party) wanted value.now clock number key.now table.old))
        result table.new }
{
    answers::number(local::write(
        table,
        Party::of_number(party),
        number,
        key,
        value,
        local::wanted(wanted),
        clock,
    ))
}

// The key's record is emptied, hidden and scheduled: 14, 2, 1, 19, 3, 6.
#[unsafe(no_mangle)]
pub extern "C" fn kev_delete(
    table: &mut [u8],
    party: u64,
    number: u64,
    key: &[u8],
    clock: u64,
) -> u64
    ensures { Gives (shown_as answer_told number_shown (lent_call (party_of party) (Deleting clock) number key.now table.old))
        result table.new }
{
    answers::number(local::delete(table, Party::of_number(party), number, key, clock))
}

// The key's record keeps its value and is scheduled: 14, 2, 1, 19, 3, 6.
#[unsafe(no_mangle)]
pub extern "C" fn kev_delete_after_ttl(
    table: &mut [u8],
    party: u64,
    number: u64,
    key: &[u8],
    clock: u64,
) -> u64
    ensures { Gives (shown_as answer_told number_shown (lent_call (party_of party) (DeletingAfterTtl clock) number key.now table.old))
        result table.new }
{
    answers::number(local::delete_after_ttl(table, Party::of_number(party), number, key, clock))
}

// The scheduled records whose grace is over go, of all nodes: 14.
#[unsafe(no_mangle)]
pub extern "C" fn kev_remove_scheduled(table: &mut [u8], clock: u64, grace: u64) -> u64
    ensures { Gives (shown_as answer_told number_shown (lent_gc clock grace table.old)) result table.new }
{
    answers::number(removal::remove_scheduled(table, clock, grace))
}

// A heartbeat that was heard of; the count is 1 where it was news: 14, 2.
#[unsafe(no_mangle)]
pub extern "C" fn kev_offer_heartbeat(table: &mut [u8], number: u64, heartbeat: u64) -> KevCount
    ensures { Gives (shown_as offered_told count_shown (lent_offer number (beats heartbeat) table.old)) result table.new }
{
    answers::news(heartbeat::offer_heartbeat(table, number, Heartbeat(heartbeat)))
}

// The node's own heartbeat rises by one: 14, 2, 6.
#[unsafe(no_mangle)]
pub extern "C" fn kev_local_beat(table: &mut [u8], number: u64) -> u64
    ensures { Gives (shown_as answer_told number_shown (lent_beat number table.old)) result table.new }
{
    answers::number(heartbeat::local_beat(table, number))
}

// ---- readings

// Where the value of the key stands in the table: 14, 2, 1, 19.
#[unsafe(no_mangle)]
pub extern "C" fn kev_find(table: &[u8], party: u64, number: u64, key: &[u8]) -> KevFound
    ensures { result ≡ found_shown (found_told (lent_find (party_of party) number key.now table.now)) }
{
    answers::found(lookup::find(table, Party::of_number(party), number, key))
}

// The places of the node's records whose keys begin with the prefix, a byte each; the count is how many: 14, 2, 1, 8.
#[unsafe(no_mangle)]
pub extern "C" fn kev_list_prefix(
    table: &[u8],
    party: u64,
    number: u64,
    prefix: &[u8],
    out: &mut [u8],
) -> KevCount
    ensures { Gives (shown_as listed_told count_shown (lent_prefixed (party_of party) number prefix.now out.old table.now))
        result out.new }
{
    answers::hits(prefix::list_prefix(table, Party::of_number(party), number, prefix, out))
}

// ---- overrides

// 0 where the bytes are overrides that obey the rules, else 14.
#[unsafe(no_mangle)]
pub extern "C" fn kev_check_overrides(overrides: &[u8]) -> u64
    ensures { result ≡ overrides_number overrides.now }
{
    if overrides::check_overrides(overrides) {
        return 0;
    }
    Refusal::BadTable.number()
}

// The slice becomes overrides without a record, under this number: 14 where it is not as long as a node.
#[unsafe(no_mangle)]
pub extern "C" fn kev_new_overrides(overrides: &mut [u8], number: u64) -> u64
    ensures { Gives (shown_as answer_told number_shown (lent_new_overrides number overrides.old)) result overrides.new }
{
    answers::number(overrides::new_overrides(overrides, number))
}

// The key's override takes this value under the wanted status, 0 Set or 2 TTL: 14, 10, 1, 5, 6.
#[unsafe(no_mangle)]
pub extern "C" fn kev_write_override(
    overrides: &mut [u8],
    key: &[u8],
    value: &[u8],
    wanted: u64,
    clock: u64,
) -> u64
    ensures { Gives (shown_as answer_told number_shown (lent_write_override wanted value.now clock key.now overrides.old))
        result overrides.new }
{
    answers::number(overrides::write_override(overrides, key, value, local::wanted(wanted), clock))
}

// The key's override is emptied, hidden and scheduled: 14, 1, 3, 6.
#[unsafe(no_mangle)]
pub extern "C" fn kev_delete_override(overrides: &mut [u8], key: &[u8], clock: u64) -> u64
    ensures { Gives (shown_as answer_told number_shown (lent_call_override (Deleting clock) key.now overrides.old))
        result overrides.new }
{
    answers::number(overrides::delete_override(overrides, key, clock))
}

// The key's override keeps its value and is scheduled: 14, 1, 3, 6.
#[unsafe(no_mangle)]
pub extern "C" fn kev_delete_override_after_ttl(overrides: &mut [u8], key: &[u8], clock: u64) -> u64
    ensures { Gives (shown_as answer_told number_shown (lent_call_override (DeletingAfterTtl clock) key.now overrides.old))
        result overrides.new }
{
    answers::number(overrides::delete_override_after_ttl(overrides, key, clock))
}

// The scheduled overrides whose grace is over go: 14.
#[unsafe(no_mangle)]
pub extern "C" fn kev_remove_overrides(overrides: &mut [u8], clock: u64, grace: u64) -> u64
    ensures { Gives (shown_as answer_told number_shown (lent_remove_overrides clock grace overrides.old)) result overrides.new }
{
    answers::number(overrides::remove_overrides(overrides, clock, grace))
}

// Where the value of the key stands, in the overrides or in the table: 14 of the overrides, 14 of the table, 2, 1, 19.
#[unsafe(no_mangle)]
pub extern "C" fn kev_find_over(
    overrides: &[u8],
    table: &[u8],
    party: u64,
    number: u64,
    key: &[u8],
) -> KevFoundOver
    ensures { result ≡ found_over_shown (found_over_told
        (lent_find_over (party_of party) number key.now overrides.now table.now)) }
{
    answers::found_over(over_find::find_over(
        overrides,
        table,
        Party::of_number(party),
        number,
        key,
    ))
}

// The merged listing of the overrides and the node, a byte for each hit; the count is how many: 14 of the overrides, 14 of the table, 2, 1, 8.
#[unsafe(no_mangle)]
pub extern "C" fn kev_list_over(
    overrides: &[u8],
    table: &[u8],
    party: u64,
    number: u64,
    prefix: &[u8],
    out: &mut [u8],
) -> KevListedOver
    ensures { Gives
        (shown_as listed_over_told listed_over_shown
        (lent_list_over (party_of party) number prefix.now out.old overrides.now table.now))
        result out.new }
{
    answers::hits_over(over_list::list_over(
        overrides,
        table,
        Party::of_number(party),
        number,
        prefix,
        out,
    ))
}

// ---- readings of nodes and records

// How many nodes the table holds: 14.
#[unsafe(no_mangle)]
pub extern "C" fn kev_node_count(table: &[u8]) -> KevCount
    ensures { result ≡ count_shown (count_told (lent_node_count table.now)) }
{
    answers::count(inspect::node_count(table))
}

// The number of the node in place `i`: 14, 8.
#[unsafe(no_mangle)]
pub extern "C" fn kev_node_number(table: &[u8], i: usize) -> KevNode
    ensures { result ≡ node_shown (node_number_told (lent_node_number i table.now)) }
{
    answers::node(inspect::node_number(table, i))
}

// Heartbeat, max and last_gc of a node: 14, 2.
#[unsafe(no_mangle)]
pub extern "C" fn kev_node_header(table: &[u8], number: u64) -> KevHeader
    ensures { result ≡ header_shown (node_header_told (lent_node_header number table.now)) }
{
    answers::header(inspect::node_header(table, number))
}

// How many records a node has, tombstones counted: 14, 2.
#[unsafe(no_mangle)]
pub extern "C" fn kev_record_count(table: &[u8], party: u64, number: u64) -> KevCount
    ensures { result ≡ count_shown (count_told (lent_record_count (party_of party) number table.now)) }
{
    answers::count(inspect::record_count(table, Party::of_number(party), number))
}

// The record in place `j` of a node: 14, 2, 8.
#[unsafe(no_mangle)]
pub extern "C" fn kev_record_at(table: &[u8], party: u64, number: u64, j: usize) -> KevRecord
    ensures { result ≡ record_shown (record_read_told (lent_read_record (party_of party) number j table.now)) }
{
    answers::record(inspect::record_at(table, Party::of_number(party), number, j))
}

// The record in place `j` of the node in place `i`: 14, 8.
#[unsafe(no_mangle)]
pub extern "C" fn kev_record_of(table: &[u8], party: u64, i: usize, j: usize) -> KevRecord
    ensures { result ≡ record_shown (record_read_told (lent_record_of (party_of party) i j table.now)) }
{
    answers::record(inspect::record_of(table, Party::of_number(party), i, j))
}

// The record of a key, hidden or not: 14, 2, 1, 19.
#[unsafe(no_mangle)]
pub extern "C" fn kev_record_by_key(table: &[u8], party: u64, number: u64, key: &[u8]) -> KevRecord
    ensures { result ≡ record_shown (record_read_told (lent_record_by_key (party_of party) number key.now table.now)) }
{
    answers::record(inspect::record_by_key(table, Party::of_number(party), number, key))
}

// All records of a node in one piece, tombstones too: 14, 2.
#[unsafe(no_mangle)]
pub extern "C" fn kev_node_rows(table: &[u8], party: u64, number: u64) -> KevRows
    ensures { result ≡ rows_shown (rows_told (lent_node_rows (party_of party) number table.now)) }
{
    answers::rows(inspect::node_rows(table, Party::of_number(party), number))
}

// The front from which the places are counted that a party is told of a node, in bytes behind the table's: 14, 2.
#[unsafe(no_mangle)]
pub extern "C" fn kev_front(table: &[u8], party: u64, number: u64) -> KevCount
    ensures { result ≡ count_shown (count_told (lent_front (party_of party) number table.now)) }
{
    answers::count(inspect::front(table, Party::of_number(party), number))
}

// The rows of those whose keys begin with the prefix: 14, 2, 1.
#[unsafe(no_mangle)]
pub extern "C" fn kev_prefix_rows(table: &[u8], party: u64, number: u64, prefix: &[u8]) -> KevRows
    ensures { result ≡ rows_shown (rows_told (lent_prefix_rows (party_of party) number prefix.now table.now)) }
{
    answers::rows(prefix::prefix_rows(table, Party::of_number(party), number, prefix))
}

// Where the key of the record in place `j` of a node stands in the table: 14, 2, 8.
#[unsafe(no_mangle)]
pub extern "C" fn kev_key_at(table: &[u8], party: u64, number: u64, j: usize) -> KevFound
    ensures { result ≡ found_shown (found_told (lent_text_found (party_of party) Key number j table.now)) }
{
    answers::found(inspect_text::find_text(table, Party::of_number(party), number, j, Text::Key))
}

// The same of its value, hidden or not: 14, 2, 8.
#[unsafe(no_mangle)]
pub extern "C" fn kev_value_at(table: &[u8], party: u64, number: u64, j: usize) -> KevFound
    ensures { result ≡ found_shown (found_told (lent_text_found (party_of party) Value number j table.now)) }
{
    answers::found(inspect_text::find_text(table, Party::of_number(party), number, j, Text::Value))
}

// ---- digests and deltas

// The table's digest without the excluded nodes, into the datagram from the place on; the count is its bytes: 14, 20, 8.
#[unsafe(no_mangle)]
pub extern "C" fn kev_write_digest(
    table: &[u8],
    edition: u64,
    excluded: &[u64],
    datagram: &mut [u8],
    place: usize,
) -> KevCount
    ensures { Gives (shown_as written_told count_shown (lent_digest edition excluded.now place datagram.old table.now))
        result datagram.new }
{
    answers::bytes(digest_write::write_digest(table, edition, excluded, datagram, place))
}

// The delta for a digest, into the datagram from the place on: 14, 20, 7, 8, 15, 9, 13.
#[unsafe(no_mangle)]
pub extern "C" fn kev_compute(
    table: &[u8],
    edition: u64,
    digest: &[u8],
    mtu: usize,
    excluded: &[u64],
    ties: &[u64],
    datagram: &mut [u8],
    place: usize,
) -> KevComputed
    ensures { Gives
        (shown_as computed_told computed_shown
        (lent_compute edition excluded.now ties.now mtu place digest.now datagram.old table.now))
        result datagram.new }
{
    answers::computed(compute::compute(
        table, edition, digest, mtu, excluded, ties, datagram, place,
    ))
}

// The delta of a plan, its nodes in their order with so many stale records each, into the datagram from the place on: 14, 20, 7, 8, 9, 13, 23.
#[unsafe(no_mangle)]
pub extern "C" fn kev_compute_plan(
    table: &[u8],
    edition: u64,
    digest: &[u8],
    mtu: usize,
    excluded: &[u64],
    nodes: &[u64],
    counts: &[u64],
    datagram: &mut [u8],
    place: usize,
) -> KevComputed
    ensures { Gives
        (shown_as computed_told computed_shown
        (lent_compute_plan edition excluded.now nodes.now counts.now mtu place digest.now
        datagram.old table.now))
        result datagram.new }
{
    answers::computed(compute_plan::compute_plan(
        table, edition, digest, mtu, excluded, nodes, counts, datagram, place,
    ))
}

// The first line of a plan that is at fault, and why: 14, 20, 7, 9, 13, 23.
#[unsafe(no_mangle)]
pub extern "C" fn kev_plan_fault(
    table: &[u8],
    edition: u64,
    digest: &[u8],
    mtu: usize,
    excluded: &[u64],
    nodes: &[u64],
    counts: &[u64],
) -> KevJudged
    ensures { result ≡ judged_shown (judged_told
        (lent_judge edition excluded.now nodes.now counts.now mtu digest.now table.now)) }
{
    answers::judged(compute_plan::plan_fault(table, edition, digest, mtu, excluded, nodes, counts))
}

// A delta taken into the table, an answer for each node delta: 14, 13, 9, 1, 10, 11, 12, 17, 8.
#[unsafe(no_mangle)]
pub extern "C" fn kev_apply(
    table: &mut [u8],
    delta: &[u8],
    clock: u64,
    answers: &mut [u8],
) -> KevApplied
    ensures { Gives (shown_as applied_told applied_shown (lent_apply delta.now clock answers.old table.old))
        result (both table.new answers.new) }
{
    answers::applied(apply::apply(table, delta, clock, answers))
}

// The same, but for the nodes of `own`: such a node answers Reject and stays as it is, whatever the bytes say. The same numbers.
#[unsafe(no_mangle)]
pub extern "C" fn kev_apply_leaving(
    table: &mut [u8],
    own: &[u64],
    delta: &[u8],
    clock: u64,
    answers: &mut [u8],
) -> KevApplied
    ensures { Gives (shown_as applied_told applied_shown
        (lent_leaving own.now delta.now clock answers.old table.old))
        result (both table.new answers.new) }
{
    answers::applied(apply::apply_leaving(table, own, delta, clock, answers))
}

// How many nodes a digest tells of, and where the bytes behind it begin: 20, 9, 13.
#[unsafe(no_mangle)]
pub extern "C" fn kev_read_digest(edition: u64, digest: &[u8]) -> KevDigest
    ensures { result ≡ digest_shown (digest_told (digest_in edition digest.now)) }
{
    answers::digest(digest_read::read_digest(edition, digest))
}

// What a digest tells of the node in place `i`, in the order of their numbers: 20, 9, 13, 8.
#[unsafe(no_mangle)]
pub extern "C" fn kev_digest_entry(edition: u64, digest: &[u8], i: usize) -> KevEntry
    ensures { result ≡ entry_shown (entry_told i (digest_in edition digest.now)) }
{
    answers::entry(digest_read::read_digest(edition, digest), i)
}

// The verdict on a delta: 13, 9, 1, 10, 11, 12.
#[unsafe(no_mangle)]
pub extern "C" fn kev_read_delta(delta: &[u8]) -> KevDelta
    ensures { result ≡ delta_shown (read_told (delta_read delta.now)) }
{
    answers::delta(delta_read::read_delta(delta))
}

// The listing of a delta, refused ones too, at the front of the buffer; the count is its bytes: 8.
#[unsafe(no_mangle)]
pub extern "C" fn kev_list_delta(delta: &[u8], out: &mut [u8]) -> KevCount
    ensures { Gives (shown_as written_told count_shown (list_delta delta.now out.old)) result out.new }
{
    answers::bytes(listing::list_delta(delta, out))
}

// The delta that a listing tells, at the front of the buffer: 16, 13, 11, 12, 8.
#[unsafe(no_mangle)]
pub extern "C" fn kev_make_delta(text: &[u8], out: &mut [u8]) -> KevMade
    ensures { Gives (shown_as made_told made_shown (lent_make text.now out.old)) result out.new }
{
    answers::made(listing_make::make_delta(text, out))
}

// The listing of a table, bad ones too, at the front of the buffer; the count is its bytes: 8.
#[unsafe(no_mangle)]
pub extern "C" fn kev_list_table(table: &[u8], out: &mut [u8]) -> KevCount
    ensures { Gives (shown_as written_told count_shown (list_table table.now out.old)) result out.new }
{
    answers::bytes(table_show::list_table(table, out))
}

// The numbers of the nodes that a delta names, in stream order, at the front of the list: 13, 9, 1, 10, 11, 12, 8.
#[unsafe(no_mangle)]
pub extern "C" fn kev_delta_nodes(delta: &[u8], list: &mut [u64]) -> KevApplied
    ensures { Gives (shown_as applied_told applied_shown (delta_nodes delta.now list.old)) result list.new }
{
    answers::applied(delta_names::delta_nodes(delta, list))
}

// One exchange of two tables: the follower's digest, the publisher's delta for it, the delta applied: 14, 20, 8, 7, 15.
#[unsafe(no_mangle)]
pub extern "C" fn kev_exchange(
    publisher: &[u8],
    follower: &mut [u8],
    edition: u64,
    mtu: usize,
    unasked: &[u64],
    unsent: &[u64],
    ties: &[u64],
    clock: u64,
    digest: &mut [u8],
    delta: &mut [u8],
    answers: &mut [u8],
) -> KevExchanged
    ensures { Gives
        (shown_as exchanged_told exchanged_shown
        (lent_exchange
        (lending edition unasked.now unsent.now ties.now mtu clock
        digest.old delta.old answers.old)
        publisher.now follower.old))
        result (all_four follower.new digest.new delta.new answers.new) }
{
    answers::exchanged(exchange::exchange(
        publisher, follower, edition, mtu, unasked, unsent, ties, clock, digest, delta, answers,
    ))
}
