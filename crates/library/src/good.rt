// The same calls on a table that `kev_check` accepts, without the check. Every call keeps the rules, so a table that was made by `kev_new_table` or accepted
// once, and that nothing but these calls changed since, is such a table. Nobody checks a foreign caller: what is promised for other bytes is nothing.
ghost use Rattle.std.specs.Prelude.{true, ◌≡◌};
ghost use Rattle.rules.specs.Answers.{party_of, answer_told, offered_told, remembered_told, listed_told, written_told, computed_told, applied_told};
ghost use Rattle.rules.specs.Given.{Gives};
ghost use Rattle.rules.specs.Node.{Deleting, DeletingAfterTtl, beats};
ghost use Rattle.rules.specs.Whole.{valid_whole};
ghost use Rattle.rules.specs.Lent.{lent_add, lent_remove_node, lent_removed, lent_call, lent_write, lent_gc, lent_offer, lent_beat};
ghost use Rattle.rules.specs.Lent.{lent_prefixed, lent_digest, lent_compute, both, lent_apply};
ghost use Rattle.leaving.specs.Leaving.{lent_leaving};
ghost use Rattle.lookup.specs.Lookup.{lent_find};
ghost use Rattle.lookup.specs.Told.{found_told};
ghost use Rattle.inspect.specs.Look.{lent_node_count, lent_node_number, lent_node_header};
ghost use Rattle.inspect.specs.Look.{lent_record_count, lent_read_record, lent_record_of, lent_record_by_key};
ghost use Rattle.inspect.specs.Look.{lent_node_rows, lent_front};
ghost use Rattle.inspect.specs.Told.{count_told, node_number_told, node_header_told, record_read_told, rows_told};
ghost use Rattle.prefix.specs.Rows.{lent_prefix_rows};
ghost use Rattle.inspect_text.specs.Texts.{lent_text_found};
ghost use Rattle.inspect_text.specs.declared.Text.TheVariants.{Key, Value};
ghost use Rattle.answers.specs.Shown.{shown_as, number_shown, count_shown, node_shown, heartbeat_shown, found_shown, header_shown, record_shown, rows_shown};
ghost use Rattle.plan.specs.Faults.{judged_told, lent_judge};
ghost use Rattle.plan.specs.Plan.{lent_compute_plan};
ghost use Rattle.answers.specs.Shown.{computed_shown, judged_shown, applied_shown, found_over_shown, listed_over_shown};
ghost use Rattle.overrides.specs.Overrides.{valid_node};
ghost use Rattle.over_find.specs.Over.{lent_find_over};
ghost use Rattle.over_find.specs.Told.{found_over_told};
ghost use Rattle.over_list.specs.Merged.{lent_list_over};
ghost use Rattle.over_list.specs.Told.{listed_over_told};

use answers::{
    KevApplied, KevComputed, KevCount, KevFound, KevFoundOver, KevHeader, KevHeartbeat, KevJudged,
    KevListedOver, KevNode, KevRecord, KevRows,
};
use inspect_text::Text;
use rules::{Heartbeat, Party};
use table::layout;

// ---- the table and its nodes

// A fresh node with this number; one held already stays: 4.
#[unsafe(no_mangle)]
pub extern "C" fn kev_good_add_node(table: &mut [u8], number: u64) -> u64
    requires { valid_whole table.old ≡ true }
    ensures { Gives (shown_as answer_told number_shown (lent_add number table.old)) result table.new }
{
    answers::number(nodes::add_known(table, number))
}

// The node with this number goes: 2.
#[unsafe(no_mangle)]
pub extern "C" fn kev_good_remove_node(table: &mut [u8], number: u64) -> u64
    requires { valid_whole table.old ≡ true }
    ensures { Gives (shown_as answer_told number_shown (lent_remove_node number table.old)) result table.new }
{
    answers::number(nodes::remove_known(table, number))
}

// The last heartbeat of a node that was removed, where it is remembered.
#[unsafe(no_mangle)]
pub extern "C" fn kev_good_last_heartbeat(table: &[u8], number: u64) -> KevHeartbeat
    requires { valid_whole table.now ≡ true }
    ensures { result ≡ heartbeat_shown (remembered_told (lent_removed number table.now)) }
{
    answers::heartbeat(nodes::last_heartbeat_known(table, number))
}

// ---- local calls

// The key's record takes this value under the wanted status, 0 Set or 2 TTL: 10, 2, 1, 17, 19, 18, 5, 6.
#[unsafe(no_mangle)]
pub extern "C" fn kev_good_write(
    table: &mut [u8],
    party: u64,
    number: u64,
    key: &[u8],
    value: &[u8],
    wanted: u64,
    clock: u64,
) -> u64
    requires { valid_whole table.old ≡ true }
    ensures { Gives
        (shown_as answer_told number_shown (lent_write (party_of party) wanted value.now clock number key.now table.old))
        result table.new }
{
    answers::number(local::write_known(
        table,
        Party::of_number(party),
        number,
        key,
        value,
        local::wanted(wanted),
        clock,
    ))
}

// The key's record is emptied, hidden and scheduled: 2, 1, 19, 3, 6.
#[unsafe(no_mangle)]
pub extern "C" fn kev_good_delete(
    table: &mut [u8],
    party: u64,
    number: u64,
    key: &[u8],
    clock: u64,
) -> u64
    requires { valid_whole table.old ≡ true }
    ensures { Gives (shown_as answer_told number_shown (lent_call (party_of party) (Deleting clock) number key.now table.old))
        result table.new }
{
    answers::number(local::delete_known(table, Party::of_number(party), number, key, clock))
}

// The key's record keeps its value and is scheduled: 2, 1, 19, 3, 6.
#[unsafe(no_mangle)]
pub extern "C" fn kev_good_delete_after_ttl(
    table: &mut [u8],
    party: u64,
    number: u64,
    key: &[u8],
    clock: u64,
) -> u64
    requires { valid_whole table.old ≡ true }
    ensures { Gives (shown_as answer_told number_shown (lent_call (party_of party) (DeletingAfterTtl clock) number key.now table.old))
        result table.new }
{
    answers::number(local::delete_after_ttl_known(
        table,
        Party::of_number(party),
        number,
        key,
        clock,
    ))
}

// The scheduled records whose grace is over go, of all nodes.
#[unsafe(no_mangle)]
pub extern "C" fn kev_good_remove_scheduled(table: &mut [u8], clock: u64, grace: u64) -> u64
    requires { valid_whole table.old ≡ true }
    ensures { Gives (shown_as answer_told number_shown (lent_gc clock grace table.old)) result table.new }
{
    removal::remove_good(&mut table[..layout::AREA], clock, grace);
    0
}

// A heartbeat that was heard of; the count is 1 where it was news: 2.
#[unsafe(no_mangle)]
pub extern "C" fn kev_good_offer_heartbeat(
    table: &mut [u8],
    number: u64,
    heartbeat: u64,
) -> KevCount
    requires { valid_whole table.old ≡ true }
    ensures { Gives (shown_as offered_told count_shown (lent_offer number (beats heartbeat) table.old)) result table.new }
{
    answers::news(heartbeat::offer_good(&mut table[..layout::AREA], number, Heartbeat(heartbeat)))
}

// The node's own heartbeat rises by one: 2, 6.
#[unsafe(no_mangle)]
pub extern "C" fn kev_good_local_beat(table: &mut [u8], number: u64) -> u64
    requires { valid_whole table.old ≡ true }
    ensures { Gives (shown_as answer_told number_shown (lent_beat number table.old)) result table.new }
{
    answers::number(heartbeat::beat_good(&mut table[..layout::AREA], number))
}

// ---- readings

// Where the value of the key stands in the table: 2, 1, 19.
#[unsafe(no_mangle)]
pub extern "C" fn kev_good_find(table: &[u8], party: u64, number: u64, key: &[u8]) -> KevFound
    requires { valid_whole table.now ≡ true }
    ensures { result ≡ found_shown (found_told (lent_find (party_of party) number key.now table.now)) }
{
    answers::found(lookup::find_known(table, Party::of_number(party), number, key))
}

// The places of the node's records whose keys begin with the prefix, a byte each; the count is how many: 2, 1, 8.
#[unsafe(no_mangle)]
pub extern "C" fn kev_good_list_prefix(
    table: &[u8],
    party: u64,
    number: u64,
    prefix: &[u8],
    out: &mut [u8],
) -> KevCount
    requires { valid_whole table.now ≡ true }
    ensures { Gives (shown_as listed_told count_shown (lent_prefixed (party_of party) number prefix.now out.old table.now))
        result out.new }
{
    answers::hits(prefix::list_known(table, Party::of_number(party), number, prefix, out))
}

// Where the value of the key stands, in overrides that `kev_check_overrides` accepts or in the table: 2, 1, 19.
#[unsafe(no_mangle)]
pub extern "C" fn kev_good_find_over(
    overrides: &[u8],
    table: &[u8],
    party: u64,
    number: u64,
    key: &[u8],
) -> KevFoundOver
    requires { (valid_node overrides.now ≡ true) × (valid_whole table.now ≡ true) }
    ensures { result ≡ found_over_shown (found_over_told
        (lent_find_over (party_of party) number key.now overrides.now table.now)) }
{
    answers::found_over(over_find::find_over_known(
        overrides,
        table,
        Party::of_number(party),
        number,
        key,
    ))
}

// The merged listing of such overrides and the node, a byte for each hit; the count is how many: 2, 1, 8.
#[unsafe(no_mangle)]
pub extern "C" fn kev_good_list_over(
    overrides: &[u8],
    table: &[u8],
    party: u64,
    number: u64,
    prefix: &[u8],
    out: &mut [u8],
) -> KevListedOver
    requires { (valid_node overrides.now ≡ true) × (valid_whole table.now ≡ true) }
    ensures { Gives
        (shown_as listed_over_told listed_over_shown
        (lent_list_over (party_of party) number prefix.now out.old overrides.now table.now))
        result out.new }
{
    answers::hits_over(over_list::list_over_known(
        overrides,
        table,
        Party::of_number(party),
        number,
        prefix,
        out,
    ))
}

// How many nodes the table holds.
#[unsafe(no_mangle)]
pub extern "C" fn kev_good_node_count(table: &[u8]) -> KevCount
    requires { valid_whole table.now ≡ true }
    ensures { result ≡ count_shown (count_told (lent_node_count table.now)) }
{
    answers::count(inspect::node_count_good(&table[..layout::AREA]))
}

// The number of the node in place `i`: 8.
#[unsafe(no_mangle)]
pub extern "C" fn kev_good_node_number(table: &[u8], i: usize) -> KevNode
    requires { valid_whole table.now ≡ true }
    ensures { result ≡ node_shown (node_number_told (lent_node_number i table.now)) }
{
    answers::node(inspect::node_number_good(&table[..layout::AREA], i))
}

// Heartbeat, max and last_gc of a node: 2.
#[unsafe(no_mangle)]
pub extern "C" fn kev_good_node_header(table: &[u8], number: u64) -> KevHeader
    requires { valid_whole table.now ≡ true }
    ensures { result ≡ header_shown (node_header_told (lent_node_header number table.now)) }
{
    answers::header(inspect::node_header_good(&table[..layout::AREA], number))
}

// How many records a node has, tombstones counted: 2.
#[unsafe(no_mangle)]
pub extern "C" fn kev_good_record_count(table: &[u8], party: u64, number: u64) -> KevCount
    requires { valid_whole table.now ≡ true }
    ensures { result ≡ count_shown (count_told (lent_record_count (party_of party) number table.now)) }
{
    answers::count(inspect::record_count_known(table, Party::of_number(party), number))
}

// The record in place `j` of a node: 2, 8.
#[unsafe(no_mangle)]
pub extern "C" fn kev_good_record_at(table: &[u8], party: u64, number: u64, j: usize) -> KevRecord
    requires { valid_whole table.now ≡ true }
    ensures { result ≡ record_shown (record_read_told (lent_read_record (party_of party) number j table.now)) }
{
    answers::record(inspect::record_at_known(table, Party::of_number(party), number, j))
}

// The record in place `j` of the node in place `i`: 8.
#[unsafe(no_mangle)]
pub extern "C" fn kev_good_record_of(table: &[u8], party: u64, i: usize, j: usize) -> KevRecord
    requires { valid_whole table.now ≡ true }
    ensures { result ≡ record_shown (record_read_told (lent_record_of (party_of party) i j table.now)) }
{
    answers::record(inspect::record_of_known(table, Party::of_number(party), i, j))
}

// The record of a key, hidden or not: 2, 1, 19.
#[unsafe(no_mangle)]
pub extern "C" fn kev_good_record_by_key(
    table: &[u8],
    party: u64,
    number: u64,
    key: &[u8],
) -> KevRecord
    requires { valid_whole table.now ≡ true }
    ensures { result ≡ record_shown (record_read_told (lent_record_by_key (party_of party) number key.now table.now)) }
{
    answers::record(inspect::record_by_key_known(table, Party::of_number(party), number, key))
}

// All records of a node in one piece, tombstones too: 2.
#[unsafe(no_mangle)]
pub extern "C" fn kev_good_node_rows(table: &[u8], party: u64, number: u64) -> KevRows
    requires { valid_whole table.now ≡ true }
    ensures { result ≡ rows_shown (rows_told (lent_node_rows (party_of party) number table.now)) }
{
    answers::rows(inspect::node_rows_known(table, Party::of_number(party), number))
}

// The front from which the places are counted that a party is told of a node, in bytes behind the table's: 2.
#[unsafe(no_mangle)]
pub extern "C" fn kev_good_front(table: &[u8], party: u64, number: u64) -> KevCount
    requires { valid_whole table.now ≡ true }
    ensures { result ≡ count_shown (count_told (lent_front (party_of party) number table.now)) }
{
    answers::count(inspect::front_known(table, Party::of_number(party), number))
}

// The rows of those whose keys begin with the prefix: 2, 1.
#[unsafe(no_mangle)]
pub extern "C" fn kev_good_prefix_rows(
    table: &[u8],
    party: u64,
    number: u64,
    prefix: &[u8],
) -> KevRows
    requires { valid_whole table.now ≡ true }
    ensures { result ≡ rows_shown (rows_told (lent_prefix_rows (party_of party) number prefix.now table.now)) }
{
    answers::rows(prefix::prefix_rows_known(table, Party::of_number(party), number, prefix))
}

// Where the key of the record in place `j` of a node stands in the table: 2, 8.
#[unsafe(no_mangle)]
pub extern "C" fn kev_good_key_at(table: &[u8], party: u64, number: u64, j: usize) -> KevFound
    requires { valid_whole table.now ≡ true }
    ensures { result ≡ found_shown (found_told (lent_text_found (party_of party) Key number j table.now)) }
{
    answers::found(inspect_text::find_text_known(
        table,
        Party::of_number(party),
        number,
        j,
        Text::Key,
    ))
}

// The same of its value, hidden or not: 2, 8.
#[unsafe(no_mangle)]
pub extern "C" fn kev_good_value_at(table: &[u8], party: u64, number: u64, j: usize) -> KevFound
    requires { valid_whole table.now ≡ true }
    ensures { result ≡ found_shown (found_told (lent_text_found (party_of party) Value number j table.now)) }
{
    answers::found(inspect_text::find_text_known(
        table,
        Party::of_number(party),
        number,
        j,
        Text::Value,
    ))
}

// ---- digests and deltas

// The table's digest without the excluded nodes, into the datagram from the place on; the count is its bytes: 20, 8.
#[unsafe(no_mangle)]
pub extern "C" fn kev_good_write_digest(
    table: &[u8],
    edition: u64,
    excluded: &[u64],
    datagram: &mut [u8],
    place: usize,
) -> KevCount
    requires { valid_whole table.now ≡ true }
    ensures { Gives (shown_as written_told count_shown (lent_digest edition excluded.now place datagram.old table.now))
        result datagram.new }
{
    answers::bytes(digest_write::write_good(
        &table[..layout::AREA],
        edition,
        excluded,
        datagram,
        place,
    ))
}

// The delta for a digest, into the datagram from the place on: 20, 7, 8, 15, 9, 13.
#[unsafe(no_mangle)]
pub extern "C" fn kev_good_compute(
    table: &[u8],
    edition: u64,
    digest: &[u8],
    mtu: usize,
    excluded: &[u64],
    ties: &[u64],
    datagram: &mut [u8],
    place: usize,
) -> KevComputed
    requires { valid_whole table.now ≡ true }
    ensures { Gives
        (shown_as computed_told computed_shown
        (lent_compute edition excluded.now ties.now mtu place digest.now datagram.old table.now))
        result datagram.new }
{
    answers::computed(compute::compute_good(
        &table[..layout::AREA],
        edition,
        digest,
        mtu,
        excluded,
        ties,
        datagram,
        place,
    ))
}

// The delta of a plan, its nodes in their order with so many stale records each, into the datagram from the place on: 20, 7, 8, 9, 13, 23.
#[unsafe(no_mangle)]
pub extern "C" fn kev_good_compute_plan(
    table: &[u8],
    edition: u64,
    digest: &[u8],
    mtu: usize,
    excluded: &[u64],
    nodes: &[u64],
    counts: &[u64],
    datagram: &mut [u8],
    place: usize,
) -> KevComputed
    requires { valid_whole table.now ≡ true }
    ensures { Gives
        (shown_as computed_told computed_shown
        (lent_compute_plan edition excluded.now nodes.now counts.now mtu place digest.now
        datagram.old table.now))
        result datagram.new }
{
    answers::computed(compute_plan::compute_plan_good(
        &table[..layout::AREA],
        edition,
        digest,
        mtu,
        excluded,
        nodes,
        counts,
        datagram,
        place,
    ))
}

// The first line of a plan that is at fault, and why: 20, 7, 9, 13, 23.
#[unsafe(no_mangle)]
pub extern "C" fn kev_good_plan_fault(
    table: &[u8],
    edition: u64,
    digest: &[u8],
    mtu: usize,
    excluded: &[u64],
    nodes: &[u64],
    counts: &[u64],
) -> KevJudged
    requires { valid_whole table.now ≡ true }
    ensures { result ≡ judged_shown (judged_told
        (lent_judge edition excluded.now nodes.now counts.now mtu digest.now table.now)) }
{
    answers::judged(compute_plan::plan_fault_good(
        &table[..layout::AREA],
        edition,
        digest,
        mtu,
        excluded,
        nodes,
        counts,
    ))
}

// A delta taken into the table, an answer for each node delta: 13, 9, 1, 10, 11, 12, 17, 8.
#[unsafe(no_mangle)]
pub extern "C" fn kev_good_apply(
    table: &mut [u8],
    delta: &[u8],
    clock: u64,
    answers: &mut [u8],
) -> KevApplied
    requires { valid_whole table.old ≡ true }
    ensures { Gives (shown_as applied_told applied_shown (lent_apply delta.now clock answers.old table.old))
        result (both table.new answers.new) }
{
    answers::applied(apply::apply_known(table, delta, clock, answers))
}

// The same, but for the nodes of `own`.
#[unsafe(no_mangle)]
pub extern "C" fn kev_good_apply_leaving(
    table: &mut [u8],
    own: &[u64],
    delta: &[u8],
    clock: u64,
    answers: &mut [u8],
) -> KevApplied
    requires { valid_whole table.old ≡ true }
    ensures { Gives (shown_as applied_told applied_shown
        (lent_leaving own.now delta.now clock answers.old table.old))
        result (both table.new answers.new) }
{
    answers::applied(apply::leaving_known(table, own, delta, clock, answers))
}
