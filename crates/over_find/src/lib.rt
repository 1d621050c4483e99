// Looking a value up in overrides and a node of a table, both lent, by a party. `find_over` tells in which of the two it stands and where, or that there is
// none, or why the call is refused and, with 14, of which; `lookup_over` hands out the value as those very bytes of one of the two slices. Both take any
// bytes. A party that may not name the key is refused with 19, behind 2 and 1, whatever the overrides have. A place in the table is told as that of a table
// with the party's own records alone (crate `lookup`). A name with `known` in it is for overrides and a table known to be good, without the checks;
// `find_over_good` is the lookup without a party, in the area of a good table.
#![tactic(auto)]

ghost use Rattle.std.specs.Prelude.{◌≡◌, true, length};
ghost use Rattle.rules.specs.Given.{Says};
ghost use Rattle.rules.specs.Layout.{decode_node, decode, valid};
ghost use Rattle.rules.specs.Whole.{area_of, decode_whole, valid_whole};
ghost use Rattle.lookup.specs.Lookup.{found_in};
ghost use Rattle.overrides.specs.Overrides.{valid_node};
ghost use Rattle.over_find.specs.Over.{first_of, over_of, own_found, found_over, lent_find_over, Within, HandsOver, part_over, value_over, lent_value_over};
ghost use Rattle.over_find.specs.Told.{found_over_told};

use lookup::Found;
use overrides::{RefusedOver, Which};
use rules::{Party, Refusal};
use table::layout;

// Where a value stands: the `len` bytes from `start` on of the one or of the other. An empty value is found too.
#[derive(Clone, Copy)]
pub enum FoundOver {
    InOverrides { start: usize, len: usize },
    InTable { start: usize, len: usize },
}

// The overrides' own record, if it shows: a hidden one hides nothing.
fn first(
    own: Result<Option<Found>, Refusal>,
    shared: Result<Option<FoundOver>, RefusedOver>,
) -> Result<Option<FoundOver>, RefusedOver>
    ensures { result ≡ first_of own shared }
{
    match own {
        Ok(Some(Found { start, len })) => Ok(Some(FoundOver::InOverrides { start, len })),
        Ok(None) => shared,
        Err(_) => shared,
    }
}

// What the two lookups come to, the table's refusals first.
fn over(
    own: Result<Option<Found>, Refusal>,
    shared: Result<Option<Found>, Refusal>,
) -> Result<Option<FoundOver>, RefusedOver>
    ensures { result ≡ over_of own shared }
{
    match shared {
        Ok(Some(Found { start, len })) => first(own, Ok(Some(FoundOver::InTable { start, len }))),
        Ok(None) => first(own, Ok(None)),
        Err(why) => Err(RefusedOver {
            which: Which::Neither,
            why,
        }),
    }
}

// Which of the two has the value of the key, and where, in good overrides and the area of a good table: 2, 1.
fn find_over_good(
    overrides: &[u8],
    area: &[u8],
    number: u64,
    key: &[u8],
) -> Result<Option<FoundOver>, RefusedOver>
    requires { (valid_node overrides.now ≡ true) × (valid area.now ≡ true) }
    ensures { result ≡ over_of (own_found key.now (decode_node overrides.now).node)
        (found_in number key.now (decode area.now)) }
{
    let shared = lookup::find_good(area, number, key);
    let own = lookup::in_node(overrides, 0, key);
    over(own, shared)
}

// Which of the two has the value of the key, and where, by a party, in good overrides and a good table: 2, 1, 19.
pub fn find_over_known(
    overrides: &[u8],
    table: &[u8],
    party: Party,
    number: u64,
    key: &[u8],
) -> Result<Option<FoundOver>, RefusedOver>
    requires { (valid_node overrides.now ≡ true) × (valid_whole table.now ≡ true) }
    ensures { result ≡ found_over (decode_whole table.now).kind.profile party number key.now
        (decode_node overrides.now).node (decode (area_of table.now)) }
{
    let shared = lookup::find_known(table, party, number, key);
    let own = lookup::in_node(overrides, 0, key);
    over(own, shared)
}

// Which of the two has the value of the key, and where, by a party, in lent bytes: 14 of the overrides, 14 of the table, 2, 1, 19.
pub fn find_over(
    overrides: &[u8],
    table: &[u8],
    party: Party,
    number: u64,
    key: &[u8],
) -> Result<Option<FoundOver>, RefusedOver>
    ensures { Says found_over_told (lent_find_over party number key.now overrides.now table.now) result }
{
    if !overrides::check_overrides(overrides) {
        return Err(RefusedOver {
            which: Which::Overrides,
            why: Refusal::BadTable,
        });
    }
    if !table_check::check_table(table) {
        return Err(RefusedOver {
            which: Which::Table,
            why: Refusal::BadTable,
        });
    }
    find_over_known(overrides, table, party, number, key)
}

// The part that was found, of the overrides or of the table; where nothing was, the empty part at the table's front.
pub fn held_over<'a>(
    overrides: &'a [u8],
    table: &'a [u8],
    found: Result<Option<FoundOver>, RefusedOver>,
) -> &'a [u8]
    requires { Within (length overrides.now) (length table.now) found }
    ensures { HandsOver (part_over overrides.now table.now found) overrides.entry.ref_ptr table.entry.ref_ptr result.now result.ref_ptr }
{
    match found {
        Ok(Some(FoundOver::InOverrides { start, len })) => &overrides[start..start + len],
        Ok(Some(FoundOver::InTable { start, len })) => &table[start..start + len],
        Ok(None) => &table[..0],
        Err(_) => &table[..0],
    }
}

// The value of the key as those very bytes of good overrides or of a good table; where a party finds none, the empty part at the table's front.
pub fn lookup_over_known<'a>(
    overrides: &'a [u8],
    table: &'a [u8],
    party: Party,
    number: u64,
    key: &[u8],
) -> &'a [u8]
    requires { (valid_node overrides.now ≡ true) × (valid_whole table.now ≡ true) }
    ensures { HandsOver (value_over (decode_whole table.now).kind.profile party number key.now
        (decode_node overrides.now).node (decode (area_of table.now)))
        overrides.entry.ref_ptr table.entry.ref_ptr result.now result.ref_ptr }
{
    if !party_form::may_name(profile_check::profile_of(table), party, key) {
        return &table[..0];
    }
    held_over(
        overrides,
        table,
        find_over_good(overrides, &table[..layout::AREA], number, key),
    )
}

// The value of the key as those very bytes of the lent overrides or of the lent table; where a party finds none or the call is refused, the empty part at
// the table's front. `find_over` tells these apart.
pub fn lookup_over<'a>(
    overrides: &'a [u8],
    table: &'a [u8],
    party: Party,
    number: u64,
    key: &[u8],
) -> &'a [u8]
    ensures { HandsOver (lent_value_over party number key.now overrides.now table.now)
        overrides.entry.ref_ptr table.entry.ref_ptr result.now result.ref_ptr }
{
    if !overrides::check_overrides(overrides) {
        return &table[..0];
    }
    if !table_check::check_table(table) {
        return &table[..0];
    }
    lookup_over_known(overrides, table, party, number, key)
}
