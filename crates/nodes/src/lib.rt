// Making a lent table, and nodes that come and go by their numbers. The entry points take any bytes: `add_node` refuses with 14 and 4, `remove_node` with
// 14 and 2, and a node held already is left as it is. `new_table` asks only how long the slice is. `add_good` and `remove_good` do the same on the area of a
// table known to be good. A removed node is remembered with its last heartbeat, until it is added again or sixteen others were removed after it;
// `last_heartbeat` tells it. A refused call changes no byte.
#![tactic(auto)]

ghost use Rattle.std.specs.Prelude.{◌≡◌, true};
ghost use Rattle.rules.specs.Answers.{answer_told, remembered_told};
ghost use Rattle.rules.specs.Given.{Gives, Says, Tells};
ghost use Rattle.rules.specs.Local.{add, remove_node};
ghost use Rattle.rules.specs.Lent.{stored, add_whole, remove_whole, remembered_as, lent_add, lent_remove_node, lent_removed};
ghost use Rattle.rules.specs.Layout.{decode, valid};
ghost use Rattle.rules.specs.Memory.{heartbeat_of};
ghost use Rattle.rules.specs.Profile.{kind};
ghost use Rattle.rules.specs.Table.{node_of};
ghost use Rattle.rules.specs.Whole.{decode_whole, valid_whole};
ghost use Rattle.nodes.specs.New.{lent_made};
ghost use Rattle.nodes.specs.Coming.{stored_whole, beat_of};

use rules::{Heartbeat, Mode, Profile, Refusal, sizes};
use table::layout;
use table_read::Place;

// The slice becomes an empty table of this mode and this profile, whatever stood there; one of another length is refused with 14.
pub fn new_table(table: &mut [u8], mode: Mode, profile: Profile) -> Result<(), Refusal>
    ensures { Tells answer_told (lent_made (kind mode profile) table.old) result table.new }
{
    if table.len() != layout::TABLE {
        return Err(Refusal::BadTable);
    }
    fields::clear(table, 0, layout::TABLE);
    fields::write_byte(table, layout::AREA + layout::MODE, mode.byte());
    fields::write_byte(table, layout::AREA + layout::PROFILE, profile.byte());
    Ok(())
}

// A fresh node with this number in a good table; one held already stays. 4 where there is no room.
pub fn add_good(table: &mut [u8], number: u64) -> Result<(), Refusal>
    requires { valid table.old ≡ true }
    ensures { Gives (stored (add number (decode table.old))) result table.new }
{
    match table_read::find_node(table, number) {
        Place::At(_) => Ok(()),
        Place::Free(i) => {
            if sizes::NODES <= fields::byte_at(table, layout::NODE_COUNT) {
                return Err(Refusal::NinthNode);
            }
            table_nodes::insert_node(table, i, number);
            Ok(())
        }
    }
}

// The node with this number goes from a good table: 2.
pub fn remove_good(table: &mut [u8], number: u64) -> Result<(), Refusal>
    requires { valid table.old ≡ true }
    ensures { Gives (stored (remove_node number (decode table.old))) result table.new }
{
    match table_read::find_node(table, number) {
        Place::At(i) => {
            table_nodes::remove_node(table, i);
            Ok(())
        }
        Place::Free(_) => Err(Refusal::NoNode),
    }
}

// The heartbeat of the node with this number in a good table; 0 where it is not held.
fn heartbeat_in(area: &[u8], number: u64) -> Heartbeat
    requires { valid area.now ≡ true }
    ensures { result ≡ beat_of (node_of number (decode area.now)) }
{
    match table_read::find_node(area, number) {
        Place::At(i) => {
            let beat = fields::read_u64(table::node_of(area, i), layout::HEARTBEAT);
            Heartbeat(beat)
        }
        Place::Free(_) => Heartbeat(0),
    }
}

// Adds a fresh node to a good table with its memory, which forgets it.
pub fn add_known(table: &mut [u8], number: u64) -> Result<(), Refusal>
    requires { valid_whole table.old ≡ true }
    ensures { Gives (stored_whole (add_whole number (decode_whole table.old))) result table.new }
{
    add_good(&mut table[..layout::AREA], number)?;
    removed::forget(&mut table[layout::AREA..layout::TABLE], number);
    Ok(())
}

// Removes a node from a good table with its memory, which remembers it with the heartbeat that it had.
pub fn remove_known(table: &mut [u8], number: u64) -> Result<(), Refusal>
    requires { valid_whole table.old ≡ true }
    ensures { Gives (stored_whole (remove_whole number (decode_whole table.old))) result table.new }
{
    let beat = heartbeat_in(&table[..layout::AREA], number);
    remove_good(&mut table[..layout::AREA], number)?;
    removed::remember(&mut table[layout::AREA..layout::TABLE], number, beat);
    Ok(())
}

// The last heartbeat of a removed node, if a good table remembers it.
pub fn last_heartbeat_known(table: &[u8], number: u64) -> Result<Option<Heartbeat>, Refusal>
    requires { valid_whole table.now ≡ true }
    ensures { result ≡ remembered_as (heartbeat_of number (decode_whole table.now).memory) }
{
    removed::last_heartbeat(&table[layout::AREA..layout::TABLE], number)
}

// Adds a fresh node, and forgets it: 14, 4.
pub fn add_node(table: &mut [u8], number: u64) -> Result<(), Refusal>
    ensures { Tells answer_told (lent_add number table.old) result table.new }
{
    if !table_check::check_table(table) {
        return Err(Refusal::BadTable);
    }
    add_known(table, number)
}

// Removes a node, and remembers it: 14, 2.
pub fn remove_node(table: &mut [u8], number: u64) -> Result<(), Refusal>
    ensures { Tells answer_told (lent_remove_node number table.old) result table.new }
{
    if !table_check::check_table(table) {
        return Err(Refusal::BadTable);
    }
    remove_known(table, number)
}

// The last heartbeat of a removed node, if it is remembered: 14.
pub fn last_heartbeat(table: &[u8], number: u64) -> Result<Option<Heartbeat>, Refusal>
    ensures { Says remembered_told (lent_removed number table.now) result }
{
    if !table_check::check_table(table) {
        return Err(Refusal::BadTable);
    }
    last_heartbeat_known(table, number)
}
