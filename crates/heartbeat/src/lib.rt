// Heartbeats over a lent table. An offer stores a greater heartbeat and says whether it was news: yes, no, or refused with 14 or 2. A local beat raises
// the node's own by one: 14, 2, 6. The rules on a header by value stand in the crate `heartbeat_header`. `offer_good` and `beat_good` do the same on a
// table known to be good. A refused call changes no byte.
#![tactic(auto)]

ghost use Rattle.std.specs.Prelude.{◌≡◌, true};
ghost use Rattle.rules.specs.Answers.{answer_told, offered_told};
ghost use Rattle.rules.specs.Given.{Gives, Tells};
ghost use Rattle.rules.specs.Local.{offer, local_beat};
ghost use Rattle.rules.specs.Lent.{stored, lent_offer, lent_beat};
ghost use Rattle.rules.specs.Layout.{decode, valid};
ghost use Rattle.table.specs.Fits.{LaidNode};
ghost use Rattle.heartbeat.specs.Beats.{node_offered, node_beaten};

use rules::{Heartbeat, Refusal};
use table::layout;

// A heartbeat offer to a node.
fn offer_node(node: &mut [u8], got: Heartbeat) -> Result<bool, Refusal>
    requires { LaidNode node.old }
    ensures { Gives (node_offered got node.old) result node.new }
{
    let after = heartbeat_header::offered(table_read::read_header(node), got);
    table_write::set_heartbeat(node, after.header.heartbeat);
    Ok(after.news)
}

// A local beat of a node: 6.
fn beat_node(node: &mut [u8]) -> Result<(), Refusal>
    requires { LaidNode node.old }
    ensures { Gives (node_beaten node.old) result node.new }
{
    let after = heartbeat_header::raised(table_read::read_header(node));
    if !after.rose {
        return Err(Refusal::Exhausted);
    }
    table_write::set_heartbeat(node, after.header.heartbeat);
    Ok(())
}

// A heartbeat offer to a node of a good table: 2.
pub fn offer_good(table: &mut [u8], number: u64, got: Heartbeat) -> Result<bool, Refusal>
    requires { valid table.old ≡ true }
    ensures { Gives (stored (offer number got (decode table.old))) result table.new }
{
    let span = table_read::node_span(table, number).ok_or(Refusal::NoNode)?;
    offer_node(&mut table[span.start..span.end], got)
}

// A local beat of a node of a good table: 2, 6.
pub fn beat_good(table: &mut [u8], number: u64) -> Result<(), Refusal>
    requires { valid table.old ≡ true }
    ensures { Gives (stored (local_beat number (decode table.old))) result table.new }
{
    let span = table_read::node_span(table, number).ok_or(Refusal::NoNode)?;
    beat_node(&mut table[span.start..span.end])
}

// A heartbeat offer: 14, 2.
pub fn offer_heartbeat(table: &mut [u8], number: u64, got: Heartbeat) -> Result<bool, Refusal>
    ensures { Tells offered_told (lent_offer number got table.old) result table.new }
{
    if !table_check::check_table(table) {
        return Err(Refusal::BadTable);
    }
    offer_good(&mut table[..layout::AREA], number, got)
}

// A local beat: 14, 2, 6.
pub fn local_beat(table: &mut [u8], number: u64) -> Result<(), Refusal>
    ensures { Tells answer_told (lent_beat number table.old) result table.new }
{
    if !table_check::check_table(table) {
        return Err(Refusal::BadTable);
    }
    beat_good(&mut table[..layout::AREA], number)
}
