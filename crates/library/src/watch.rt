// Who has seen what, as C functions: the calls of `peers`. A grid is KEV_GRID bytes of the caller's, beside the table whose nodes are its columns.
ghost use Rattle.std.specs.Prelude.{◌≡◌};
ghost use Rattle.rules.specs.Answers.{answer_told};
ghost use Rattle.rules.specs.Given.{Gives};
ghost use Rattle.grid.specs.LentGrid.{both, least_told, seen_told};
ghost use Rattle.grid.specs.LentGrid.{lent_careful, lent_column_in, lent_column_out, lent_least, lent_new_grid, lent_seen, lent_take_out, lent_tell};
ghost use Rattle.answers.specs.Shown.{number_shown, shown_as};
ghost use Rattle.answers_peers.specs.ShownPeers.{least_shown, seen_shown, told_shown};

use answers_peers::{KevLeast, KevSeen, KevTold};

// The slice becomes the grid of the table's nodes, with nobody present: 14.
#[unsafe(no_mangle)]
pub extern "C" fn kev_new_grid(grid: &mut [u8], table: &[u8]) -> u64
    ensures { Gives (shown_as answer_told number_shown (lent_new_grid table.now grid.old)) result grid.new }
{
    answers::number(peers::new_grid(grid, table))
}

// A fresh node with this number, and its column: 14, 4.
#[unsafe(no_mangle)]
pub extern "C" fn kev_grid_add_node(grid: &mut [u8], table: &mut [u8], number: u64) -> u64
    ensures { Gives (shown_as answer_told number_shown (lent_column_in number grid.old table.old))
        result (both grid.new table.new) }
{
    answers::number(peers::add_node(grid, table, number))
}

// The node with this number goes, and its column: 14, 2.
#[unsafe(no_mangle)]
pub extern "C" fn kev_grid_remove_node(grid: &mut [u8], table: &mut [u8], number: u64) -> u64
    ensures { Gives (shown_as answer_told number_shown (lent_column_out number grid.old table.old))
        result (both grid.new table.new) }
{
    answers::number(peers::remove_node(grid, table, number))
}

// What a peer's digest tells takes the place of what it told before: 14, 21, 20, 9, 13.
#[unsafe(no_mangle)]
pub extern "C" fn kev_tell(grid: &mut [u8], peer: u64, edition: u64, digest: &[u8]) -> KevTold
    ensures { Gives (shown_as answer_told told_shown (lent_tell peer edition digest.now grid.old)) result grid.new }
{
    answers_peers::told(peers::tell(grid, peer, edition, digest))
}

// A peer is taken out, and what it told with it: 14, 21.
#[unsafe(no_mangle)]
pub extern "C" fn kev_take_out(grid: &mut [u8], peer: u64) -> u64
    ensures { Gives (shown_as answer_told number_shown (lent_take_out peer grid.old)) result grid.new }
{
    answers::number(peers::take_out(grid, peer))
}

// The least max of a node over the peers present: 14, 22, 2.
#[unsafe(no_mangle)]
pub extern "C" fn kev_least_max(grid: &[u8], number: u64) -> KevLeast
    ensures { result ≡ least_shown (least_told (lent_least number grid.now)) }
{
    answers_peers::least(peers::least_max(grid, number))
}

// What a peer told of a node, where it is present: 14, 21, 2.
#[unsafe(no_mangle)]
pub extern "C" fn kev_seen_by(grid: &[u8], peer: u64, number: u64) -> KevSeen
    ensures { result ≡ seen_shown (seen_told (lent_seen peer number grid.now)) }
{
    answers_peers::seen(peers::told(grid, peer, number))
}

// The scheduled records go whose grace is over and which every peer present has seen: 14, 22.
#[unsafe(no_mangle)]
pub extern "C" fn kev_remove_carefully(grid: &[u8], table: &mut [u8], clock: u64, grace: u64) -> u64
    ensures { Gives (shown_as answer_told number_shown (lent_careful clock grace grid.now table.old)) result table.new }
{
    answers::number(peers::remove_carefully(grid, table, clock, grace))
}
