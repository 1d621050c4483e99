// Who has seen what: a crate above the tables. It keeps, for eight peers and eight nodes, the pair last told by each peer's digest, in a lent grid beside the
// lent table whose nodes are its columns. Nodes come and go through this crate, so that the columns stay the table's; a grid and a table that do not belong
// together are refused with 14, as is either by itself. A careful removal takes what a plain one takes and every peer present has seen. A refused call changes
// no byte of either.
#![tactic(auto)]

ghost use Rattle.std.specs.Prelude.{true, ◌≡◌, ℕ, ◌<◌, ◌≤◌, MatchResult, length, get_or};
ghost use Rattle.rules.specs.Answers.{answer_told};
ghost use Rattle.rules.specs.Given.{Gives, Says, Tells};
ghost use Rattle.rules.specs.Digest.{read_digest};
ghost use Rattle.rules.specs.Layout.{encode, decode, valid};
ghost use Rattle.rules.specs.Sizes.{max_nodes};
ghost use Rattle.rules.specs.declared.Refusal.TheVariants.{BadPeer};
ghost use Rattle.grid.specs.Grid.{least_of, maxes_at, max_peers};
ghost use Rattle.grid.specs.GridLayout.{decode_grid, valid_grid};
ghost use Rattle.grid.specs.LentGrid.{both, carefully_removed, fits_table, least_in, least_told, seen_in, seen_told, tell_on, valid_both};
ghost use Rattle.grid.specs.LentGrid.{lent_careful, lent_column_in, lent_column_out, lent_least, lent_new_grid, lent_seen, lent_take_out, lent_tell};

use grid::layout;
use rules::{Pair, Refusal, sizes};

// Whether a grid and a table each obey their rules, and the columns are the table's nodes: number 14 is refused where not.
fn check_both(grid: &[u8], table: &[u8]) -> bool
    ensures { result ≡ valid_both grid.now table.now }
{
    // One test in the other: by `&&` the wrong program `peers/no_grid_accepted` would be refused for its names alone.
    if grid_check::check_grid(grid) {
        if table_check::check_table(table) {
            return grid_check::columns_fit(grid, &table[..table::layout::AREA]);
        }
    }
    false
}

// The slice becomes the grid of the table's nodes, with nobody present, whatever stood there: 14.
pub fn new_grid(grid: &mut [u8], table: &[u8]) -> Result<(), Refusal>
    ensures { Tells answer_told (lent_new_grid table.now grid.old) result grid.new }
{
    if grid.len() != layout::GRID {
        return Err(Refusal::BadTable);
    }
    if !table_check::check_table(table) {
        return Err(Refusal::BadTable);
    }
    grid_change::make(grid, &table[..table::layout::AREA]);
    Ok(())
}

// Adds a fresh node to the table, and its column at (0,0): 14, 4. A node held already stays, and so does its column.
pub fn add_node(grid: &mut [u8], table: &mut [u8], number: u64) -> Result<(), Refusal>
    ensures { Tells answer_told (lent_column_in number grid.old table.old) result (both grid.new table.new) }
{
    if !check_both(grid, table) {
        return Err(Refusal::BadTable);
    }
    nodes::add_known(table, number)?;
    grid_change::add_column(grid, number);
    Ok(())
}

// Removes a node from the table, which remembers it, and its column: 14, 2.
// No one function of this and `add_node`: the contracts of the two calls would have to be handed in with them, which is longer than the bodies.
pub fn remove_node(grid: &mut [u8], table: &mut [u8], number: u64) -> Result<(), Refusal>
    ensures { Tells answer_told (lent_column_out number grid.old table.old) result (both grid.new table.new) }
{
    if !check_both(grid, table) {
        return Err(Refusal::BadTable);
    }
    nodes::remove_known(table, number)?;
    grid_change::drop_column(grid, number);
    Ok(())
}

// The row of a peer in a grid: 21 where there is none of this number.
fn row_of(peer: u64) -> Result<usize, Refusal>
    ensures { MatchResult result (λ row. (row ≡ peer) × (row < max_peers)) (λ why. (why ≡ BadPeer) × (max_peers ≤ peer)) }
{
    if 8 <= peer {
        return Err(Refusal::BadPeer);
    }
    Ok(peer as usize)
}

// What a digest tells takes the place of what the peer told before, and the peer is present; a refused digest changes nothing.
fn tell_known(grid: &mut [u8], peer: usize, edition: u64, digest: &[u8]) -> Result<(), Refusal>
    requires { (valid_grid grid.old ≡ true) × (peer < max_peers) }
    ensures { Gives (tell_on peer (read_digest edition digest.now) grid.old) result grid.new }
{
    let told = digest_read::read_digest(edition, digest);
    told.read?;
    grid_change::tell_row(grid, peer, told);
    Ok(())
}

// A peer's digest, in the edition whose number the caller tells: 14, 21, then the digest's own numbers.
pub fn tell(grid: &mut [u8], peer: u64, edition: u64, digest: &[u8]) -> Result<(), Refusal>
    ensures { Tells answer_told (lent_tell peer edition digest.now grid.old) result grid.new }
{
    if !grid_check::check_grid(grid) {
        return Err(Refusal::BadTable);
    }
    let row = row_of(peer)?;
    tell_known(grid, row, edition, digest)
}

// A peer is taken out, and what it told with it: 14, 21. Of an absent one nothing changes.
pub fn take_out(grid: &mut [u8], peer: u64) -> Result<(), Refusal>
    ensures { Tells answer_told (lent_take_out peer grid.old) result grid.new }
{
    if !grid_check::check_grid(grid) {
        return Err(Refusal::BadTable);
    }
    let row = row_of(peer)?;
    grid_change::take_out_row(grid, row);
    Ok(())
}

// The least max of a node over the peers present, in a good grid: 22, 2.
fn least_known(grid: &[u8], number: u64) -> Result<u64, Refusal>
    requires { valid_grid grid.now ≡ true }
    ensures { result ≡ least_in number (decode_grid grid.now) }
{
    if !grid_check::somebody(&grid[layout::PRESENT..layout::GCS]) {
        return Err(Refusal::NobodyPresent);
    }
    let n = fields::byte_at(grid, layout::COUNT);
    let numbers = grid_rows::read_row(&grid[layout::NUMBERS..layout::PRESENT]);
    let j = grid_rows::place_of(numbers, n, number);
    if n <= j {
        return Err(Refusal::NoNode);
    }
    let maxes = grid_rows::read_rows(&grid[layout::MAXES..layout::GRID]);
    Ok(grid_rows::least_of(maxes, &grid[layout::PRESENT..layout::GCS], j))
}

// The least max of a node over the peers present: 14, 22, 2.
pub fn least_max(grid: &[u8], number: u64) -> Result<u64, Refusal>
    ensures { Says least_told (lent_least number grid.now) result }
{
    if !grid_check::check_grid(grid) {
        return Err(Refusal::BadTable);
    }
    least_known(grid, number)
}

// What a peer told of a node, in a good grid: 21, 2, or that the peer is absent.
fn told_known(grid: &[u8], peer: u64, number: u64) -> Result<Option<Pair>, Refusal>
    requires { valid_grid grid.now ≡ true }
    ensures { result ≡ seen_in peer number (decode_grid grid.now) }
{
    let row = row_of(peer)?;
    let n = fields::byte_at(grid, layout::COUNT);
    let numbers = grid_rows::read_row(&grid[layout::NUMBERS..layout::PRESENT]);
    let j = grid_rows::place_of(numbers, n, number);
    if n <= j {
        return Err(Refusal::NoNode);
    }
    if grid[layout::PRESENT + row] != 1 {
        return Ok(None);
    }
    let gcs = grid_rows::read_rows(&grid[layout::GCS..layout::MAXES]);
    let maxes = grid_rows::read_rows(&grid[layout::MAXES..layout::GRID]);
    Ok(Some(Pair {
        last_gc: gcs[row][j],
        max: maxes[row][j],
    }))
}

// What a peer told of a node: 14, 21, 2, or that the peer is absent.
pub fn told(grid: &[u8], peer: u64, number: u64) -> Result<Option<Pair>, Refusal>
    ensures { Says seen_told (lent_seen peer number grid.now) result }
{
    if !grid_check::check_grid(grid) {
        return Err(Refusal::BadTable);
    }
    told_known(grid, peer, number)
}

// The least max of each column over the peers present, in a good grid.
fn bounds_of(grid: &[u8]) -> [u64; sizes::NODES]
    requires { valid_grid grid.now ≡ true }
    ensures { (length result ≡ max_nodes) × ((j : ℕ) → j < max_nodes → get_or result j 0 ≡ least_of (maxes_at j (decode_grid grid.now))) }
{
    let maxes = grid_rows::read_rows(&grid[layout::MAXES..layout::GRID]);
    let mut bounds = [0u64; sizes::NODES];
    for j in 0..sizes::NODES {
        bounds[j] = grid_rows::least_of(maxes, &grid[layout::PRESENT..layout::GCS], j);
    }
    bounds
}

// The careful removal over all nodes of a good table's area, by a good grid of its nodes.
fn remove_known(grid: &[u8], area: &mut [u8], clock: u64, grace: u64)
    requires { (valid_grid grid.now ≡ true) × (valid area.old ≡ true) × (fits_table (decode_grid grid.now) (decode area.old) ≡ true) }
    ensures { area.new ≡ encode (carefully_removed (decode_grid grid.now) clock grace (decode area.old)) }
{
    removal::remove_within(area, clock, grace, bounds_of(grid));
}

// A scheduled record goes if its grace is over and every peer present has told a max not below its version: 14, 22.
pub fn remove_carefully(
    grid: &[u8],
    table: &mut [u8],
    clock: u64,
    grace: u64,
) -> Result<(), Refusal>
    ensures { Tells answer_told (lent_careful clock grace grid.now table.old) result table.new }
{
    if !check_both(grid, table) {
        return Err(Refusal::BadTable);
    }
    if !grid_check::somebody(&grid[layout::PRESENT..layout::GCS]) {
        return Err(Refusal::NobodyPresent);
    }
    remove_known(grid, &mut table[..table::layout::AREA], clock, grace);
    Ok(())
}
