// The check behind number 14 for a lent grid: whether bytes are those of a grid that obeys the rules, and whether its columns are the nodes of a table. The
// rows are read into locals and looked at there.
#![tactic(auto)]

ghost use Rattle.std.specs.Prelude.{true, ◌≡◌, ◌≤◌, leb, eqb, length, take, drop};
ghost use Rattle.fields.specs.Choice.{all, pick};
ghost use Rattle.fields.specs.Blocks.{all_zero};
ghost use Rattle.rules.specs.Sizes.{max_nodes};
ghost use Rattle.rules.specs.Table.{rising, among};
ghost use Rattle.rules.specs.Layout.{decode, valid};
ghost use Rattle.grid.specs.Grid.{max_peers, rows_obey};
ghost use Rattle.grid_check.specs.Head.{head_obeys};
ghost use Rattle.grid.specs.GridLayout.{grid_width, decode_grid, valid_grid};
ghost use Rattle.grid.specs.LentGrid.{fits_table};

use grid::layout;
use rules::sizes;

// Whether a row has nothing from a place on.
fn empty_from(row: [u64; sizes::NODES], from: usize) -> bool
    ensures { result ≡ all_zero (drop from row) }
{
    row.iter().skip(from).all(|number| *number == 0)
}

// Whether each of the first `n` numbers is below the next.
fn numbers_rise(numbers: [u64; sizes::NODES], n: usize) -> bool
    requires { n ≤ max_nodes }
    ensures { result ≡ rising (take n numbers) }
{
    numbers[..n].is_sorted_by(|a, b| *a < *b)
}

// Whether each flag is 0 or 1.
fn flags_obey(present: &[u8]) -> bool
    ensures { result ≡ all (λ f. leb f 1) present.now }
{
    present.iter().all(|flag| *flag <= 1)
}

// How many places of a row may be in use: those of the columns where the peer is present, else none.
fn used(flag: u8, count: usize) -> usize
    ensures { result ≡ pick (eqb flag 1) count 0 }
{
    if flag == 1 { count } else { 0 }
}

// Whether the rows have nothing behind the columns, and those of absent peers nothing at all.
fn rows_obey(rows: [[u64; sizes::NODES]; layout::PEERS], present: &[u8], count: usize) -> bool
    requires { length present.now ≡ max_peers }
    ensures { result ≡ rows_obey count present.now rows }
{
    present
        .iter()
        .zip(rows.iter())
        .all(|(flag, row)| empty_from(*row, used(*flag, count)))
}

// Whether what stands in front of the rows obeys: at most eight columns, whose numbers rise, nothing behind them, and flags that are 0 or 1.
fn check_head(grid: &[u8]) -> bool
    requires { length grid.now ≡ grid_width }
    ensures { result ≡ head_obeys (decode_grid grid.now) }
{
    let n = fields::byte_at(grid, layout::COUNT);
    if sizes::NODES < n {
        return false;
    }
    let numbers = grid_rows::read_row(&grid[layout::NUMBERS..layout::PRESENT]);
    if numbers_rise(numbers, n) {
        if empty_from(numbers, n) {
            return flags_obey(&grid[layout::PRESENT..layout::GCS]);
        }
    }
    false
}

// Whether the bytes are those of a grid that obeys the rules: number 14 is refused where they are not.
pub fn check_grid(grid: &[u8]) -> bool
    ensures { result ≡ valid_grid grid.now }
{
    if grid.len() != layout::GRID {
        return false;
    }
    if check_head(grid) {
        let n = fields::byte_at(grid, layout::COUNT);
        let gcs = grid_rows::read_rows(&grid[layout::GCS..layout::MAXES]);
        if rows_obey(gcs, &grid[layout::PRESENT..layout::GCS], n) {
            let maxes = grid_rows::read_rows(&grid[layout::MAXES..layout::GRID]);
            return rows_obey(maxes, &grid[layout::PRESENT..layout::GCS], n);
        }
    }
    false
}

// Whether a peer is present.
pub fn somebody(present: &[u8]) -> bool
    ensures { result ≡ among 1 present.now }
{
    present.contains(&1)
}

// Whether the columns of a good grid are the nodes of a good table's area.
pub fn columns_fit(grid: &[u8], area: &[u8]) -> bool
    requires { (valid_grid grid.now ≡ true) × (valid area.now ≡ true) }
    ensures { result ≡ fits_table (decode_grid grid.now) (decode area.now) }
{
    let n = fields::byte_at(grid, layout::COUNT);
    if n != fields::byte_at(area, table::layout::NODE_COUNT) {
        return false;
    }
    let numbers = grid_rows::read_row(&grid[layout::NUMBERS..layout::PRESENT]);
    for i in 0..n {
        if numbers[i] != table_read::number_at(area, i) {
            return false;
        }
    }
    true
}
