// What changes a lent grid that is known to be good. Each function reads the two arrays of eight arrays into locals, works on them there, and `store` writes
// them back.
#![tactic(auto)]

ghost use Rattle.std.specs.Prelude.{true, ◌≡◌, ◌≤◌, ◌<◌, length, take};
ghost use Rattle.fields.specs.Blocks.{fit};
ghost use Rattle.rules.specs.Sizes.{max_nodes};
ghost use Rattle.rules.specs.Table.{numbers_of};
ghost use Rattle.rules.specs.Layout.{decode, valid};
ghost use Rattle.digest_read.specs.Held.{entries_in};
ghost use Rattle.grid.specs.Grid.{max_peers, new_grid, add_column, drop_column, row_told, tell_row, take_out};
ghost use Rattle.grid.specs.GridLayout.{grid_width, encode_grid, decode_grid, valid_grid};
ghost use Rattle.grid_change.specs.Stored.{grid_of, with_rows};

use digest_read::Digest;
use grid::layout;
use rules::sizes;

// A grid's bytes become this many columns with these numbers and these rows. Who is present stays.
fn store(
    grid: &mut [u8],
    count: usize,
    numbers: [u64; sizes::NODES],
    gcs: [[u64; sizes::NODES]; layout::PEERS],
    maxes: [[u64; sizes::NODES]; layout::PEERS],
)
    requires { length grid.old ≡ grid_width }
    ensures { grid.new ≡ encode_grid (grid_of count numbers grid.old gcs maxes) }
{
    fields::write_byte(grid, layout::COUNT, count);
    grid_rows::write_row(&mut grid[layout::NUMBERS..layout::PRESENT], numbers);
    grid_rows::write_rows(&mut grid[layout::GCS..layout::MAXES], gcs);
    grid_rows::write_rows(&mut grid[layout::MAXES..layout::GRID], maxes);
}

// The numbers of the nodes of a good table's area, in eight places.
fn numbers_of(area: &[u8]) -> [u64; sizes::NODES]
    requires { valid area.now ≡ true }
    ensures { result ≡ fit max_nodes (numbers_of (decode area.now)) }
{
    let n = fields::byte_at(area, table::layout::NODE_COUNT);
    let mut numbers = [0u64; sizes::NODES];
    for i in 0..n {
        numbers[i] = table_read::number_at(area, i);
    }
    numbers
}

// The grid of a good table's nodes: nobody is present. Whatever stood in the slice goes.
pub fn make(grid: &mut [u8], area: &[u8])
    requires { (length grid.old ≡ grid_width) × (valid area.now ≡ true) }
    ensures { grid.new ≡ encode_grid (new_grid (numbers_of (decode area.now))) }
{
    let n = fields::byte_at(area, table::layout::NODE_COUNT);
    fields::clear(grid, layout::PRESENT, layout::PEERS);
    store(
        grid,
        n,
        numbers_of(area),
        [[0u64; sizes::NODES]; layout::PEERS],
        [[0u64; sizes::NODES]; layout::PEERS],
    );
}

// A node's column comes, at (0,0) in every row, if it is not there.
pub fn add_column(grid: &mut [u8], number: u64)
    requires { valid_grid grid.old ≡ true }
    ensures { grid.new ≡ encode_grid (add_column number (decode_grid grid.old)) }
{
    let n = fields::byte_at(grid, layout::COUNT);
    let numbers = grid_rows::read_row(&grid[layout::NUMBERS..layout::PRESENT]);
    if grid_rows::place_of(numbers, n, number) < n {
        return;
    }
    let j = grid_rows::place_for(numbers, n, number);
    let gcs = grid_rows::read_rows(&grid[layout::GCS..layout::MAXES]);
    let maxes = grid_rows::read_rows(&grid[layout::MAXES..layout::GRID]);
    store(
        grid,
        n + 1,
        grid_rows::place_in(numbers, j, number),
        grid_rows::column_in(gcs, j),
        grid_rows::column_in(maxes, j),
    );
}

// A node's column goes, if it is there.
pub fn drop_column(grid: &mut [u8], number: u64)
    requires { valid_grid grid.old ≡ true }
    ensures { grid.new ≡ encode_grid (drop_column number (decode_grid grid.old)) }
{
    let n = fields::byte_at(grid, layout::COUNT);
    let numbers = grid_rows::read_row(&grid[layout::NUMBERS..layout::PRESENT]);
    let j = grid_rows::place_of(numbers, n, number);
    if j < n {
        let gcs = grid_rows::read_rows(&grid[layout::GCS..layout::MAXES]);
        let maxes = grid_rows::read_rows(&grid[layout::MAXES..layout::GRID]);
        store(
            grid,
            n - 1,
            grid_rows::place_out(numbers, j),
            grid_rows::column_out(gcs, j),
            grid_rows::column_out(maxes, j),
        );
    }
}

// The rows of last_gc and of max that a digest tells of the first `n` numbers.
fn rows_told(
    digest: Digest,
    numbers: [u64; sizes::NODES],
    n: usize,
) -> ([u64; sizes::NODES], [u64; sizes::NODES])
    requires { n ≤ max_nodes }
    ensures gcs { result.0 ≡ row_told (λ d. d.last_gc) (entries_in digest) (take n numbers) }
    ensures maxes { result.1 ≡ row_told (λ d. d.max) (entries_in digest) (take n numbers) }
{
    let mut gcs = [0u64; sizes::NODES];
    let mut maxes = [0u64; sizes::NODES];
    for j in 0..n {
        let pair = digest_read::told(digest, numbers[j]);
        gcs[j] = pair.last_gc;
        maxes[j] = pair.max;
    }
    (gcs, maxes)
}

// Both rows of a peer become these, and the peer is present (1) or absent (0).
fn set_rows(
    grid: &mut [u8],
    peer: usize,
    present: u8,
    gc_row: [u64; sizes::NODES],
    max_row: [u64; sizes::NODES],
)
    requires { (valid_grid grid.old ≡ true) × (peer < max_peers) }
    ensures { grid.new ≡ encode_grid (with_rows peer present gc_row max_row (decode_grid grid.old)) }
{
    let n = fields::byte_at(grid, layout::COUNT);
    let numbers = grid_rows::read_row(&grid[layout::NUMBERS..layout::PRESENT]);
    let mut gcs = grid_rows::read_rows(&grid[layout::GCS..layout::MAXES]);
    let mut maxes = grid_rows::read_rows(&grid[layout::MAXES..layout::GRID]);
    gcs[peer] = gc_row;
    maxes[peer] = max_row;
    let a = layout::PRESENT + peer;
    grid[a] = present;
    store(grid, n, numbers, gcs, maxes);
}

// What a peer's digest tells takes the place of what it told before, and the peer is present.
pub fn tell_row(grid: &mut [u8], peer: usize, digest: Digest)
    requires { (valid_grid grid.old ≡ true) × (peer < max_peers) }
    ensures { grid.new ≡ encode_grid (tell_row peer (entries_in digest) (decode_grid grid.old)) }
{
    let n = fields::byte_at(grid, layout::COUNT);
    let numbers = grid_rows::read_row(&grid[layout::NUMBERS..layout::PRESENT]);
    let (gcs, maxes) = rows_told(digest, numbers, n);
    set_rows(grid, peer, 1, gcs, maxes);
}

// A peer goes, and what it told with it.
pub fn take_out_row(grid: &mut [u8], peer: usize)
    requires { (valid_grid grid.old ≡ true) × (peer < max_peers) }
    ensures { grid.new ≡ encode_grid (take_out peer (decode_grid grid.old)) }
{
    set_rows(grid, peer, 0, [0u64; sizes::NODES], [0u64; sizes::NODES]);
}
