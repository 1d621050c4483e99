// Where everything stands in the bytes of a lent grid: count of columns, their numbers, who is present, the rows of last_gc, the rows of max.
use rules::sizes;

// The peers that a grid has rows for.
pub const PEERS: usize = 8;

// A row: eight numbers. Eight rows, one behind the other.
pub const ROW: usize = sizes::NODES * 8;

pub const ROWS: usize = PEERS * ROW;

// A grid, from its first byte.
pub const COUNT: usize = 0;

pub const NUMBERS: usize = COUNT + 1;

pub const PRESENT: usize = NUMBERS + ROW;

pub const GCS: usize = PRESENT + PEERS;

pub const MAXES: usize = GCS + ROWS;

pub const GRID: usize = MAXES + ROWS;
