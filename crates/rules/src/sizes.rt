// The sizes of document 01 that belong to no type of this crate. `Record` has those of a key and a value, `Header` that of a node.

// The most nodes in a table, and in a digest or a delta.
pub const NODES: usize = 8;

// The removed nodes that a table remembers.
pub const REMOVED: usize = 16;

// The least MTU. The largest is the longest delta.
pub const LEAST_MTU: usize = 100;

pub const LONGEST_DELTA: usize = 16384;

// The largest number of eight bytes, 2^64-1: a version or a heartbeat that cannot rise.
pub const TOP: u64 = 18446744073709551615;
