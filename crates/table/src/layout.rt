// Where everything stands in the bytes of a lent table: a structure is its fields, one behind the other.
use rules::{Header, Record, sizes};

// A record, from its first byte: key length, key, value length, value, version, status, start.
pub const KEY_LENGTH: usize = 0;

pub const KEY: usize = KEY_LENGTH + 1;

pub const VALUE_LENGTH: usize = KEY + Record::KEY;

pub const VALUE: usize = VALUE_LENGTH + 1;

pub const VERSION: usize = VALUE + Record::VALUE;

pub const STATUS: usize = VERSION + 8;

pub const START: usize = STATUS + 1;

pub const RECORD: usize = START + 8;

// A node, from its first byte: number, heartbeat, max, last_gc, count of records, room for 32 of them.
pub const NUMBER: usize = 0;

pub const HEARTBEAT: usize = NUMBER + 8;

pub const MAX: usize = HEARTBEAT + 8;

pub const LAST_GC: usize = MAX + 8;

pub const RECORD_COUNT: usize = LAST_GC + 8;

pub const RECORDS: usize = RECORD_COUNT + 1;

pub const NODE: usize = RECORDS + Header::RECORDS * RECORD;

// Two nodes, one behind the other.
pub const PAIR: usize = NODE + NODE;

// A table's area, its first bytes: count of nodes, room for 8 of them.
pub const NODE_COUNT: usize = 0;

pub const NODES: usize = NODE_COUNT + 1;

pub const AREA: usize = NODES + sizes::NODES * NODE;

// The tail behind the area, from its own first byte: mode, profile, count of removed nodes, room for 16 of them.
pub const MODE: usize = 0;

pub const PROFILE: usize = MODE + 1;

pub const REMOVED_COUNT: usize = PROFILE + 1;

pub const REMOVED_NODES: usize = REMOVED_COUNT + 1;

// A removed node, from its first byte: number, heartbeat.
pub const REMOVED_NUMBER: usize = 0;

pub const REMOVED_HEARTBEAT: usize = REMOVED_NUMBER + 8;

pub const REMOVED: usize = REMOVED_HEARTBEAT + 8;

pub const TAIL: usize = REMOVED_NODES + sizes::REMOVED * REMOVED;

// A table: the area and the tail.
pub const TABLE: usize = AREA + TAIL;
