// Where everything stands in the bytes of a delta and of a digest. Numbers are little-endian.
ghost use Rattle.std.specs.Prelude.{◌≡◌};
ghost use Rattle.rules.specs.Delta.{number_lacks};
ghost use Rattle.rules.specs.Digest.{head_width, is_edition};

// The widths of a tag or a status, of the length of a text, and of a number.
pub const BYTE: usize = 1;

pub const LENGTH: usize = 2;

pub const NUMBER: usize = 8;

// Of bytes that end inside a number, with so many of them since the numbers began: what that number still lacks.
pub fn number_lacks(present: usize) -> usize
    ensures { result ≡ number_lacks present }
{
    NUMBER - present % NUMBER
}

// The tags of the three operations. What follows a tag is told from the tag on.
pub const NODE: usize = 0;

pub const KEY_VALUE: usize = 1;

pub const SET_MAX_VERSION: usize = 2;

// A Node: its number, last_gc and from, and its whole width.
pub const NODE_NUMBER: usize = BYTE;

pub const NODE_LAST_GC: usize = NODE_NUMBER + NUMBER;

pub const NODE_FROM: usize = NODE_LAST_GC + NUMBER;

pub const NODE_WIDTH: usize = NODE_FROM + NUMBER;

// A KeyValue begins with the length of its key.
pub const KEY_LENGTH: usize = BYTE;

// Behind its value stand version and status: where the status does from there on, and the width of both.
pub const STATUS: usize = NUMBER;

pub const VERSION_WIDTH: usize = STATUS + BYTE;

// What it takes beside the bytes of key and value.
pub const BESIDE_TEXTS: usize = BYTE + LENGTH + LENGTH + VERSION_WIDTH;

// A SetMaxVersion: the max, and its whole width.
pub const MAX: usize = BYTE;

pub const MAX_WIDTH: usize = MAX + NUMBER;

// The editions of a digest, by the number that a caller tells.
pub const V0: u64 = 0;

pub const V1: u64 = 1;

// A digest: in V0 the count of its entries, then an entry behind the other, each a number, a heartbeat, last_gc and max.
pub const COUNT_WIDTH: usize = 2;

pub const ENTRY_NUMBER: usize = 0;

pub const ENTRY_HEARTBEAT: usize = ENTRY_NUMBER + NUMBER;

pub const ENTRY_LAST_GC: usize = ENTRY_HEARTBEAT + NUMBER;

pub const ENTRY_MAX: usize = ENTRY_LAST_GC + NUMBER;

pub const ENTRY_WIDTH: usize = ENTRY_MAX + NUMBER;

// Whether a number is an edition's.
pub fn is_edition(edition: u64) -> bool
    ensures { result ≡ is_edition edition }
{
    edition <= V1
}

// How many bytes stand before the entries: the count's, and none in V1.
pub fn head_width(edition: u64) -> usize
    ensures { result ≡ head_width edition }
{
    if edition == V0 {
        return COUNT_WIDTH;
    }
    0
}
