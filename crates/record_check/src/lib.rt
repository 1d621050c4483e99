// Whether the bytes of a node's records are those of records: lengths, version, status, and zeros behind key and value. It takes no way out of its long
// loop, so that this runs many bytes at a time.
#![tactic(auto)]

ghost use Rattle.std.specs.Prelude.{◌≡◌, ◌+◌, ◌≤◌, length, drop};
ghost use Rattle.fields.specs.Blocks.{all_blocks};
ghost use Rattle.rules.specs.Sizes.{max_records, max_value};
ghost use Rattle.rules.specs.Layout.{rec_place, rec_width, node_width};
ghost use Rattle.record_check.specs.Mask.{mask_bytes};
ghost use Rattle.table.specs.Tests.{clean, rec_good};

use rules::Record;
use table::layout;

// The bytes of the mask.
const MASK: usize = 2 * Record::VALUE;

// As many bytes that drop as a value has room for, and as many that keep.
#[tactic(auto, unfolding(crate::specs::Mask::mask_bytes))]
fn mask() -> [u8; MASK]
    ensures { result ≡ mask_bytes }
{
    let mut m = [0u8; MASK];
    m[Record::VALUE..].fill(255);
    m
}

// Whether zeros stand behind a text of `k` bytes in the room for `n` at `at`. It looks at all n bytes and masks those of the text, so that the loop
// has a fixed length and no branch.
fn clean_behind(record: &[u8], at: usize, n: usize, k: usize, m: &[u8]) -> bool
    requires { (k ≤ n) × (n ≤ max_value) × (at + n ≤ length «record».now) × (m.now ≡ mask_bytes) }
    ensures { result ≡ clean at n k «record».now }
{
    let mut seen: u8 = 0;
    for i in 0..n {
        seen |= record[at + i] & m[Record::VALUE - k + i];
    }
    seen == 0
}

// Whether the bytes are those of a record, in a node with this max.
fn check_record(record: &[u8], max: u64, m: &[u8]) -> bool
    requires { (length «record».now ≡ rec_width) × (m.now ≡ mask_bytes) }
    ensures { result ≡ rec_good max «record».now }
{
    let k = fields::byte_at(record, layout::KEY_LENGTH);
    if Record::KEY < k {
        return false;
    }
    let v = fields::byte_at(record, layout::VALUE_LENGTH);
    if Record::VALUE < v {
        return false;
    }
    let version = fields::read_u64(record, layout::VERSION);
    if version == 0 {
        return false;
    }
    if max < version {
        return false;
    }
    if 2 < fields::byte_at(record, layout::STATUS) {
        return false;
    }
    if clean_behind(record, layout::KEY, Record::KEY, k, m) {
        clean_behind(record, layout::VALUE, Record::VALUE, v, m)
    } else {
        false
    }
}

// Whether the first `n` records of a node's bytes are records.
pub fn check_records(node: &[u8], n: usize, max: u64) -> bool
    requires { (length node.now ≡ node_width) × (n ≤ max_records) }
    ensures { result ≡ all_blocks (rec_good max) rec_width n (drop (rec_place 0) node.now) }
{
    let m = mask();
    for i in 0..n {
        if !check_record(table::record_of(node, i), max, &m) {
            return false;
        }
    }
    true
}
