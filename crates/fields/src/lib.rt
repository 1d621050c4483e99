// Numbers and parts in lent bytes: what every format of this project is made of. A number stands lowest byte first.
// Each function asks only that the bytes it names are there; what it answers or leaves is one equation with a definition of specs/.
#![tactic(auto)]

ghost use Rattle.std.specs.Prelude.{◌≡◌, ◌+◌, ◌*◌, ◌/◌, ◌%◌, ◌^◌, ◌≤◌, ◌<◌, length};
ghost use Rattle.fields.specs.Blocks.{zeros, all_zero};
ghost use Rattle.fields.specs.Numbers.{nat_of, bytes_of};
ghost use Rattle.fields.specs.Order.{order_of, rank_of, same_bytes, starts_with};
ghost use Rattle.fields.specs.Parts.{part, put};

use std::cmp::Ordering;

// `n` blocks of `width` bytes each: how many bytes that is. The multiply is one of 32 bits, since the smallest processors have no wider one.
pub fn times(n: usize, width: usize) -> usize
    requires { (n < 65536) × (width < 65536) }
    ensures { result ≡ n * width }
{
    ((n as u32) * (width as u32)) as usize
}

// The byte at `at`, as a number.
pub fn byte_at(s: &[u8], at: usize) -> usize
    requires { at < length s.now }
    ensures { (result ≡ nat_of (part at 1 s.now)) × (result < 256) }
{
    usize::from(s[at])
}

// The number of the two bytes from `at`.
pub fn read_u16(s: &[u8], at: usize) -> usize
    requires { at + 2 ≤ length s.now }
    ensures { (result ≡ nat_of (part at 2 s.now)) × (result < 65536) }
{
    usize::from(u16::from_le_bytes([s[at], s[at + 1]]))
}

// The eight bytes from `at`.
fn eight(s: &[u8], at: usize) -> [u8; 8]
    requires { at + 8 ≤ length s.now }
    ensures { result ≡ part at 8 s.now }
{
    [
        s[at],
        s[at + 1],
        s[at + 2],
        s[at + 3],
        s[at + 4],
        s[at + 5],
        s[at + 6],
        s[at + 7],
    ]
}

// The number of the eight bytes from `at`.
pub fn read_u64(s: &[u8], at: usize) -> u64
    requires { at + 8 ≤ length s.now }
    ensures { result ≡ nat_of (part at 8 s.now) }
{
    u64::from_le_bytes(eight(s, at))
}

// The number of the eight bytes from `at`, the first of them uppermost: it orders them as bytes are ordered.
fn rank(s: &[u8], at: usize) -> u64
    requires { at + 8 ≤ length s.now }
    ensures { result ≡ rank_of (part at 8 s.now) }
{
    u64::from_be_bytes(eight(s, at))
}

// Stores the lowest byte of `v` at `at`.
pub fn write_byte(s: &mut [u8], at: usize, v: usize)
    requires { at < length s.old }
    ensures { s.new ≡ put at (bytes_of 1 v) s.old }
{
    s[at] = (v % 256) as u8;
}

// Stores the two lowest bytes of `v` from `at` on.
pub fn write_u16(s: &mut [u8], at: usize, v: usize)
    requires { at + 2 ≤ length s.old }
    ensures { s.new ≡ put at (bytes_of 2 v) s.old }
{
    let [low, high] = ((v % 65536) as u16).to_le_bytes();
    s[at] = low;
    s[at + 1] = high;
}

// Stores `v` in the eight bytes from `at` on.
pub fn write_u64(s: &mut [u8], at: usize, v: u64)
    requires { at + 8 ≤ length s.old }
    ensures { s.new ≡ put at (bytes_of 8 v) s.old }
{
    copy_to(s, at, &v.to_le_bytes());
}

// Stores all of `src` from `at` on.
pub fn copy_to(s: &mut [u8], at: usize, src: &[u8])
    requires { at + length src.now ≤ length s.old }
    ensures { s.new ≡ put at src.now s.old }
{
    // `copy_from_slice` is faster, 8 cycles at 64 bytes for 12, but a Cortex-M0+'s code grows by it from 72 to 90 KB.
    for i in 0..src.len() {
        s[at + i] = src[i];
    }
}

// Stores `n` zeros from `at` on.
pub fn clear(s: &mut [u8], at: usize, n: usize)
    requires { at + n ≤ length s.old }
    ensures { s.new ≡ put at (zeros n) s.old }
{
    // `fill` clones, and is slower: 14 cycles at 8 bytes and 16 at 64, the loop 9 and 10.
    for i in 0..n {
        s[at + i] = 0;
    }
}

// Moves the `n` bytes at `from` down to `to`; the two places may overlap.
pub fn move_down(s: &mut [u8], from: usize, to: usize, n: usize)
    requires { (to ≤ from) × (from + n ≤ length s.old) }
    ensures { s.new ≡ put to (part from n s.old) s.old }
{
    // `copy_within` asks for the direction, and is slower: 12 cycles at 8 bytes and 21 at 16, the loop 10 and 18.
    for i in 0..n {
        s[to + i] = s[from + i];
    }
}

// Moves the `n` bytes at `from` up to `to`; the two places may overlap.
pub fn move_up(s: &mut [u8], from: usize, to: usize, n: usize)
    requires { (from ≤ to) × (to + n ≤ length s.old) }
    ensures { s.new ≡ put to (part from n s.old) s.old }
{
    // `copy_within` is slower here too: 13 cycles at 8 bytes and 17 at 12, the loop 11 and 14.
    for i in (0..n).rev() {
        s[to + i] = s[from + i];
    }
}

// Whether all bytes are zero. It has no early way out, so that the compiler takes many bytes a turn.
pub fn is_zero(s: &[u8]) -> bool
    ensures { result ≡ all_zero s.now }
{
    // `all` leaves early: 81 cycles at 64 bytes, the loop 11, and `fold` 14.
    let mut seen = 0;
    for b in s {
        seen |= *b;
    }
    seen == 0
}

// Whether the two are the same bytes. Behind the lengths it has no early way out, for the same reason.
pub fn same(a: &[u8], b: &[u8]) -> bool
    ensures { result ≡ same_bytes a.now b.now }
{
    if a.len() != b.len() {
        return false;
    }
    // `==` leaves early: 26 cycles at 8 bytes and 37 at 24, the loop 12 and 17. By `zip` 31 bytes take 24, by index 19.
    let mut differ = 0;
    for i in 0..a.len() {
        differ |= a[i] ^ b[i];
    }
    differ == 0
}

// How the first stands to the second, byte by byte.
fn compare_bytes(a: &[u8], b: &[u8]) -> Ordering
    ensures { result ≡ order_of a.now b.now }
{
    for i in 0..a.len().min(b.len()) {
        let x = a[i];
        let y = b[i];
        if x < y {
            return Ordering::Less;
        }
        if y < x {
            return Ordering::Greater;
        }
    }
    if a.len() < b.len() {
        return Ordering::Less;
    }
    if b.len() < a.len() {
        return Ordering::Greater;
    }
    Ordering::Equal
}

// How the first stands to the second: eight bytes at a time while both have so many, then byte by byte.
pub fn compare(a: &[u8], b: &[u8]) -> Ordering
    ensures { result ≡ order_of a.now b.now }
{
    // Where the last byte differs, the slices' own `cmp` is slower: 17 cycles at 8 bytes and 26 at 16, the loop 6 and 9.
    for (x, y) in a.chunks_exact(8).zip(b.chunks_exact(8)) {
        let p = rank(x, 0);
        let q = rank(y, 0);
        if p < q {
            return Ordering::Less;
        }
        if q < p {
            return Ordering::Greater;
        }
    }
    let passed = a.len().min(b.len()) / 8 * 8;
    compare_bytes(&a[passed..], &b[passed..])
}

// Whether the second begins with the first.
pub fn starts_with(prefix: &[u8], s: &[u8]) -> bool
    ensures { result ≡ starts_with prefix.now s.now }
{
    // The slice's own `starts_with` leaves early, and is slower: 37 cycles at 24 bytes for 16.
    let n = prefix.len();
    if s.len() < n {
        return false;
    }
    same(prefix, &s[..n])
}
