// Reading what stands at the front of a line's rest: a decimal number, a key or a value. Each must stand there just as it is printed: without a leading
// zero, below 2^64, with capital hexadecimal digits and no escape that is not needed. That is told by printing what was read, and comparing.
#![tactic(auto)]

ghost use Rattle.std.specs.Prelude.{◌≡◌, true, ◌*◌, ◌≤◌, ◌<◌, length};
ghost use Rattle.fields.specs.Order.{same_bytes};
ghost use Rattle.rules.specs.Listing.{decimal, shown_bytes};
ghost use Rattle.rules.specs.Sizes.{max_value};
ghost use Rattle.listing_read.specs.Unlist.{hex_value, is_digit, is_graphic};
ghost use Rattle.listing_words.specs.Words.{OneAt, TextRead, Unshows, digits_at, grown, number_at, piece_of};

// The largest number that may have a digit more.
const TENTH: u64 = 1844674407370955161;

// The most bytes of a key or a value as it is shown.
const LONGEST: usize = 3 * rules::Record::VALUE;

// A number, and how many bytes it is written in.
#[derive(Clone, Copy)]
pub struct Numeral {
    pub value: u64,
    pub len: usize,
}

// Bytes that a shown text stands for: so many, and how many bytes of the line were taken.
#[derive(Clone, Copy)]
pub struct Shown {
    pub len: usize,
    pub took: usize,
}

// What the next byte of a shown text stands for, and how many bytes it took.
#[derive(Clone, Copy)]
pub struct One {
    pub value: usize,
    pub took: usize,
}

// Whether the piece is what is printed.
fn is_same(printed: &[u8], piece: &[u8]) -> bool
    ensures { result ≡ same_bytes printed.now piece.now }
{
    fields::same(printed, piece)
}

// ---- numbers

fn is_digit(b: u8) -> bool
    ensures { result ≡ is_digit b }
{
    if b < 48 {
        return false;
    }
    b <= 57
}

// Ten times a number below 2^28, by a multiply of 32 bits.
fn ten_times(v: u64) -> u64
    requires { v < 268435456 }
    ensures { (result ≡ v * 10) × (result < 2684354560) }
{
    ((v as u32) * 10) as u64
}

// Ten times the value, 28 bits at a time: the smallest processors have no 64-bit multiply, and shifts that are added the compiler makes one.
fn tenfold(value: u64) -> u64
    requires { value ≤ 1844674407370955161 }
    ensures { result ≡ value * 10 }
{
    let upper = value / 268435456;
    let low = ten_times(value % 268435456);
    let mid = ten_times(upper % 268435456);
    let high = ten_times(upper / 268435456);
    low + (mid << 28) + (high << 56)
}

// The value with one digit more.
fn with_digit(value: u64, digit: u8) -> Option<u64>
    requires { is_digit digit ≡ true }
    ensures { result ≡ grown value digit }
{
    let low = u64::from(digit - 48);
    if TENTH < value {
        return None;
    }
    tenfold(value).checked_add(low)
}

// The number that the digits at the front are, leading zeros or not.
fn read_digits(text: &[u8]) -> Option<Numeral>
    ensures { result ≡ digits_at text.now }
{
    let mut value: u64 = 0;
    for (i, b) in text.iter().enumerate() {
        if !is_digit(*b) {
            return Some(Numeral { value, len: i });
        }
        value = with_digit(value, *b)?;
    }
    Some(Numeral {
        value,
        len: text.len(),
    })
}

// Whether the bytes are those that are printed of the value.
fn is_decimal(value: u64, piece: &[u8]) -> bool
    ensures { result ≡ same_bytes (decimal value) piece.now }
{
    let mut own = [0u8; 20];
    let n = listing_text::put_decimal(&mut own, 0, value);
    is_same(&own[..n], piece)
}

// The number at the front, as it is printed.
pub fn number(text: &[u8]) -> Option<Numeral>
    ensures { result ≡ number_at text.now }
{
    let read = read_digits(text)?;
    is_decimal(read.value, &text[..read.len]).then_some(read)
}

// ---- keys and values

// Whether the byte can stand in a text as it is shown.
fn is_graphic(b: u8) -> bool
    ensures { result ≡ is_graphic b }
{
    if b < 33 {
        return false;
    }
    b <= 126
}

// How many such bytes stand at the front.
fn graphic_len(text: &[u8]) -> usize
    ensures { (result ≡ length (piece_of text.now)) × (result ≤ length text.now) }
{
    for (i, b) in text.iter().enumerate() {
        if !is_graphic(*b) {
            return i;
        }
    }
    text.len()
}

// The value of a hexadecimal digit; of another byte some number.
fn hex_value(b: u8) -> usize
    ensures { (result ≡ hex_value b) × (result < 256) }
{
    if b < 48 {
        return 0;
    }
    if b < 58 {
        return (b - 48) as usize;
    }
    (b - 55) as usize
}

// A byte as a number.
fn wide(b: u8) -> usize
    ensures { result ≡ b }
{
    b as usize
}

// What the byte at `i` stands for: itself, or with `%` what the two behind it say.
fn one_at(piece: &[u8], i: usize) -> One
    requires { i < length piece.now }
    ensures { OneAt piece.now i result }
{
    if piece.len() - i < 3 {
        return One {
            value: wide(piece[i]),
            took: 1,
        };
    }
    if piece[i] != b'%' {
        return One {
            value: wide(piece[i]),
            took: 1,
        };
    }
    One {
        value: hex_value(piece[i + 1]) * 16 + hex_value(piece[i + 2]),
        took: 3,
    }
}

// The bytes that a shown text stands for, at the front of `out`, if they are bytes and have room there.
fn unshow(piece: &[u8], out: &mut [u8]) -> Option<usize>
    ensures { Unshows piece.now out.old result out.new }
{
    let mut n: usize = 0;
    let mut i: usize = 0;
    // No `for`: a step is as long as what the byte took, one or three.
    while i < piece.len() {
        let one = one_at(piece, i);
        if 256 <= one.value {
            return None;
        }
        if out.len() <= n {
            return None;
        }
        out[n] = one.value as u8;
        n += 1;
        i += one.took;
    }
    Some(n)
}

// Whether the bytes are those that are shown of the text.
fn is_shown(text: &[u8], piece: &[u8]) -> bool
    requires { length text.now ≤ max_value }
    ensures { result ≡ same_bytes (shown_bytes text.now) piece.now }
{
    let mut shown = [0u8; LONGEST];
    let n = listing_text::put_shown(&mut shown, 0, text);
    is_same(&shown[..n], piece)
}

// The key or value at the front, as it is shown; its bytes at the front of `out`, whose length is the most that it may have.
pub fn text(text: &[u8], out: &mut [u8]) -> Option<Shown>
    requires { length out.old ≤ max_value }
    ensures { TextRead text.now out.old result out.new }
{
    let took = graphic_len(text);
    let piece = &text[..took];
    let len = unshow(piece, out)?;
    is_shown(&out[..len], piece).then_some(Shown { len, took })
}
