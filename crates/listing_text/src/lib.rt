// Texts in a lent buffer: decimal numbers, names, the bytes of a key or a value as they are shown. Each is written at a place where the caller
// knows that there is room, and answers the place behind it.
#![tactic(auto)]

ghost use Rattle.std.specs.Prelude.{◌≡◌, ◌+◌, ◌/◌, ◌%◌, ◌≤◌, length};
ghost use Rattle.rules.specs.Given.{Gives};
ghost use Rattle.rules.specs.Listing.{decimal, shown_byte, shown_bytes, status_text};
ghost use Rattle.rules.specs.Sizes.{max_value};
ghost use Rattle.listing_text.specs.Texts.{TextFits, named, numbered, put_text};

use rules::Status;

// How many digits `v` has.
pub fn decimal_len(v: u64) -> usize
    ensures { (result ≡ length (decimal v)) × (result ≤ 20) }
{
    let mut n: usize = 1;
    let mut left = v;
    // Goes by what is left of the number, and by no index.
    while 10 <= left {
        left = left / 10;
        n += 1;
    }
    n
}

// The last digit of a number with its tenth at hand, by the lowest four bits of both: `v % 10` beside `v / 10` is compiled to a 64-bit multiply, which the
// smallest processors have not.
fn last_digit(v: u64, tenth: u64) -> u8
    requires { tenth ≡ v / 10 }
    ensures { result ≡ 48 + v % 10 }
{
    let low = (v % 16) as u8;
    let less = ((tenth % 16) as u8) * 10 % 16;
    48 + (low + 16 - less) % 16
}

// `v` in decimal digits, from the last one back.
pub fn put_decimal(out: &mut [u8], at: usize, v: u64) -> usize
    requires { TextFits at (decimal v) out.old }
    ensures { Gives (put_text at (decimal v) out.old) result out.new }
{
    let end = at + decimal_len(v);
    let mut left = v;
    for i in (at..end).rev() {
        let tenth = left / 10;
        out[i] = last_digit(left, tenth);
        left = tenth;
    }
    end
}

// The bytes of `text`.
pub fn put_text(out: &mut [u8], at: usize, text: &[u8]) -> usize
    requires { TextFits at text.now out.old }
    ensures { Gives (put_text at text.now out.old) result out.new }
{
    fields::copy_to(out, at, text);
    at + text.len()
}

// ---- bytes as they are shown

// How long a key or a value is as it is shown.
pub fn shown_len(text: &[u8]) -> usize
    requires { length text.now ≤ max_value }
    ensures { result ≡ length (shown_bytes text.now) }
{
    let mut n: usize = 0;
    for b in text {
        n += listing_byte::byte_len(*b);
    }
    n
}

// A byte as it is shown.
fn put_byte(out: &mut [u8], at: usize, b: u8) -> usize
    requires { TextFits at (shown_byte b) out.old }
    ensures { Gives (put_text at (shown_byte b) out.old) result out.new }
{
    if listing_byte::is_plain(b) {
        return put_text(out, at, &[b]);
    }
    let high = listing_byte::hex_digit(b / 16);
    let low = listing_byte::hex_digit(b % 16);
    put_text(out, at, &[b'%', high, low])
}

// The bytes of a key or a value as they are shown.
pub fn put_shown(out: &mut [u8], at: usize, text: &[u8]) -> usize
    requires { TextFits at (shown_bytes text.now) out.old }
    ensures { Gives (put_text at (shown_bytes text.now) out.old) result out.new }
{
    let mut n = at;
    for b in text {
        n = put_byte(out, n, *b);
    }
    n
}

// ---- names and what they name

// A name and a number.
pub fn put_numbered(out: &mut [u8], at: usize, name: &[u8], v: u64) -> usize
    requires { TextFits at (numbered name.now v) out.old }
    ensures { Gives (put_text at (numbered name.now v) out.old) result out.new }
{
    let next = put_text(out, at, name);
    put_decimal(out, next, v)
}

// A name and the bytes of a key or a value.
pub fn put_named(out: &mut [u8], at: usize, name: &[u8], text: &[u8]) -> usize
    requires { TextFits at (named name.now text.now) out.old }
    ensures { Gives (put_text at (named name.now text.now) out.old) result out.new }
{
    let next = put_text(out, at, name);
    put_shown(out, next, text)
}

// The name of a status.
pub fn put_status(out: &mut [u8], at: usize, status: Status) -> usize
    requires { TextFits at (status_text status) out.old }
    ensures { Gives (put_text at (status_text status) out.old) result out.new }
{
    match status {
        Status::Set => put_text(out, at, b"set"),
        Status::Delete => put_text(out, at, b"delete"),
        Status::Ttl => put_text(out, at, b"ttl"),
    }
}
