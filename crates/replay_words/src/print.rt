// Writing into a lent buffer, each from a place on. The answer is the place behind what was written. A text stands whole, or not at all where it has no
// room.
ghost use Rattle.std.specs.Prelude.{◌≡◌, [], ◌∷◌, ◌+◌, ◌<◌, leb};
ghost use Rattle.rules.specs.Listing.{decimal};
ghost use Rattle.replay_words.specs.Printing.{page, say, says, hex_digit, hex_texts, list_texts};

// Whether `n` bytes have room from `at` on in `len` bytes.
fn has_room(len: usize, at: usize, n: usize) -> bool
    ensures { result ≡ leb (at + n) len }
{
    n <= len && at <= len - n
}

pub fn text(out: &mut [u8], at: usize, text: &[u8]) -> usize
    ensures { page result out.new ≡ say text.now (page at out.old) }
{
    if has_room(out.len(), at, text.len()) {
        let end = at + text.len();
        out[at..end].copy_from_slice(text);
        return end;
    }
    at
}

pub fn byte(out: &mut [u8], at: usize, value: u8) -> usize
    ensures { page result out.new ≡ say (value ∷ []) (page at out.old) }
{
    text(out, at, &[value])
}

// Decimal digits.
pub fn decimal(out: &mut [u8], at: usize, value: u64) -> usize
    ensures { page result out.new ≡ say (decimal value) (page at out.old) }
{
    if has_room(out.len(), at, listing_text::decimal_len(value)) {
        return listing_text::put_decimal(out, at, value);
    }
    at
}

// A hexadecimal digit.
fn digit(value: u8) -> u8
    requires { value < 16 }
    ensures { result ≡ hex_digit value }
{
    if value < 10 {
        return b'0' + value;
    }
    b'a' - 10 + value
}

// `x` and two hexadecimal digits a byte.
pub fn hex(out: &mut [u8], at: usize, bytes: &[u8]) -> usize
    ensures { page result out.new ≡ says (hex_texts bytes.now) (say (120 ∷ []) (page at out.old)) }
{
    let mut next = byte(out, at, b'x');
    for value in bytes {
        next = byte(out, next, digit(value / 16));
        next = byte(out, next, digit(value % 16));
    }
    next
}

// The bytes as decimal numbers with commas between them; a dash where there is none.
pub fn list(out: &mut [u8], at: usize, bytes: &[u8]) -> usize
    ensures { page result out.new ≡ says (list_texts bytes.now) (page at out.old) }
{
    let Some((first, rest)) = bytes.split_first() else {
        return byte(out, at, b'-');
    };
    let mut next = decimal(out, at, u64::from(*first));
    for value in rest {
        next = byte(out, next, b',');
        next = decimal(out, next, u64::from(*value));
    }
    next
}
