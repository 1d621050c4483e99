// A byte of a key or a value as the listing shows it: as itself, or as `%` with two capital hexadecimal digits.
#![tactic(auto)]

ghost use Rattle.std.specs.Prelude.{◌≡◌, ◌<◌, length};
ghost use Rattle.rules.specs.Listing.{hex_digit, plain, shown_byte};

// Whether a byte is shown as itself: 33 to 126, but neither `%` nor `=`.
#[tactic(auto, unfolding(rules::specs::Listing::plain))]
pub fn is_plain(b: u8) -> bool
    ensures { result ≡ plain b }
{
    if b < 33 {
        return false;
    }
    if 126 < b {
        return false;
    }
    if b == b'%' {
        return false;
    }
    if b == b'=' {
        return false;
    }
    true
}

// The capital hexadecimal digit of a number below 16.
#[tactic(auto, unfolding(rules::specs::Listing::hex_digit))]
pub fn hex_digit(n: u8) -> u8
    requires { n < 16 }
    ensures { result ≡ hex_digit n }
{
    if n < 10 {
        return 48 + n;
    }
    55 + n
}

// How long a byte is as it is shown.
pub fn byte_len(b: u8) -> usize
    ensures { result ≡ length (shown_byte b) }
{
    if is_plain(b) {
        return 1;
    }
    3
}
