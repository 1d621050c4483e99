// The forms of the meter profile: which keys and values a record may have, and the number that digits state. It knows no table.
#![tactic(auto)]

ghost use Rattle.std.specs.Prelude.{◌≡◌, true, ◌&&◌, ◌*◌, ◌≤◌, ◌<◌, length};
ghost use Rattle.fields.specs.Choice.{all};
ghost use Rattle.rules.specs.Node.{scheduled};
ghost use Rattle.rules.specs.Profile.{is_digit, is_key_byte, max_digits, meter_key, meter_value, numeral};

use rules::Status;

// The most digits of a value.
const DIGITS: usize = 10;

fn is_digit(b: u8) -> bool
    ensures { result ≡ is_digit b }
{
    if b < 48 {
        return false;
    }
    b <= 57
}

// `a` to `z`, `0` to `9`, `.`
fn is_key_byte(b: u8) -> bool
    ensures { result ≡ is_key_byte b }
{
    if 97 <= b {
        return b <= 122;
    }
    if is_digit(b) {
        return true;
    }
    b == 46
}

// Whether a key is in form: 1 or more of those.
#[tactic(auto, unfolding(rules::specs::Profile::meter_key))]
fn is_key(key: &[u8]) -> bool
    ensures { result ≡ meter_key key.now }
{
    !key.is_empty() && key.iter().all(|b| is_key_byte(*b))
}

// Whether all bytes are digits.
fn all_digits(value: &[u8]) -> bool
    ensures { result ≡ all is_digit value.now }
{
    value.iter().all(|b| is_digit(*b))
}

// Whether a record of this status may be empty: Delete and TTL.
fn may_be_empty(status: Status) -> bool
    ensures { result ≡ scheduled status }
{
    match status {
        Status::Set => false,
        Status::Delete => true,
        Status::Ttl => true,
    }
}

// Whether a value is in form: 1 to 10 digits, or empty under Delete or TTL.
#[tactic(auto, unfolding(rules::specs::Profile::meter_value))]
fn is_value(value: &[u8], status: Status) -> bool
    ensures { result ≡ meter_value status value.now }
{
    if value.len() == 0 {
        return may_be_empty(status);
    }
    if DIGITS < value.len() {
        return false;
    }
    all_digits(value)
}

// Whether a record with this key, value and status is in form.
pub fn is_formed(key: &[u8], value: &[u8], status: Status) -> bool
    ensures { result ≡ (meter_key key.now && meter_value status value.now) }
{
    if is_key(key) {
        return is_value(value, status);
    }
    false
}

// ---- the number that a value states

// Ten times a number below 2^30, 16 bits at a time: the smallest processors have no 64-bit multiply.
fn tenfold(v: u64) -> u64
    requires { v < 1000000000 }
    ensures { result ≡ v * 10 }
{
    let low = fields::times((v % 65536) as usize, 10);
    let high = fields::times((v / 65536) as usize, 10);
    (low as u64) + ((high as u64) << 16)
}

// The number that at most ten digits state; none state 0.
pub fn number_of(digits: &[u8]) -> u64
    requires { (length digits.now ≤ max_digits) × (all is_digit digits.now ≡ true) }
    ensures { result ≡ numeral 0 digits.now }
{
    let mut n: u64 = 0;
    for digit in digits {
        n = tenfold(n) + ((*digit - 48) as u64);
    }
    n
}
