// Texts written into a lent buffer as far as there is room, each from a place that may lie behind the buffer's end. The answer is the place behind the
// whole text: with no room at all nothing is written, and the text is measured.
#![tactic(auto)]

ghost use Rattle.rules.specs.Given.{Gives};
ghost use Rattle.rules.specs.Sizes.{max_value};
ghost use Rattle.std.specs.Prelude.{length, ◌≤◌};
ghost use Rattle.listing_text.specs.Texts.{named, numbered};
ghost use Rattle.listing_room.specs.Room.{Ends, last_number, last_two, put_within, status_word};

use rules::{Record, Status};

// The most digits of a number.
const DIGITS: usize = 20;

// A byte is shown as three at most.
const SHOWN: usize = 3 * Record::VALUE;

// The bytes of `text`.
pub fn put_text(out: &mut [u8], at: usize, text: &[u8]) -> usize
    requires { Ends at text.now }
    ensures { Gives (put_within at text.now out.old) result out.new }
{
    let end = at + text.len();
    if out.len() <= at {
        return end;
    }
    let room = out.len() - at;
    if room < text.len() {
        fields::copy_to(out, at, &text[..room]);
        return end;
    }
    fields::copy_to(out, at, text);
    end
}

// A name and a number.
pub fn put_numbered(out: &mut [u8], at: usize, name: &[u8], v: u64) -> usize
    requires { Ends at (numbered name.now v) }
    ensures { Gives (put_within at (numbered name.now v) out.old) result out.new }
{
    let mut digits = [0u8; DIGITS];
    let n = listing_text::put_decimal(&mut digits, 0, v);
    let next = put_text(out, at, name);
    put_text(out, next, &digits[..n])
}

// A name and the bytes of a key or a value as they are shown.
pub fn put_named(out: &mut [u8], at: usize, name: &[u8], text: &[u8]) -> usize
    requires { Ends at (named name.now text.now) × (length text.now ≤ max_value) }
    ensures { Gives (put_within at (named name.now text.now) out.old) result out.new }
{
    let mut shown = [0u8; SHOWN];
    let n = listing_text::put_shown(&mut shown, 0, text);
    let next = put_text(out, at, name);
    put_text(out, next, &shown[..n])
}

// The word for a status.
pub fn put_status(out: &mut [u8], at: usize, status: Status) -> usize
    requires { Ends at (status_word status) }
    ensures { Gives (put_within at (status_word status) out.old) result out.new }
{
    match status {
        Status::Set => put_text(out, at, b" status=set"),
        Status::Delete => put_text(out, at, b" status=delete"),
        Status::Ttl => put_text(out, at, b" status=ttl"),
    }
}

// A number with its name, to the end of a line.
pub fn put_last(out: &mut [u8], at: usize, name: &[u8], v: u64) -> usize
    requires { Ends at (last_number name.now v) }
    ensures { Gives (put_within at (last_number name.now v) out.old) result out.new }
{
    let next = put_numbered(out, at, name, v);
    put_text(out, next, b"\n")
}

// Two numbers with their names, to the end of a line.
pub fn put_last_two(out: &mut [u8], at: usize, first: &[u8], a: u64, second: &[u8], b: u64) -> usize
    requires { Ends at (last_two first.now a second.now b) }
    ensures { Gives (put_within at (last_two first.now a second.now b) out.old) result out.new }
{
    let next = put_numbered(out, at, first, a);
    put_last(out, next, second, b)
}
