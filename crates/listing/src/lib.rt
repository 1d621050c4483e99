// The listing of a delta, written into a lent buffer: a line for each operation and one for the end, or the one line of a refused delta. The
// verdict and the length of the whole are known before the first byte is written.
#![tactic(auto)]

ghost use Rattle.std.specs.Prelude.{◌≤◌, length};
ghost use Rattle.rules.specs.Answers.{written_told};
ghost use Rattle.rules.specs.Given.{Gives, Tells};
ghost use Rattle.rules.specs.Sizes.{max_delta};
ghost use Rattle.rules.specs.Digest.{write_bytes};
ghost use Rattle.rules.specs.Listing.{list_delta};
ghost use Rattle.listing_text.specs.Texts.{TextFits, put_text};
ghost use Rattle.listing.specs.Shapes.{cut_text, fault_text, good_text, refused_text};

use rules::{Refusal, sizes};

// What a last line has beside numbers, of a delta accepted or refused.
const GOOD: usize = 19;

const REFUSED: usize = 22;

// The same with what is lacking, for the one number that tells it.
const CUT: usize = REFUSED + 6;

const CUT_NUMBER: u64 = 9;

// Room for every listing: a line is no longer than five times its operation, and the last one of an accepted delta has two numbers of at most twenty digits.
pub const LONGEST: usize = 5 * sizes::LONGEST_DELTA + GOOD + 20 + 20;

// Of a delta that was accepted with so many operations.
fn list_good(delta: &[u8], out: &mut [u8], ops: usize) -> Result<usize, Refusal>
    requires { length delta.now ≤ max_delta }
    ensures { Gives (write_bytes (good_text delta.now ops) 0 out.old) result out.new }
{
    let count = ops as u64;
    let bytes = delta.len() as u64;
    let n = listing_ops::lines_len(delta)
        + GOOD
        + listing_text::decimal_len(count)
        + listing_text::decimal_len(bytes);
    if out.len() < n {
        return Err(Refusal::NoPlace);
    }
    let at = listing_ops::put_lines(delta, out);
    listing_ops::put_two_numbers(out, at, b"end=ok ops=", count, b" bytes=", bytes);
    Ok(n)
}

// The line of a delta that was refused with this number at this place, and so many bytes lacking.
fn put_cut(out: &mut [u8], code: u64, at: u64, need: u64) -> usize
    requires { TextFits 0 (cut_text code at need) out.old }
    ensures { Gives (put_text 0 (cut_text code at need) out.old) result out.new }
{
    let a = listing_text::put_numbered(out, 0, b"end=refused code=", code);
    listing_ops::put_two_numbers(out, a, b" at=", at, b" need=", need)
}

// Of a delta that was refused with this number at this place, and so many bytes lacking.
fn list_cut(out: &mut [u8], code: u64, at: u64, need: u64) -> Result<usize, Refusal>
    ensures { Gives (write_bytes (cut_text code at need) 0 out.old) result out.new }
{
    let n = CUT
        + listing_text::decimal_len(code)
        + listing_text::decimal_len(at)
        + listing_text::decimal_len(need);
    if out.len() < n {
        return Err(Refusal::NoPlace);
    }
    put_cut(out, code, at, need);
    Ok(n)
}

// Of a delta that was refused with this number at this place.
fn list_fault(out: &mut [u8], code: u64, at: u64) -> Result<usize, Refusal>
    ensures { Gives (write_bytes (fault_text code at) 0 out.old) result out.new }
{
    let n = REFUSED + listing_text::decimal_len(code) + listing_text::decimal_len(at);
    if out.len() < n {
        return Err(Refusal::NoPlace);
    }
    listing_ops::put_two_numbers(out, 0, b"end=refused code=", code, b" at=", at);
    Ok(n)
}

// Of a delta that was refused: what is lacking is told with 9 only.
fn list_refused(out: &mut [u8], code: u64, at: u64, need: u64) -> Result<usize, Refusal>
    ensures { Gives (write_bytes (refused_text code at need) 0 out.old) result out.new }
{
    if code == CUT_NUMBER {
        return list_cut(out, code, at, need);
    }
    list_fault(out, code, at)
}

// The listing of any bytes, at the front of the buffer, and its length. 8, and nothing changed, where the buffer is too short.
pub fn list_delta(delta: &[u8], out: &mut [u8]) -> Result<usize, Refusal>
    ensures { Tells written_told (list_delta delta.now out.old) result out.new }
{
    match delta_read::read_delta(delta) {
        Ok(read) => list_good(delta, out, read.ops),
        Err(fault) => {
            let why = fault.why;
            list_refused(out, why.number(), fault.at as u64, why.need() as u64)
        }
    }
}
