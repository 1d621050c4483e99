// A delta made from its listing. The text may come in pieces of any length: what is kept of it is the line that has begun, the delta's bytes so far, and
// two counts. Every line is judged; of a delta over 16,384 bytes what fits is stored, and the counts go on.
#![tactic(auto)]

ghost use Rattle.std.specs.Prelude.{◌≡◌};
ghost use Rattle.fields.specs.Order.{same_bytes};
ghost use Rattle.rules.specs.Given.{Gives};
ghost use Rattle.rules.specs.Listing.{end_line};
ghost use Rattle.listing_text.specs.Texts.{TextFits, put_text};
ghost use Rattle.delta_make.specs.declared.NotMade.TheVariants.{Refused};
ghost use Rattle.delta_make.specs.Making.{among_taken, bad_at, bad_line, both, finished, kept, line_taken, read_made, started};
ghost use Rattle.delta_make.specs.Making.{stored_at, taken_byte, taken_in, up_by};

use rules::{DeltaFault, Refusal, sizes};

// The longest line, with its line feed: a record with 20 digits, `delete`, 32 and 64 bytes of which each takes three.
pub const LONGEST_LINE: usize = 349;

// The longest end line.
const LONGEST_END: usize = 59;

// The longest line that says that a line is not in its form.
pub const LONGEST_REFUSED: usize = 46;

// The largest count.
const MOST: usize = 18446744073709551615;

// How far a text has come.
#[derive(Clone, Copy)]
pub enum Stage {
    // Among the lines of operations.
    Lines,
    // Just behind the end line.
    End,
    // The line of this number is not in its form.
    Bad(usize),
}

// What is kept of a text beside the lent memory: how many bytes of a line have come, and how many operations and bytes of a delta before it.
#[derive(Clone, Copy)]
pub struct Making {
    pub stage: Stage,
    pub held: usize,
    pub ops: usize,
    pub bytes: usize,
}

// Why no delta was made: the line of this number is not in its form, or the delta is refused, and where.
#[derive(Clone, Copy)]
pub enum NotMade {
    BadLine(usize),
    Refused(DeltaFault),
}

impl From<DeltaFault> for NotMade {
    ghost from_gives = { λ fault e. e ≡ Refused fault };

    fn from(fault: DeltaFault) -> NotMade {
        NotMade::Refused(fault)
    }
}

// A count that goes on; at its end it stays.
fn up(n: usize, by: usize) -> usize
    ensures { result ≡ up_by n by }
{
    if MOST - by < n {
        return MOST;
    }
    n + by
}

// Before any text.
pub fn start() -> Making
    ensures { result ≡ started }
{
    Making {
        stage: Stage::Lines,
        held: 0,
        ops: 0,
        bytes: 0,
    }
}

fn bad(line: usize) -> Making
    ensures { result ≡ bad_at line }
{
    Making {
        stage: Stage::Bad(line),
        held: 0,
        ops: 0,
        bytes: 0,
    }
}

// ---- a line

// Whether this is the end line with these counts.
fn is_end(line: &[u8], ops: usize, bytes: usize) -> bool
    ensures { result ≡ same_bytes (end_line ops bytes) line.now }
{
    let mut own = [0u8; LONGEST_END];
    let m = listing_text::put_numbered(&mut own, 0, b"end=ok ops=", ops as u64);
    let n = listing_text::put_numbered(&mut own, m, b" bytes=", bytes as u64);
    let k = listing_text::put_text(&mut own, n, b"\n");
    fields::same(&own[..k], line)
}

// Stores an operation behind the first `at` bytes, where it has room.
fn store(op: &[u8], at: usize, delta: &mut [u8])
    ensures { delta.new ≡ stored_at at op.now delta.old }
{
    if delta.len() < at {
        return;
    }
    if delta.len() - at < op.len() {
        return;
    }
    fields::copy_to(delta, at, op);
}

// A whole line, with its line feed.
fn take_line(line: &[u8], ops: usize, bytes: usize, delta: &mut [u8]) -> Making
    ensures { Gives (line_taken ops bytes line.now delta.old) result delta.new }
{
    let mut op = [0u8; listing_line::LONGEST_OP];
    let n = listing_line::read_line(line, &mut op);
    if n == 0 {
        if is_end(line, ops, bytes) {
            return Making {
                stage: Stage::End,
                held: 0,
                ops,
                bytes,
            };
        }
        return bad(up(ops, 1));
    }
    store(&op[..n], bytes, delta);
    Making {
        stage: Stage::Lines,
        held: 0,
        ops: up(ops, 1),
        bytes: up(bytes, n),
    }
}

// ---- a byte

// A byte of a line.
fn take_among(making: Making, byte: u8, line: &mut [u8], delta: &mut [u8]) -> Making
    ensures { Gives (among_taken byte making line.old delta.old) result (both line.new delta.new) }
{
    let held = making.held;
    let ops = making.ops;
    let bytes = making.bytes;
    if line.len() <= held {
        return bad(up(ops, 1));
    }
    line[held] = byte;
    if byte == b'\n' {
        return take_line(&line[..held + 1], ops, bytes, delta);
    }
    Making {
        stage: Stage::Lines,
        held: held + 1,
        ops,
        bytes,
    }
}

// A byte of the text.
fn take_byte(making: Making, byte: u8, line: &mut [u8], delta: &mut [u8]) -> Making
    ensures { Gives (taken_byte byte (kept making line.old delta.old)) result (both line.new delta.new) }
{
    let stage = making.stage;
    match stage {
        Stage::Lines => take_among(making, byte, line, delta),
        Stage::End => bad(up(making.ops, 2)),
        Stage::Bad(_) => making,
    }
}

// ---- the text

// The next piece of a text.
pub fn take_in(making: Making, piece: &[u8], line: &mut [u8], delta: &mut [u8]) -> Making
    ensures { Gives (taken_in piece.now (kept making line.old delta.old))
        result (both line.new delta.new) }
{
    let mut taken = making;
    for byte in piece {
        taken = take_byte(taken, *byte, line, delta);
    }
    taken
}

// What reading the delta answers, if it is not too long.
fn read_made(bytes: usize, delta: &[u8]) -> Result<usize, NotMade>
    ensures { result ≡ read_made bytes delta.now }
{
    if sizes::LONGEST_DELTA < bytes || delta.len() < bytes {
        return Err(NotMade::Refused(DeltaFault {
            why: Refusal::TooMany,
            at: 0,
        }));
    }
    delta_read::read_delta(&delta[..bytes])?;
    Ok(bytes)
}

// At the text's end.
pub fn finish(making: Making, delta: &[u8]) -> Result<usize, NotMade>
    ensures { result ≡ finished making delta.now }
{
    let stage = making.stage;
    match stage {
        Stage::Lines => Err(NotMade::BadLine(up(making.ops, 1))),
        Stage::End => read_made(making.bytes, delta),
        Stage::Bad(n) => Err(NotMade::BadLine(n)),
    }
}

// The one line that says which line is not in its form.
pub fn put_bad_line(out: &mut [u8], line: usize) -> usize
    requires { TextFits 0 (bad_line line) out.old }
    ensures { Gives (put_text 0 (bad_line line) out.old) result out.new }
{
    let n = listing_text::put_numbered(out, 0, b"end=refused code=16 line=", line as u64);
    listing_text::put_text(out, n, b"\n")
}
