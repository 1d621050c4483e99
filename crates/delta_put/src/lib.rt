// Reads a listing to its end, by pieces, and says what comes of it. Nothing is written before the whole listing has been judged.
#![tactic(auto)]

ghost use Rattle.std.specs.Prelude.{◌≡◌, take, OnOk};
ghost use Rattle.std.specs.Io.KnownBytes.{Appends};
ghost use Rattle.delta_make.specs.Making.{bad_line, finished};
ghost use Rattle.delta_put.specs.Texts.{put_text, show_text};

use anyhow::Result;
use delta_make::{Making, NotMade};
use rules::sizes;
use std::io::{Read, Write};

// Room for a delta, and one byte more: `listing_show` lists a delta that is too long by its length alone.
pub const ROOM: usize = sizes::LONGEST_DELTA + 1;

// How many bytes are read at once.
const PIECE: usize = 4096;

// So many whole pieces have fewer than 2^64 bytes, as far as `delta_make` counts.
const PIECES: u64 = 4503599627370495;

// The first `n` bytes; all of them where there are fewer.
pub fn front(bytes: &[u8], n: usize) -> &[u8]
    ensures { result.now ≡ take n bytes.now }
{
    &bytes[..n.min(bytes.len())]
}

// Takes in all that can be read: what came of it, or none where the input did not end.
pub fn take_all<R: Read>(input: &mut R, delta: &mut [u8]) -> Result<Option<Making>> {
    let mut line = [0u8; delta_make::LONGEST_LINE];
    let mut piece = [0u8; PIECE];
    let mut making = delta_make::start();
    for _ in 0..PIECES {
        let filled = streams::fill(input, &mut piece)?;
        making = delta_make::take_in(making, front(&piece, filled.len), &mut line, delta);
        if filled.ended {
            return Ok(Some(making));
        }
    }
    Ok(None)
}

// The line that says which line is not in its form.
fn tell_line<W: Write>(out: &mut W, line: usize) -> Result<()>
    ensures { OnOk result (Appends (W.contents out.old) (W.contents out.new) (bad_line line)) }
{
    let mut text = [0u8; delta_make::LONGEST_REFUSED];
    let n = delta_make::put_bad_line(&mut text, line);
    streams::put(out, front(&text, n))
}

// Writes the delta's bytes, or the one line of a refusal.
pub fn put<W: Write>(out: &mut W, making: Making, delta: &[u8]) -> Result<()>
    ensures { OnOk result (Appends (W.contents out.old) (W.contents out.new)
        (put_text (finished making delta.now) making delta.now)) }
{
    let made = delta_make::finish(making, delta);
    match made {
        Ok(n) => streams::put(out, front(delta, n)),
        Err(NotMade::BadLine(n)) => tell_line(out, n),
        Err(NotMade::Refused(_)) => listing_show::show(out, front(delta, making.bytes)),
    }
}

// The same, but an accepted delta is listed.
pub fn show<W: Write>(out: &mut W, making: Making, delta: &[u8]) -> Result<()>
    ensures { OnOk result (Appends (W.contents out.old) (W.contents out.new)
        (show_text (finished making delta.now) making delta.now)) }
{
    let made = delta_make::finish(making, delta);
    match made {
        Ok(n) => listing_show::show(out, front(delta, n)),
        Err(NotMade::BadLine(n)) => tell_line(out, n),
        Err(NotMade::Refused(_)) => listing_show::show(out, front(delta, making.bytes)),
    }
}
