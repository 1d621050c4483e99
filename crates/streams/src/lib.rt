// Output written whole and input read to its end, for the programs. Where that cannot be, the answer is an error that says so, with which a program ends.
#![tactic(auto)]

ghost use Rattle.std.specs.Prelude.{◌≡◌, true, false, length, take, IfOk, OnOk};
ghost use Rattle.std.specs.Counts.{IsPrefixLen};
ghost use Rattle.std.specs.Io.KnownBytes.{Appends, Consumes, IsAtEnd};

use anyhow::{Context, Error, Result};
use std::io;
use std::io::{Read, Write};

// Writes all of it.
pub fn put<W: Write>(out: &mut W, bytes: &[u8]) -> Result<()>
    ensures { OnOk result (Appends (W.contents out.old) (W.contents out.new) bytes.now) }
{
    out.write_all(bytes)
        .context("standard output cannot be written")
}

// Says that a read failed.
pub fn unreadable(e: io::Error) -> Error {
    Error::from(e).context("input cannot be read")
}

// How many bytes were put at the front, and whether the input ended there.
#[derive(Clone, Copy)]
pub struct Filled {
    pub len: usize,
    pub ended: bool,
}

// Reads until the room is full or the input ends. The first read that fails counts: a connection that is reset tells it once, and every read behind that
// finds the end.
pub fn fill<R: Read>(input: &mut R, room: &mut [u8]) -> Result<Filled>
    ensures front { IfOk result (λ f. IsPrefixLen f.len room.new) }
    ensures bytes { IfOk result (λ f. Consumes (R.remaining input.old) (R.remaining input.new) (take f.len room.new)) }
    ensures ended { IfOk result (λ f. f.ended ≡ true → IsAtEnd (R.remaining input.new)) }
    ensures full { IfOk result (λ f. f.ended ≡ false → f.len ≡ length room.new) }
{
    let mut len = 0;
    // A read gives as many bytes as it will, so that there is no list of turns to go over.
    while len < room.len() {
        let more = match input.read(&mut room[len..]) {
            Ok(n) => n,
            Err(e) => return Err(unreadable(e)),
        };
        if more == 0 {
            return Ok(Filled { len, ended: true });
        }
        len += more;
    }
    Ok(Filled { len, ended: false })
}
