// What the stories print.
use rules::Refusal;
use std::io;

pub fn text(rt: &impl Print, line: &[u8]) -> io::Result<()> {
    rt.write_all(line)
}

pub fn number(rt: &impl Print, name: &[u8], n: u64) -> io::Result<()> {
    text(rt, name)?;
    rt.print(n)
}

// A refused call would be told; none here is.
pub fn done(rt: &impl Print, a: Result<(), Refusal>) -> io::Result<()> {
    match a {
        Ok(()) => Ok(()),
        Err(r) => number(rt, b"refused ", r.number()),
    }
}

// What a node answered to its part of a delta.
pub fn answer(rt: &impl Print, code: u8) -> io::Result<()> {
    let said = match code {
        0 => " reject",
        1 => " apply",
        2 => " reset",
        3 => " room",
        4 => " unknown",
        _ => " fenced",
    };
    rt.print(said)
}
