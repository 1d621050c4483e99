// Answers the scripts of oracle/README.md, one line a call, by the port's own calls: the port's side of the comparison with the original. A line that is
// none of the language is answered by `malformed`, without a checksum.
#![tactic(auto)]

mod lines;

use anyhow::Result;
use replay_desk::Desk;
use replay_peers::Kept;
use replay_tell::checksum;
use replay_words::verbs::Verb;
use replay_words::{print, read, verbs};
use rules::Party;
use std::io::Write;

// Room for output. It is written once it holds ENOUGH; the longest answer, a digest in the longest datagram, has 65,555 bytes and fits behind.
const OUT: usize = 131072;

const ENOUGH: usize = 65000;

// The longest digest and the longest delta.
const DIGEST: usize = 258;

const DELTA: usize = rules::sizes::LONGEST_DELTA;

// The two calls that write a delta: what `replay_peers` keeps of it.
fn delta_kept(desk: Desk, kept: Kept) -> Desk {
    let mut after = desk.with_out(kept.at);
    after.delta = kept.len;
    after
}

// The calls of an exchange that take bytes.
fn exchange_call(
    desk: Desk,
    verb: verbs::Exchange,
    table: &mut [u8],
    delta: &mut [u8],
    bytes: &[u8],
    line: &[u8],
    out: &mut [u8],
) -> Option<Desk> {
    let at = desk.out;
    let held = Kept {
        at,
        len: desk.delta,
    };
    let next = match verb {
        verbs::Exchange::ReadDigest => replay_peers::read_digest(bytes, line, out, at)?,
        verbs::Exchange::ReadDelta => replay_peers::read_delta(bytes, out, at),
        verbs::Exchange::Apply => replay_peers::apply(table, bytes, line, out, at)?,
        verbs::Exchange::Leave => replay_peers::leave(table, bytes, line, out, at)?,
        verbs::Exchange::PlanFault => replay_peers::plan_fault(table, bytes, line, out, at)?,
        verbs::Exchange::Plan => {
            let kept = replay_peers::plan(table, bytes, line, delta, held, out)?;
            return Some(delta_kept(desk, kept));
        }
        verbs::Exchange::Compute => {
            let kept = replay_peers::compute(table, bytes, line, delta, held, out)?;
            return Some(delta_kept(desk, kept));
        }
    };
    Some(desk.with_out(next))
}

// The same, with the bytes that the line tells. A function of its own, with a frame of its own: a function clears its room at entry, and the call of another
// line has no use for it, nor stack to spare.
#[inline(never)]
fn bytes_call(
    desk: Desk,
    verb: verbs::Exchange,
    room: &mut [u8],
    digest: &[u8],
    delta: &mut [u8],
    line: &[u8],
    out: &mut [u8],
) -> Option<Desk> {
    let mut given = [0u8; replay_desk::TABLE];
    let n = read::bytes_of(
        read::word(line, 1),
        read::front(digest, desk.digest),
        read::front(delta, desk.delta),
        &mut given,
    )?;
    let table = read::front_mut(room, desk.lent());
    exchange_call(desk, verb, table, delta, read::front(&given, n), line, out)
}

// The call that writes a digest, with the room for a datagram: a frame of its own, as above.
#[inline(never)]
fn digest_call(
    desk: Desk,
    table: &[u8],
    digest: &mut [u8],
    line: &[u8],
    out: &mut [u8],
) -> Option<Desk> {
    let held = Kept {
        at: desk.out,
        len: desk.digest,
    };
    let kept = replay_peers::digest(table, line, digest, held, out)?;
    let mut after = desk.with_out(kept.at);
    after.digest = kept.len;
    Some(after)
}

// One call on the rooms of the current hub's table and grid: what it answers is written. None where a word is none that the call takes.
fn call(
    desk: Desk,
    verb: Verb,
    room: &mut [u8],
    grid: &mut [u8],
    digest: &mut [u8],
    delta: &mut [u8],
    line: &[u8],
    out: &mut [u8],
) -> Option<Desk> {
    let at = desk.out;
    let party = Party::of_number(desk.party);
    match verb {
        Verb::Key(verb) => {
            let table = read::front_mut(room, desk.lent());
            let next = replay_local::key_call(table, party, verb, line, out, at)?;
            Some(desk.with_out(next))
        }
        Verb::Plain(verb) => {
            let table = read::front_mut(room, desk.lent());
            let next = replay_local::plain_call(table, verb, line, out, at)?;
            Some(desk.with_out(next))
        }
        Verb::Shelf(verb) => replay_desk::shelf_call(
            desk,
            verb,
            room,
            read::front(digest, desk.digest),
            read::front(delta, desk.delta),
            line,
            out,
        ),
        Verb::Digest => digest_call(desk, read::front(room, desk.lent()), digest, line, out),
        Verb::Exchange(verb) => bytes_call(desk, verb, room, digest, delta, line, out),
        Verb::Overrides => replay_desk::new_overrides(desk, room, read::word(line, 1), out),
        Verb::Label(verb) => {
            let overrides = read::front_mut(room, desk.lent());
            let next = replay_over::label_call(overrides, verb, line, out, at)?;
            Some(desk.with_out(next))
        }
        Verb::GcLabels => {
            let overrides = read::front_mut(room, desk.lent());
            let next = replay_over::remove(overrides, line, out, at)?;
            Some(desk.with_out(next))
        }
        Verb::Over(_) => None,
        Verb::Grid(verb) => replay_watch::grid_call(
            desk,
            verb,
            grid,
            read::front_mut(room, desk.lent()),
            read::front(digest, desk.digest),
            read::front(delta, desk.delta),
            line,
            out,
        ),
        Verb::Kind => replay_desk::make_kind(desk, room, line, out),
        Verb::Party => replay_desk::party(desk, read::word(line, 1), out),
    }
}

// A reading over the overrides of the hub that stands in the line and the current table.
fn over_call(
    desk: Desk,
    verb: verbs::Over,
    tables: &[u8],
    line: &[u8],
    out: &mut [u8],
) -> Option<Desk> {
    let overrides = desk.beside(read::word(line, 1))?.held(tables);
    let table = desk.held(tables);
    let party = Party::of_number(desk.party);
    let next = replay_over::over_call(overrides, table, party, verb, line, out, desk.out)?;
    Some(desk.with_out(next))
}

// What a line asks for. Where it makes a table, it makes the grid too.
fn answered(
    desk: Desk,
    verb: Verb,
    tables: &mut [u8],
    grid: &mut [u8],
    digest: &mut [u8],
    delta: &mut [u8],
    line: &[u8],
    out: &mut [u8],
) -> Option<Desk> {
    if let Verb::Over(verb) = verb {
        return over_call(desk, verb, tables, line, out);
    }
    let room = desk.room(tables);
    let after = call(desk, verb, room, grid, digest, delta, line, out)?;
    Some(replay_watch::renewed(after, verb, grid, read::front(room, after.lent()), line))
}

// Closes the answer by the table's checksum, and by the grid's where the call is on a grid.
fn closed(desk: Desk, verb: Verb, table: &[u8], grid: &[u8], out: &mut [u8]) -> Desk {
    let told = checksum::told(out, desk.out, table);
    let next = replay_watch::checksum(desk, verb, grid, out, told);
    desk.with_out(print::byte(out, next, b'\n'))
}

fn malformed(desk: Desk, out: &mut [u8]) -> Desk {
    desk.with_out(print::text(out, desk.out, b"malformed\n"))
}

// Writes the output so far.
fn write_out<W: Write>(desk: Desk, stdout: &mut W, out: &[u8; OUT]) -> Result<Desk> {
    streams::put(stdout, read::front(out, desk.out))?;
    Ok(desk.with_out(0))
}

// Writes the output once there is enough of it.
fn flushed<W: Write>(desk: Desk, stdout: &mut W, out: &[u8; OUT]) -> Result<Desk> {
    if desk.out < ENOUGH {
        return Ok(desk);
    }
    write_out(desk, stdout, out)
}

// One line on the table and the grid of the hub that is current after it: None where it is none of the language.
fn told(
    before: Desk,
    tables: &mut [u8],
    grids: &mut [u8],
    digest: &mut [u8],
    delta: &mut [u8],
    line: &[u8],
    out: &mut [u8],
) -> Option<Desk> {
    let verb = verbs::asked(line)?;
    let desk = replay_desk::turned(before, verb, line);
    let grid = desk.grid_room(grids);
    let after = answered(desk, verb, tables, grid, digest, delta, line, out)?;
    Some(closed(after, verb, after.held(tables), grid, out))
}

// The line, the first bytes of its room; nothing of it where it is too long.
fn taken(room: &[u8; lines::LINE], len: usize) -> &[u8] {
    if len < lines::LINE {
        return read::front(room, len);
    }
    &[]
}

fn main(rt: HostRuntime) -> Result<()> {
    let mut tables = [0u8; replay_desk::TABLES];
    let mut grids = [0u8; replay_desk::GRIDS];
    let mut digest = [0u8; DIGEST];
    let mut delta = [0u8; DELTA];
    let mut out = [0u8; OUT];
    let mut chunk = [0u8; lines::CHUNK];
    let mut left = lines::Left { at: 0, end: 0 };
    let mut line = [0u8; lines::LINE];
    let mut stdin = rt.stdin();
    let mut stdout = rt.stdout();
    let mut desk = Desk::new();
    for _ in 0..lines::MOST {
        let len = match lines::next(&mut stdin, &mut chunk, &mut left, &mut line) {
            Ok(Some(len)) => len,
            Ok(None) => break,
            Err(e) => {
                // What was answered before the input failed is written all the same.
                write_out(desk, &mut stdout, &out)?;
                return Err(e);
            }
        };
        desk = told(
            desk,
            &mut tables,
            &mut grids,
            &mut digest,
            &mut delta,
            taken(&line, len),
            &mut out,
        )
        .unwrap_or_else(|| malformed(desk, &mut out));
        desk = flushed(desk, &mut stdout, &out)?;
    }
    write_out(desk, &mut stdout, &out)?;
    Ok(())
}
