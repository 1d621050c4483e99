// The calls of an exchange: digests and deltas, written and read. Where a word is none that the call takes, nothing is written and there is no
// answer. Lent memory is marked before a call; where a call wrote outside what it answers, the answer is `touched`.
#![tactic(auto)]

use digest_read::DigestRead;
use replay_tell::marks;
use replay_words::{print, read};
use rules::{DeltaFault, DeltaRead, Refusal, Sent};

// The most numbers of a list, and the most answer places of applying.
const LIST: usize = 16;

// The longest datagram; one that is longer makes a line malformed.
const DATAGRAM: usize = 32768;

// The place behind the output so far, and how many bytes `@digest` or `@delta` stands for.
#[derive(Clone, Copy)]
pub struct Kept {
    pub at: usize,
    pub len: usize,
}

impl Kept {
    // More is told; what is kept stays.
    fn told(self, at: usize) -> Self {
        Kept { at, len: self.len }
    }
}

// ---- parts of a datagram

// The bytes from `start` to `end`.
fn part(datagram: &[u8], start: usize, end: usize) -> &[u8] {
    read::behind(read::front(datagram, end), start)
}

// `n` more than `place`; the largest number where there is none.
fn end_of(place: usize, n: usize) -> usize {
    place.saturating_add(n)
}

// ---- reading

// In the edition of the last word.
pub fn read_digest(bytes: &[u8], line: &[u8], out: &mut [u8], at: usize) -> Option<usize> {
    let edition = read::number(read::word(line, 2))?;
    Some(tell_digest(edition, bytes, out, at))
}

fn tell_digest(edition: u64, bytes: &[u8], out: &mut [u8], at: usize) -> usize {
    let digest = digest_read::read_digest(edition, bytes);
    let got = digest.read;
    match got {
        Ok(DigestRead { count, rest: _ }) => {
            let nodes = digest.entries;
            let mut next = print::text(out, at, b"digest ");
            next = replay_tell::entries(out, next, nodes, count);
            replay_tell::numbered(
                out,
                next,
                b" rest=",
                digest_read::digest_rest(edition, bytes).len(),
            )
        }
        Err(refusal) => replay_tell::refused(out, at, refusal),
    }
}

pub fn read_delta(bytes: &[u8], out: &mut [u8], at: usize) -> usize {
    let got = delta_read::read_delta(bytes);
    match got {
        Ok(DeltaRead { ops, nodes }) => {
            let mut next = replay_tell::numbered(out, at, b"ops=", ops);
            next = replay_tell::numbered(out, next, b" nodes=", nodes);
            replay_tell::numbered(out, next, b" bytes=", bytes.len())
        }
        Err(DeltaFault { why, at: place }) => replay_tell::refused_at(out, at, why, place),
    }
}

// ---- applying

// A fault of the stream has a place; 14 and 8 have none.
fn apply_refused(refusal: Refusal, place: usize, out: &mut [u8], at: usize) -> usize {
    match refusal {
        Refusal::BadTable => replay_tell::refused(out, at, refusal),
        Refusal::NoPlace => replay_tell::refused(out, at, refusal),
        _ => replay_tell::refused_at(out, at, refusal, place),
    }
}

fn tell_applied(
    applied: Result<usize, DeltaFault>,
    answers: &[u8],
    out: &mut [u8],
    at: usize,
) -> usize {
    match applied {
        Ok(n) => {
            if marks::is_marked(read::behind(answers, n)) {
                let next = print::text(out, at, b"answers ");
                return replay_tell::verdicts(out, next, read::front(answers, n));
            }
            replay_tell::touched(out, at)
        }
        Err(DeltaFault { why, at: place }) => {
            if marks::is_marked(answers) {
                return apply_refused(why, place, out, at);
            }
            replay_tell::touched(out, at)
        }
    }
}

// Applying at a time, with so many of the lent answer places.
pub fn apply(
    table: &mut [u8],
    bytes: &[u8],
    line: &[u8],
    out: &mut [u8],
    at: usize,
) -> Option<usize> {
    let clock = read::number(read::word(line, 2))?;
    let places = read::number(read::word(line, 3))?;
    let mut answers = [marks::MARK; LIST];
    let lent = read::front_mut(&mut answers, places as usize);
    let applied = apply::apply(table, bytes, clock, lent);
    Some(tell_applied(applied, &answers, out, at))
}

// The same; the nodes that are left alone are the last word.
pub fn leave(
    table: &mut [u8],
    bytes: &[u8],
    line: &[u8],
    out: &mut [u8],
    at: usize,
) -> Option<usize> {
    let clock = read::number(read::word(line, 2))?;
    let places = read::number(read::word(line, 3))?;
    let mut own = [0u64; LIST];
    let n = read::numbers(read::word(line, 4), &mut own)?;
    let mut answers = [marks::MARK; LIST];
    let lent = read::front_mut(&mut answers, places as usize);
    let applied = apply::apply_leaving(table, read::front(&own, n), bytes, clock, lent);
    Some(tell_applied(applied, &answers, out, at))
}

// ---- writing a digest

// A digest was written from `place` to `end`: the whole datagram is told, and the digest is kept.
fn keep_digest(
    datagram: &[u8],
    place: usize,
    end: usize,
    kept: &mut [u8],
    held: Kept,
    out: &mut [u8],
) -> Option<Kept> {
    if marks::is_left(datagram, place, end) {
        let len = read::copy(part(datagram, place, end), kept)?;
        let at = replay_tell::named(out, held.at, b"bytes ", datagram);
        return Some(Kept { at, len });
    }
    Some(held.told(replay_tell::touched(out, held.at)))
}

// A refused call must have left the whole datagram.
fn refuse(refusal: Refusal, datagram: &[u8], held: Kept, out: &mut [u8]) -> Option<Kept> {
    if marks::is_marked(datagram) {
        return Some(held.told(replay_tell::refused(out, held.at, refusal)));
    }
    Some(held.told(replay_tell::touched(out, held.at)))
}

fn digest_into(
    table: &[u8],
    edition: u64,
    excluded: &[u64],
    place: usize,
    datagram: &mut [u8],
    kept: &mut [u8],
    held: Kept,
    out: &mut [u8],
) -> Option<Kept> {
    let written = digest_write::write_digest(table, edition, excluded, datagram, place);
    match written {
        Ok(n) => keep_digest(datagram, place, end_of(place, n), kept, held, out),
        Err(refusal) => refuse(refusal, datagram, held, out),
    }
}

// Behind the excluded nodes come the place, a datagram of as many bytes as the next word says, and the edition.
pub fn digest(
    table: &[u8],
    line: &[u8],
    kept: &mut [u8],
    held: Kept,
    out: &mut [u8],
) -> Option<Kept> {
    let mut excluded = [0u64; LIST];
    let n = read::numbers(read::word(line, 1), &mut excluded)?;
    let place = read::number(read::word(line, 2))?;
    let len = read::number(read::word(line, 3))?;
    let edition = read::number(read::word(line, 4))?;
    let mut room = [marks::MARK; DATAGRAM];
    let datagram = room.get_mut(..len as usize)?;
    digest_into(
        table,
        edition,
        read::front(&excluded, n),
        place as usize,
        datagram,
        kept,
        held,
        out,
    )
}

// ---- computing

// A delta of `ops` operations and `bytes` bytes was written from `place` on: it is told and kept.
fn keep_delta(
    datagram: &[u8],
    ops: usize,
    place: usize,
    bytes: usize,
    kept: &mut [u8],
    held: Kept,
    out: &mut [u8],
) -> Option<Kept> {
    let end = end_of(place, bytes);
    if marks::is_left(datagram, place, end) {
        let len = read::copy(part(datagram, place, end), kept)?;
        let mut at = replay_tell::numbered(out, held.at, b"ops=", ops);
        at = replay_tell::numbered(out, at, b" bytes=", bytes);
        at = replay_tell::named(out, at, b" ", part(datagram, place, end));
        return Some(Kept { at, len });
    }
    Some(held.told(replay_tell::touched(out, held.at)))
}

fn compute_into(
    table: &[u8],
    edition: u64,
    digest: &[u8],
    mtu: usize,
    excluded: &[u64],
    ties: &[u64],
    place: usize,
    datagram: &mut [u8],
    kept: &mut [u8],
    held: Kept,
    out: &mut [u8],
) -> Option<Kept> {
    let computed = compute::compute(table, edition, digest, mtu, excluded, ties, datagram, place);
    match computed {
        Ok(Sent { ops, bytes }) => keep_delta(datagram, ops, place, bytes, kept, held, out),
        Err(refusal) => refuse(refusal, datagram, held, out),
    }
}

// The MTU, the excluded nodes, the ties, the place, a datagram of as many bytes as the next word says, and the edition.
pub fn compute(
    table: &[u8],
    digest: &[u8],
    line: &[u8],
    kept: &mut [u8],
    held: Kept,
    out: &mut [u8],
) -> Option<Kept> {
    let mtu = read::number(read::word(line, 2))?;
    let mut excluded = [0u64; LIST];
    let n = read::numbers(read::word(line, 3), &mut excluded)?;
    let mut ties = [0u64; LIST];
    let m = read::numbers(read::word(line, 4), &mut ties)?;
    let place = read::number(read::word(line, 5))?;
    let len = read::number(read::word(line, 6))?;
    let edition = read::number(read::word(line, 7))?;
    let mut room = [marks::MARK; DATAGRAM];
    let datagram = room.get_mut(..len as usize)?;
    compute_into(
        table,
        edition,
        digest,
        mtu as usize,
        read::front(&excluded, n),
        read::front(&ties, m),
        place as usize,
        datagram,
        kept,
        held,
        out,
    )
}

// ---- plans

fn plan_into(
    table: &[u8],
    edition: u64,
    digest: &[u8],
    mtu: usize,
    excluded: &[u64],
    nodes: &[u64],
    counts: &[u64],
    place: usize,
    datagram: &mut [u8],
    kept: &mut [u8],
    held: Kept,
    out: &mut [u8],
) -> Option<Kept> {
    let computed = compute_plan::compute_plan(
        table, edition, digest, mtu, excluded, nodes, counts, datagram, place,
    );
    match computed {
        Ok(Sent { ops, bytes }) => keep_delta(datagram, ops, place, bytes, kept, held, out),
        Err(refusal) => refuse(refusal, datagram, held, out),
    }
}

// The MTU, the excluded nodes, the plan's nodes and counts, the place, a datagram of as many bytes as the next word says, and the edition.
pub fn plan(
    table: &[u8],
    digest: &[u8],
    line: &[u8],
    kept: &mut [u8],
    held: Kept,
    out: &mut [u8],
) -> Option<Kept> {
    let mtu = read::number(read::word(line, 2))?;
    let mut excluded = [0u64; LIST];
    let n = read::numbers(read::word(line, 3), &mut excluded)?;
    let mut nodes = [0u64; LIST];
    let m = read::numbers(read::word(line, 4), &mut nodes)?;
    let mut counts = [0u64; LIST];
    let k = read::numbers(read::word(line, 5), &mut counts)?;
    let place = read::number(read::word(line, 6))?;
    let len = read::number(read::word(line, 7))?;
    let edition = read::number(read::word(line, 8))?;
    let mut room = [marks::MARK; DATAGRAM];
    let datagram = room.get_mut(..len as usize)?;
    plan_into(
        table,
        edition,
        digest,
        mtu as usize,
        read::front(&excluded, n),
        read::front(&nodes, m),
        read::front(&counts, k),
        place as usize,
        datagram,
        kept,
        held,
        out,
    )
}

// The same without a datagram: no place is lent.
pub fn plan_fault(
    table: &[u8],
    digest: &[u8],
    line: &[u8],
    out: &mut [u8],
    at: usize,
) -> Option<usize> {
    let mtu = read::number(read::word(line, 2))?;
    let mut excluded = [0u64; LIST];
    let n = read::numbers(read::word(line, 3), &mut excluded)?;
    let mut nodes = [0u64; LIST];
    let m = read::numbers(read::word(line, 4), &mut nodes)?;
    let mut counts = [0u64; LIST];
    let k = read::numbers(read::word(line, 5), &mut counts)?;
    let edition = read::number(read::word(line, 6))?;
    let judged = compute_plan::plan_fault(
        table,
        edition,
        digest,
        mtu as usize,
        read::front(&excluded, n),
        read::front(&nodes, m),
        read::front(&counts, k),
    );
    Some(replay_tell::judged(out, at, judged))
}
