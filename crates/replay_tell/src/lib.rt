// Answers to words, into the output from a place on. Each answers the place behind it.
#![tactic(auto)]

pub mod checksum;
pub mod marks;

use digest_read::NodeDigest;
use plan::NotSent;
use replay_words::{print, read};
use rules::{Heartbeat, Refusal};

// No other side says this: a call wrote where it may not.
pub fn touched(out: &mut [u8], at: usize) -> usize {
    print::text(out, at, b"touched")
}

fn coded(out: &mut [u8], at: usize, refusal: Refusal) -> usize {
    let next = print::text(out, at, b"refused ");
    print::decimal(out, next, refusal.number())
}

// The bytes that are lacking: told with 9 only.
fn lacking(out: &mut [u8], at: usize, refusal: Refusal) -> usize {
    if refusal.number() == 9 {
        return numbered(out, at, b" need=", refusal.need());
    }
    at
}

pub fn refused(out: &mut [u8], at: usize, refusal: Refusal) -> usize {
    let next = coded(out, at, refusal);
    lacking(out, next, refusal)
}

pub fn refused_at(out: &mut [u8], at: usize, refusal: Refusal, place: usize) -> usize {
    let code = coded(out, at, refusal);
    let next = numbered(out, code, b" at=", place);
    lacking(out, next, refusal)
}

pub fn answer(out: &mut [u8], at: usize, answer: Result<(), Refusal>) -> usize {
    match answer {
        Ok(()) => print::text(out, at, b"done"),
        Err(refusal) => refused(out, at, refusal),
    }
}

pub fn offered(out: &mut [u8], at: usize, offered: Result<bool, Refusal>) -> usize {
    match offered {
        Ok(true) => print::text(out, at, b"yes"),
        Ok(false) => print::text(out, at, b"no"),
        Err(refusal) => refused(out, at, refusal),
    }
}

pub fn remembered(
    out: &mut [u8],
    at: usize,
    remembered: Result<Option<Heartbeat>, Refusal>,
) -> usize {
    match remembered {
        Ok(Some(heartbeat)) => {
            let next = print::text(out, at, b"heartbeat ");
            print::decimal(out, next, heartbeat.0)
        }
        Ok(None) => print::text(out, at, b"none"),
        Err(refusal) => refused(out, at, refusal),
    }
}

// A name and a number.
pub fn numbered(out: &mut [u8], at: usize, name: &[u8], number: usize) -> usize {
    let next = print::text(out, at, name);
    print::decimal(out, next, number as u64)
}

// A name and bytes.
pub fn named(out: &mut [u8], at: usize, name: &[u8], bytes: &[u8]) -> usize {
    let next = print::text(out, at, name);
    print::hex(out, next, bytes)
}

// A number behind a colon.
fn field(out: &mut [u8], at: usize, number: u64) -> usize {
    let next = print::byte(out, at, b':');
    print::decimal(out, next, number)
}

fn entry(out: &mut [u8], at: usize, node: NodeDigest) -> usize {
    let mut next = print::decimal(out, at, node.number);
    next = field(out, next, node.heartbeat.0);
    next = field(out, next, node.last_gc);
    field(out, next, node.max)
}

// The first `count` entries of a digest, with commas between them; a dash where there is none.
pub fn entries(out: &mut [u8], at: usize, nodes: [NodeDigest; 8], count: usize) -> usize {
    let Some((first, rest)) = read::front(&nodes, count).split_first() else {
        return print::byte(out, at, b'-');
    };
    let mut next = entry(out, at, *first);
    for node in rest {
        next = print::byte(out, next, b',');
        next = entry(out, next, *node);
    }
    next
}

// Why a line of a plan is at fault, by its code; 0 is no code.
fn fault(out: &mut [u8], at: usize, code: u64) -> usize {
    let why = match code {
        0 => b"none".as_slice(),
        1 => b"not-held",
        2 => b"excluded",
        3 => b"named-before",
        4 => b"up-to-date",
        5 => b"too-many",
        6 => b"too-few",
        7 => b"no-fit",
        8 => b"alone",
        _ => b"",
    };
    print::text(out, at, why)
}

// What is said of a plan: where a line is at fault, number 23 with the line and why.
pub fn judged(out: &mut [u8], at: usize, judged: Result<(), NotSent>) -> usize {
    match judged {
        Ok(()) => print::text(out, at, b"accepted"),
        Err(NotSent::AtFault { line, why }) => {
            let code = coded(out, at, Refusal::BadPlan);
            let next = numbered(out, code, b" line=", line);
            let behind = print::text(out, next, b" why=");
            fault(out, behind, why.code())
        }
        Err(NotSent::Refused(refusal)) => refused(out, at, refusal),
    }
}

// What was answered for one node delta, by its code.
fn verdict(out: &mut [u8], at: usize, code: u8) -> usize {
    let answer = match code {
        0 => b"reject".as_slice(),
        1 => b"apply",
        2 => b"reset",
        3 => b"room",
        4 => b"unknown",
        5 => b"fenced",
        _ => b"",
    };
    print::text(out, at, answer)
}

// What was answered for each node delta, with commas between them; a dash where there is none.
pub fn verdicts(out: &mut [u8], at: usize, codes: &[u8]) -> usize {
    let Some((first, rest)) = codes.split_first() else {
        return print::byte(out, at, b'-');
    };
    let mut next = verdict(out, at, *first);
    for code in rest {
        next = print::byte(out, next, b',');
        next = verdict(out, next, *code);
    }
    next
}
