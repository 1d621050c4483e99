// The calls on overrides, and the readings over overrides and a table. Where a word is none that the call takes, nothing is written and there is no
// answer.
#![tactic(auto)]

use over_find::FoundOver;
use overrides::{RefusedOver, Which};
use replay_tell::marks;
use replay_words::{print, read, verbs};
use rules::{Party, Refusal};

// The longest key or value of a script.
const TEXT: usize = 256;

// The most places of a listing.
const PLACES: usize = 72;

// ---- calls that change overrides

// The write: behind the key come the value, the wanted status as any number, and the time.
fn write(
    overrides: &mut [u8],
    key: &[u8],
    line: &[u8],
    out: &mut [u8],
    at: usize,
) -> Option<usize> {
    let status = read::number(read::word(line, 3))?;
    let clock = read::number(read::word(line, 4))?;
    let mut value = [0u8; TEXT];
    let n = read::bytes(read::word(line, 2), &mut value)?;
    let wanted = local::wanted(status);
    let answer = overrides::write_override(overrides, key, read::front(&value, n), wanted, clock);
    Some(replay_tell::answer(out, at, answer))
}

pub fn label_call(
    overrides: &mut [u8],
    verb: verbs::Label,
    line: &[u8],
    out: &mut [u8],
    at: usize,
) -> Option<usize> {
    let mut room = [0u8; TEXT];
    let n = read::bytes(read::word(line, 1), &mut room)?;
    let key = read::front(&room, n);
    match verb {
        verbs::Label::Write => write(overrides, key, line, out, at),
        verbs::Label::Delete => {
            let clock = read::number(read::word(line, 2))?;
            let answer = overrides::delete_override(overrides, key, clock);
            Some(replay_tell::answer(out, at, answer))
        }
        verbs::Label::DeleteTtl => {
            let clock = read::number(read::word(line, 2))?;
            let answer = overrides::delete_override_after_ttl(overrides, key, clock);
            Some(replay_tell::answer(out, at, answer))
        }
    }
}

pub fn remove(overrides: &mut [u8], line: &[u8], out: &mut [u8], at: usize) -> Option<usize> {
    let clock = read::number(read::word(line, 1))?;
    let grace = read::number(read::word(line, 2))?;
    let answer = overrides::remove_overrides(overrides, clock, grace);
    Some(replay_tell::answer(out, at, answer))
}

// ---- readings over both

// A refusal, and with 14 of which of the two it is.
fn refused(out: &mut [u8], at: usize, which: Which, why: Refusal) -> usize {
    let next = replay_tell::refused(out, at, why);
    match which {
        Which::Neither => next,
        Which::Overrides => print::text(out, next, b" of=overrides"),
        Which::Table => print::text(out, next, b" of=table"),
    }
}

fn look_up<'a>(
    overrides: &'a [u8],
    table: &'a [u8],
    party: Party,
    number: u64,
    key: &[u8],
    out: &mut [u8],
    at: usize,
) -> usize {
    match over_find::find_over(overrides, table, party, number, key) {
        Ok(Some(FoundOver::InOverrides { start: _, len: _ })) => replay_tell::named(
            out,
            at,
            b"label ",
            over_find::lookup_over(overrides, table, party, number, key),
        ),
        Ok(Some(FoundOver::InTable { start: _, len: _ })) => replay_tell::named(
            out,
            at,
            b"value ",
            over_find::lookup_over(overrides, table, party, number, key),
        ),
        Ok(None) => print::text(out, at, b"none"),
        Err(RefusedOver { which, why }) => refused(out, at, which, why),
    }
}

// What a listing answered, and whether it left the places behind its hits alone.
fn tell_hits(listed: Result<usize, RefusedOver>, hits: &[u8], out: &mut [u8], at: usize) -> usize {
    match listed {
        Ok(n) => {
            if marks::is_marked(read::behind(hits, n)) {
                let next = print::text(out, at, b"ranks ");
                return print::list(out, next, read::front(hits, n));
            }
            replay_tell::touched(out, at)
        }
        Err(RefusedOver { which, why }) => {
            if marks::is_marked(hits) {
                return refused(out, at, which, why);
            }
            replay_tell::touched(out, at)
        }
    }
}

// A listing into as many of the lent places as the word says.
fn list(
    overrides: &[u8],
    table: &[u8],
    party: Party,
    number: u64,
    prefix: &[u8],
    word: &[u8],
    out: &mut [u8],
    at: usize,
) -> Option<usize> {
    let places = read::number(word)?;
    let mut hits = [marks::MARK; PLACES];
    let lent = read::front_mut(&mut hits, places as usize);
    let listed = over_list::list_over(overrides, table, party, number, prefix, lent);
    Some(tell_hits(listed, &hits, out, at))
}

// Behind the hub that has the overrides come the node and the key or prefix.
pub fn over_call<'a>(
    overrides: &'a [u8],
    table: &'a [u8],
    party: Party,
    verb: verbs::Over,
    line: &[u8],
    out: &mut [u8],
    at: usize,
) -> Option<usize> {
    let number = read::number(read::word(line, 2))?;
    let mut room = [0u8; TEXT];
    let n = read::bytes(read::word(line, 3), &mut room)?;
    let key = read::front(&room, n);
    match verb {
        verbs::Over::Get => Some(look_up(overrides, table, party, number, key, out, at)),
        verbs::Over::List => {
            let word = read::word(line, 4);
            list(overrides, table, party, number, key, word, out, at)
        }
    }
}
