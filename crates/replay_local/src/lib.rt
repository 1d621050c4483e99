// The calls on one table that no peer has a part in. Where a word is none that the call takes, nothing is written and there is no answer.
#![tactic(auto)]

use lookup::Found;
use replay_tell::marks;
use replay_words::{print, read, verbs};
use rules::{Heartbeat, Party, Refusal};

// The longest key or value of a script.
const TEXT: usize = 256;

// The most places of a listing.
const PLACES: usize = 40;

// ---- calls that take numbers alone

pub fn plain_call(
    table: &mut [u8],
    verb: verbs::Plain,
    line: &[u8],
    out: &mut [u8],
    at: usize,
) -> Option<usize> {
    let number = read::number(read::word(line, 1))?;
    let next = match verb {
        verbs::Plain::Add => replay_tell::answer(out, at, nodes::add_node(table, number)),
        verbs::Plain::Remove => replay_tell::answer(out, at, nodes::remove_node(table, number)),
        verbs::Plain::Removed => {
            replay_tell::remembered(out, at, nodes::last_heartbeat(table, number))
        }
        verbs::Plain::Beat => replay_tell::answer(out, at, heartbeat::local_beat(table, number)),
        verbs::Plain::Offer => {
            let second = read::number(read::word(line, 2))?;
            let offered = heartbeat::offer_heartbeat(table, number, Heartbeat(second));
            replay_tell::offered(out, at, offered)
        }
        verbs::Plain::Gc => {
            let second = read::number(read::word(line, 2))?;
            replay_tell::answer(out, at, removal::remove_scheduled(table, number, second))
        }
    };
    Some(next)
}

// ---- calls at a key

fn look_up(
    table: &[u8],
    party: Party,
    number: u64,
    key: &[u8],
    out: &mut [u8],
    at: usize,
) -> usize {
    match lookup::find(table, party, number, key) {
        Ok(Some(Found { start: _, len: _ })) => {
            replay_tell::named(
                out,
                at,
                b"value ",
                lookup::lookup(table, party, number, key),
            )
        }
        Ok(None) => print::text(out, at, b"none"),
        Err(refusal) => replay_tell::refused(out, at, refusal),
    }
}

// What a listing answered, and whether it left the places behind its hits alone.
fn tell_hits(listed: Result<usize, Refusal>, hits: &[u8], out: &mut [u8], at: usize) -> usize {
    match listed {
        Ok(n) => {
            if marks::is_marked(read::behind(hits, n)) {
                let next = print::text(out, at, b"ranks ");
                return print::list(out, next, read::front(hits, n));
            }
            replay_tell::touched(out, at)
        }
        Err(refusal) => {
            if marks::is_marked(hits) {
                return replay_tell::refused(out, at, refusal);
            }
            replay_tell::touched(out, at)
        }
    }
}

// A listing into as many of the lent places as the word says.
fn list(
    table: &[u8],
    party: Party,
    number: u64,
    prefix: &[u8],
    word: &[u8],
    out: &mut [u8],
    at: usize,
) -> Option<usize> {
    let places = read::number(word)?;
    let mut hits = [marks::MARK; PLACES];
    let lent = read::front_mut(&mut hits, places as usize);
    let listed = prefix::list_prefix(table, party, number, prefix, lent);
    Some(tell_hits(listed, &hits, out, at))
}

// The write: behind the key come the value, the wanted status as any number, and the time.
fn write(
    table: &mut [u8],
    party: Party,
    number: u64,
    key: &[u8],
    line: &[u8],
    out: &mut [u8],
    at: usize,
) -> Option<usize> {
    let status = read::number(read::word(line, 4))?;
    let clock = read::number(read::word(line, 5))?;
    let mut value = [0u8; TEXT];
    let n = read::bytes(read::word(line, 3), &mut value)?;
    let wanted = local::wanted(status);
    let answer = local::write(
        table,
        party,
        number,
        key,
        read::front(&value, n),
        wanted,
        clock,
    );
    Some(replay_tell::answer(out, at, answer))
}

fn at_key(
    table: &mut [u8],
    party: Party,
    verb: verbs::Key,
    number: u64,
    key: &[u8],
    line: &[u8],
    out: &mut [u8],
    at: usize,
) -> Option<usize> {
    let word = read::word(line, 3);
    match verb {
        verbs::Key::Get => Some(look_up(table, party, number, key, out, at)),
        verbs::Key::List => list(table, party, number, key, word, out, at),
        verbs::Key::Write => write(table, party, number, key, line, out, at),
        verbs::Key::Delete => {
            let clock = read::number(word)?;
            let answer = local::delete(table, party, number, key, clock);
            Some(replay_tell::answer(out, at, answer))
        }
        verbs::Key::DeleteTtl => {
            let clock = read::number(word)?;
            let answer = local::delete_after_ttl(table, party, number, key, clock);
            Some(replay_tell::answer(out, at, answer))
        }
    }
}

pub fn key_call(
    table: &mut [u8],
    party: Party,
    verb: verbs::Key,
    line: &[u8],
    out: &mut [u8],
    at: usize,
) -> Option<usize> {
    let number = read::number(read::word(line, 1))?;
    let mut key = [0u8; TEXT];
    let n = read::bytes(read::word(line, 2), &mut key)?;
    at_key(
        table,
        party,
        verb,
        number,
        read::front(&key, n),
        line,
        out,
        at,
    )
}
