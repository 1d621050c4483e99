// The calls on a hub's grid, which lies beside its table. Where a word is none that the call takes, nothing is written
// and there is no answer.
#![tactic(auto)]

use grid::layout;
use replay_desk::Desk;
use replay_words::verbs::Verb;
use replay_words::{print, read, verbs};
use rules::{Pair, Refusal};

// ---- answers

fn tell_least(out: &mut [u8], at: usize, least: Result<u64, Refusal>) -> usize {
    match least {
        Ok(max) => {
            let next = print::text(out, at, b"least ");
            print::decimal(out, next, max)
        }
        Err(why) => replay_tell::refused(out, at, why),
    }
}

fn tell_seen(out: &mut [u8], at: usize, seen: Result<Option<Pair>, Refusal>) -> usize {
    match seen {
        Ok(Some(Pair { last_gc, max })) => {
            let next = print::text(out, at, b"told ");
            let colon = print::decimal(out, next, last_gc);
            let behind = print::byte(out, colon, b':');
            print::decimal(out, behind, max)
        }
        Ok(None) => print::text(out, at, b"absent"),
        Err(why) => replay_tell::refused(out, at, why),
    }
}

// ---- the calls of the crate `peers`

// Those that take numbers, and a told digest: behind the peer come its bytes and the edition.
fn peer_call(
    grid: &mut [u8],
    table: &mut [u8],
    verb: verbs::Peers,
    digest: &[u8],
    delta: &[u8],
    line: &[u8],
    out: &mut [u8],
    at: usize,
) -> Option<usize> {
    let number = read::number(read::word(line, 1))?;
    let next = match verb {
        verbs::Peers::Add => replay_tell::answer(out, at, peers::add_node(grid, table, number)),
        verbs::Peers::Remove => {
            replay_tell::answer(out, at, peers::remove_node(grid, table, number))
        }
        verbs::Peers::TakeOut => replay_tell::answer(out, at, peers::take_out(grid, number)),
        verbs::Peers::Least => tell_least(out, at, peers::least_max(grid, number)),
        verbs::Peers::Told => {
            let node = read::number(read::word(line, 2))?;
            tell_seen(out, at, peers::told(grid, number, node))
        }
        verbs::Peers::Careful => {
            let grace = read::number(read::word(line, 2))?;
            let answer = peers::remove_carefully(grid, table, number, grace);
            replay_tell::answer(out, at, answer)
        }
        verbs::Peers::Tell => {
            let edition = read::number(read::word(line, 3))?;
            let mut given = [0u8; replay_desk::TABLE];
            let n = read::bytes_of(read::word(line, 2), digest, delta, &mut given)?;
            let answer = peers::tell(grid, number, edition, read::front(&given, n));
            replay_tell::answer(out, at, answer)
        }
    };
    Some(next)
}

// ---- the grid as bytes

// From now on the bytes that the word says are the lent grid, good or not.
fn take_grid(
    desk: Desk,
    room: &mut [u8],
    digest: &[u8],
    delta: &[u8],
    word: &[u8],
    out: &mut [u8],
) -> Option<Desk> {
    let mut given = [0u8; replay_desk::GRID];
    let n = read::bytes_of(word, digest, delta, &mut given)?;
    let lent = read::copy(read::front(&given, n), room)?;
    let next = print::text(out, desk.out, b"done");
    Some(desk.with_grid(lent).with_out(next))
}

// One call on the room of the current hub's grid and its table.
pub fn grid_call(
    desk: Desk,
    verb: verbs::Grid,
    room: &mut [u8],
    table: &mut [u8],
    digest: &[u8],
    delta: &[u8],
    line: &[u8],
    out: &mut [u8],
) -> Option<Desk> {
    let at = desk.out;
    let n = desk.lent_grid();
    match verb {
        verbs::Grid::New => {
            let answer = peers::new_grid(read::front_mut(room, n), table);
            Some(desk.with_out(replay_tell::answer(out, at, answer)))
        }
        verbs::Grid::Take => take_grid(desk, room, digest, delta, read::word(line, 1), out),
        verbs::Grid::Dump => {
            let next = replay_tell::named(out, at, b"grid ", read::front(room, n));
            Some(desk.with_out(next))
        }
        verbs::Grid::Peers(verb) => {
            let grid = read::front_mut(room, n);
            let next = peer_call(grid, table, verb, digest, delta, line, out, at)?;
            Some(desk.with_out(next))
        }
    }
}

// Whether the word is a number below a bound.
fn is_below(word: &[u8], bound: u64) -> bool {
    read::number(word).is_some_and(|n| n < bound)
}

// Whether the line makes a table.
fn makes(verb: Verb, line: &[u8]) -> bool {
    match verb {
        Verb::Shelf(verbs::Shelf::New) => true,
        Verb::Shelf(verbs::Shelf::Make) => is_below(read::word(line, 1), 3),
        Verb::Kind => is_below(read::word(line, 1), 3) && is_below(read::word(line, 2), 3),
        _ => false,
    }
}

// Where the line made a table, its grid is made too: without a column, and nobody is present.
pub fn renewed(desk: Desk, verb: Verb, room: &mut [u8], table: &[u8], line: &[u8]) -> Desk {
    if makes(verb, line) {
        let grid = read::front_mut(room, layout::GRID);
        let _ = peers::new_grid(grid, table);
        return desk.with_grid(layout::GRID);
    }
    desk
}

// Behind the answer to a call on a grid, and behind the table's checksum, comes the grid's.
pub fn checksum(desk: Desk, verb: Verb, room: &[u8], out: &mut [u8], at: usize) -> usize {
    match verb {
        Verb::Grid(_) => replay_tell::checksum::told(out, at, read::front(room, desk.lent_grid())),
        _ => at,
    }
}
