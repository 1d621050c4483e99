// Four hubs' tables and grids, which hub is current, and what `@digest` and `@delta` stand for.
#![tactic(auto)]

ghost use Rattle.std.specs.Prelude.{◌<◌, IfSome};

use grid::layout as grid_layout;
use replay_words::verbs::Verb;
use replay_words::{print, read, verbs};
use rules::{Mode, Profile, Refusal};
use table::layout;

// Room for a table, good or not: a byte more than a good one has.
pub const TABLE: usize = layout::TABLE + 1;

// How many hubs there are.
const HUBS: usize = 4;

// The rooms of the hubs' tables, one behind the other.
pub const TABLES: usize = HUBS * TABLE;

// Room for a grid, good or not, and the rooms of the hubs' grids.
pub const GRID: usize = grid_layout::GRID + 1;

pub const GRIDS: usize = HUBS * GRID;

// How many bytes of a hub's rooms are its lent table and its lent grid.
#[derive(Clone, Copy)]
pub struct Lent {
    pub table: usize,
    pub grid: usize,
}

// The current hub and party, what each hub has lent, the lengths of the last digest and the last delta, and the output so far.
#[derive(Clone, Copy)]
pub struct Desk {
    pub hub: usize,
    pub party: u64,
    pub lent: [Lent; HUBS],
    pub digest: usize,
    pub delta: usize,
    pub out: usize,
    ghost there: { hub < 4 },
}

impl Desk {
    // All tables are empty, and all grids are of empty tables: without a column, and nobody is present. Nobody calls.
    pub fn new() -> Self {
        let empty = Lent {
            table: layout::TABLE,
            grid: grid_layout::GRID,
        };
        Desk {
            hub: 0,
            party: 0,
            lent: [empty; HUBS],
            digest: 0,
            delta: 0,
            out: 0,
        }
    }

    // How long the current table is.
    pub fn lent(self) -> usize {
        self.lent[self.hub].table
    }

    // The room of the current table.
    pub fn room(self, tables: &mut [u8]) -> &mut [u8] {
        let behind = read::behind_mut(tables, self.hub * TABLE);
        read::front_mut(behind, TABLE)
    }

    // The current table.
    pub fn held(self, tables: &[u8]) -> &[u8] {
        read::front(read::behind(tables, self.hub * TABLE), self.lent())
    }

    // The same desk with another hub, which stands in a word; none where there is no such hub.
    pub fn beside(self, word: &[u8]) -> Option<Self> {
        let hub = hub_of(word)?;
        let mut desk = self;
        desk.hub = hub;
        Some(desk)
    }

    fn with_lent(mut self, n: usize) -> Self {
        self.lent[self.hub].table = n;
        self
    }

    // How long the current grid is.
    pub fn lent_grid(self) -> usize {
        self.lent[self.hub].grid
    }

    // The room of the current grid.
    pub fn grid_room(self, grids: &mut [u8]) -> &mut [u8] {
        let behind = read::behind_mut(grids, self.hub * GRID);
        read::front_mut(behind, GRID)
    }

    pub fn with_grid(mut self, n: usize) -> Self {
        self.lent[self.hub].grid = n;
        self
    }

    pub fn with_out(mut self, at: usize) -> Self {
        self.out = at;
        self
    }
}

// The hub that the word names.
fn hub_of(word: &[u8]) -> Option<usize>
    ensures { IfSome result (λ hub. hub < 4) }
{
    let n = read::number(word)? as usize;
    if n < HUBS {
        return Some(n);
    }
    None
}

// The current hub is changed before the call, so that the checksum is the new one's.
pub fn turned(before: Desk, verb: Verb, line: &[u8]) -> Desk {
    match verb {
        Verb::Shelf(verbs::Shelf::Hub) => before.beside(read::word(line, 1)).unwrap_or(before),
        _ => before,
    }
}

fn done(desk: Desk, out: &mut [u8]) -> Desk {
    desk.with_out(print::text(out, desk.out, b"done"))
}

// Whether there is such a hub was not asked when it was turned to.
fn hub(desk: Desk, line: &[u8], out: &mut [u8]) -> Option<Desk> {
    hub_of(read::word(line, 1))?;
    Some(done(desk, out))
}

// From now on this party calls, by its number; any number is a party's or nobody's.
pub fn party(before: Desk, word: &[u8], out: &mut [u8]) -> Option<Desk> {
    let mut desk = before;
    desk.party = read::number(word)?;
    Some(done(desk, out))
}

// An empty table in this mode, of this profile, in the first bytes of the room.
fn new_table(desk: Desk, mode: Mode, profile: Profile, room: &mut [u8], out: &mut [u8]) -> Desk {
    let answer = nodes::new_table(read::front_mut(room, layout::TABLE), mode, profile);
    let next = replay_tell::answer(out, desk.out, answer);
    desk.with_lent(layout::TABLE).with_out(next)
}

// The same in the mode that has this number. One that names none is 14, and the table stays.
fn make_table(desk: Desk, n: u64, profile: Profile, room: &mut [u8], out: &mut [u8]) -> Desk {
    let named = match n {
        0 => Some(Mode::Plain),
        1 => Some(Mode::Fenced),
        2 => Some(Mode::Guarded),
        _ => None,
    };
    if let Some(mode) = named {
        return new_table(desk, mode, profile, room, out);
    }
    let next = replay_tell::answer(out, desk.out, Err(Refusal::BadTable));
    desk.with_out(next)
}

// The same of the profile that has this number. One that names none is 14 too.
fn make_profile(desk: Desk, mode: u64, n: u64, room: &mut [u8], out: &mut [u8]) -> Desk {
    let named = match n {
        0 => Some(Profile::Free),
        1 => Some(Profile::Meter),
        2 => Some(Profile::Shared),
        _ => None,
    };
    if let Some(profile) = named {
        return make_table(desk, mode, profile, room, out);
    }
    let next = replay_tell::answer(out, desk.out, Err(Refusal::BadTable));
    desk.with_out(next)
}

// A free one in the mode that the word names.
fn make_free(desk: Desk, room: &mut [u8], word: &[u8], out: &mut [u8]) -> Option<Desk> {
    let mode = read::number(word)?;
    Some(make_table(desk, mode, Profile::Free, room, out))
}

// One in the mode and of the profile that two words of the line name.
pub fn make_kind(desk: Desk, room: &mut [u8], line: &[u8], out: &mut [u8]) -> Option<Desk> {
    let mode = read::number(read::word(line, 1))?;
    let profile = read::number(read::word(line, 2))?;
    Some(make_profile(desk, mode, profile, room, out))
}

// From now on the bytes that the word says are the lent table, good or not.
fn take_table(
    desk: Desk,
    room: &mut [u8],
    digest: &[u8],
    delta: &[u8],
    word: &[u8],
    out: &mut [u8],
) -> Option<Desk> {
    let mut given = [0u8; TABLE];
    let n = read::bytes_of(word, digest, delta, &mut given)?;
    let lent = read::copy(read::front(&given, n), room)?;
    Some(done(desk.with_lent(lent), out))
}

fn dump(desk: Desk, room: &[u8], out: &mut [u8]) -> Desk {
    let next = replay_tell::named(out, desk.out, b"table ", read::front(room, desk.lent()));
    desk.with_out(next)
}

// Overrides without a record in the first bytes of the room, in place of a table.
pub fn new_overrides(desk: Desk, room: &mut [u8], word: &[u8], out: &mut [u8]) -> Option<Desk> {
    let n = read::number(word)?;
    let answer = overrides::new_overrides(read::front_mut(room, layout::NODE), n);
    let next = replay_tell::answer(out, desk.out, answer);
    Some(desk.with_lent(layout::NODE).with_out(next))
}

// The calls of the desk itself, on the room of the current hub's table.
pub fn shelf_call(
    desk: Desk,
    verb: verbs::Shelf,
    room: &mut [u8],
    digest: &[u8],
    delta: &[u8],
    line: &[u8],
    out: &mut [u8],
) -> Option<Desk> {
    match verb {
        verbs::Shelf::New => Some(new_table(desk, Mode::Plain, Profile::Free, room, out)),
        verbs::Shelf::Make => make_free(desk, room, read::word(line, 1), out),
        verbs::Shelf::Hub => hub(desk, line, out),
        verbs::Shelf::Dump => Some(dump(desk, room, out)),
        verbs::Shelf::Table => take_table(desk, room, digest, delta, read::word(line, 1), out),
    }
}
