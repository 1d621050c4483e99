// Three hubs, in each of the three modes. P owns a meter, F and G follow it, and G hears both. F has heard P before P deleted the tariff and removed it,
// G after. Then G hears F. A plain G takes the tariff from F, and ends at P's very pair with a tariff that P does not have: it is back, for ever. A fenced
// or guarded G is in a reset that F's delta is older than; it answers Fenced, and ends as P is.
use crate::{meeting, say};
use exchange::Exchanged;
use exchange_ask::Stopped;
use inspect::RecordRead;
use inspect_text::Text;
use rules::{Mode, Party, Profile, Status, wire};
use std::io;
use table::layout;

// The number of the meter.
const METER: u64 = 7;

// Nothing is cut.
const MTU: usize = 1000;

fn open(rt: &impl Print, hub: &mut [u8], mode: Mode) -> io::Result<()> {
    say::done(rt, nodes::new_table(hub, mode, Profile::Free))?;
    say::done(rt, nodes::add_node(hub, METER))
}

// ---- what a hub holds

// A record's key and version.
fn say_record(rt: &impl Print, hub: &[u8], j: usize) -> io::Result<()> {
    if let Ok(
        Some(
            RecordRead {
                key: _,
                value: _,
                record: r,
            },
        ),
    ) = inspect::record_at(hub, Party::Nobody, METER, j)
    {
        say::text(rt, b" ")?;
        say::text(
            rt,
            inspect_text::text_at(hub, Party::Nobody, METER, j, Text::Key),
        )?;
        say::number(rt, b"@", r.version)?;
    }
    Ok(())
}

// last_gc and max, and the two records that it may have.
fn say_hub(rt: &impl Print, name: &[u8], hub: &[u8]) -> io::Result<()> {
    say::text(rt, name)?;
    if let Ok(h) = inspect::node_header(hub, METER) {
        say::number(rt, b" (", h.last_gc)?;
        say::number(rt, b",", h.max)?;
        say::text(rt, b")")?;
    }
    say_record(rt, hub, 0)?;
    say_record(rt, hub, 1)?;
    say::text(rt, b"\n")
}

// ---- the exchanges

fn hear(rt: &impl Print, name: &[u8], other: &[u8], hub: &mut [u8]) -> io::Result<()> {
    let mut answers = [0u8; 1];
    let ties = [0u64; 1];
    let e = meeting::hear(other, hub, wire::V0, MTU, &ties, 0, &mut answers);
    say::text(rt, name)?;
    match e {
        Ok(
            Exchanged {
                ops: _,
                bytes: _,
                nodes: _,
            },
        ) => {
            say::answer(rt, answers[0])?;
            say::text(rt, b"\n")
        }
        Err(Stopped { step: _, why }) => say::number(rt, b" refused ", why.number()),
    }
}

// ---- the story

fn set(rt: &impl Print, hub: &mut [u8], key: &[u8], value: &[u8]) -> io::Result<()> {
    say::done(
        rt,
        local::write(hub, Party::Nobody, METER, key, value, Status::Set, 0),
    )
}

// F has both records.
fn begin(rt: &impl Print, p: &mut [u8], f: &mut [u8]) -> io::Result<()> {
    set(rt, p, b"total", b"4127")?;
    set(rt, p, b"tariff", b"night")?;
    hear(rt, b"  F hears P:", p, f)
}

// The tariff is deleted, and its tombstone removed.
fn go_on(rt: &impl Print, p: &mut [u8]) -> io::Result<()> {
    say::done(rt, local::delete(p, Party::Nobody, METER, b"tariff", 0))?;
    say::done(rt, removal::remove_scheduled(p, 0, 0))
}

fn catch_up(rt: &impl Print, p: &[u8], f: &[u8], g: &mut [u8]) -> io::Result<()> {
    hear(rt, b"  G hears P:", p, g)?;
    hear(rt, b"  G hears F:", f, g)?;
    hear(rt, b"  G hears P:", p, g)
}

fn tell_hubs(rt: &impl Print, p: &[u8], f: &[u8], g: &[u8]) -> io::Result<()> {
    say_hub(rt, b"  P", p)?;
    say_hub(rt, b"  F", f)?;
    say_hub(rt, b"  G", g)
}

fn story(rt: &impl Print, mode: Mode) -> io::Result<()> {
    let mut p = [0u8; layout::TABLE];
    let mut f = [0u8; layout::TABLE];
    let mut g = [0u8; layout::TABLE];
    open(rt, &mut p, mode)?;
    open(rt, &mut f, mode)?;
    open(rt, &mut g, mode)?;
    begin(rt, &mut p, &mut f)?;
    go_on(rt, &mut p)?;
    catch_up(rt, &p, &f, &mut g)?;
    tell_hubs(rt, &p, &f, &g)
}

pub fn tell(rt: &impl Print) -> io::Result<()> {
    say::text(rt, b"plain hubs\n")?;
    story(rt, Mode::Plain)?;
    say::text(rt, b"fenced hubs\n")?;
    story(rt, Mode::Fenced)?;
    say::text(rt, b"guarded hubs\n")?;
    story(rt, Mode::Guarded)
}
