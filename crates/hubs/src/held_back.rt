// One delta is held back by the radio and delivered late, to a plain follower and then to a fenced one. While it was on its way the tariff that it brings was
// deleted and removed at the publisher, and the follower began a reset that the MTU cut short. The plain follower takes the late delta, and the tariff
// is there again, though every max is equal in the end. The fenced one answers Fenced and stays as it is.
use crate::{meeting, say};
use exchange::Exchanged;
use exchange_ask::Stopped;
use lookup::Found;
use rules::{DeltaFault, Mode, Party, Profile, Sent, Status, wire};
use std::io;
use table::layout;

// The number of the meter.
const METER: u64 = 7;

// The least there is: a Node and one short record.
const MTU: usize = 100;

// The digest of one node.
const DIGEST: usize = wire::COUNT_WIDTH + wire::ENTRY_WIDTH;

// The delta that is held back: a Node, and a record of 14 bytes with a key of 6 and a value of 5.
const LATE: usize = wire::NODE_WIDTH + 25;

fn open(rt: &impl Print, hub: &mut [u8], mode: Mode) -> io::Result<()> {
    say::done(rt, nodes::new_table(hub, mode, Profile::Free))?;
    say::done(rt, nodes::add_node(hub, METER))
}

// One exchange at the least MTU.
fn meet(rt: &impl Print, publisher: &[u8], follower: &mut [u8]) -> io::Result<()> {
    let mut answers = [0u8; 1];
    let ties = [0u64; 1];
    let e = meeting::hear(publisher, follower, wire::V0, MTU, &ties, 0, &mut answers);
    match e {
        Ok(
            Exchanged {
                ops: _,
                bytes: _,
                nodes: _,
            },
        ) => {
            say::text(rt, b"  exchange:")?;
            say::answer(rt, answers[0])?;
            say::text(rt, b"\n")
        }
        Err(Stopped { step: _, why }) => say::number(rt, b"refused ", why.number()),
    }
}

// The delta that the follower's digest asks for. It goes on its way.
fn send(rt: &impl Print, publisher: &[u8], follower: &[u8], delta: &mut [u8]) -> io::Result<()> {
    let mut digest = [0u8; DIGEST];
    let none = [0u64; 0];
    let ties = [0u64; 1];
    match digest_write::write_digest(follower, wire::V0, &none, &mut digest, 0) {
        Ok(_) => {}
        Err(r) => say::number(rt, b"refused ", r.number())?,
    }
    match compute::compute(publisher, wire::V0, &digest, MTU, &none, &ties, delta, 0) {
        Ok(Sent { ops: _, bytes }) => {
            say::number(rt, b"  held back: a delta of ", bytes as u64)?
        }
        Err(r) => say::number(rt, b"refused ", r.number())?,
    }
    say::text(rt, b" bytes\n")
}

// The delta's bytes, of the room that was lent for it.
fn front(room: &[u8]) -> &[u8] {
    &room[..LATE.min(room.len())]
}

fn deliver(rt: &impl Print, follower: &mut [u8], delta: &[u8]) -> io::Result<()> {
    let mut answers = [0u8; 1];
    match apply::apply(follower, delta, 0, &mut answers) {
        Ok(_) => {
            say::text(rt, b"  delivered late:")?;
            say::answer(rt, answers[0])?;
            say::text(rt, b"\n")
        }
        Err(DeltaFault { why, at: _ }) => say::number(rt, b"refused ", why.number()),
    }
}

fn say_tariff(rt: &impl Print, name: &[u8], hub: &[u8]) -> io::Result<()> {
    say::text(rt, name)?;
    match lookup::find(hub, Party::Nobody, METER, b"tariff") {
        Ok(Some(Found { start: _, len: _ })) => say::text(rt, b" has a tariff\n"),
        Ok(None) => say::text(rt, b" has no tariff\n"),
        Err(r) => say::number(rt, b"refused ", r.number()),
    }
}

fn set(rt: &impl Print, hub: &mut [u8], key: &[u8], value: &[u8]) -> io::Result<()> {
    say::done(
        rt,
        local::write(hub, Party::Nobody, METER, key, value, Status::Set, 0),
    )
}

// Up to the delta that is held back.
fn hold_back(
    rt: &impl Print,
    publisher: &mut [u8],
    follower: &mut [u8],
    late: &mut [u8],
) -> io::Result<()> {
    set(rt, publisher, b"total", b"4127")?;
    meet(rt, publisher, follower)?;
    set(rt, publisher, b"tariff", b"night")?;
    send(rt, publisher, follower, late)
}

// While it is on its way.
fn go_on(rt: &impl Print, publisher: &mut [u8], follower: &mut [u8]) -> io::Result<()> {
    say::done(
        rt,
        local::delete(publisher, Party::Nobody, METER, b"tariff", 0),
    )?;
    say::done(rt, removal::remove_scheduled(publisher, 0, 0))?;
    set(
        rt,
        publisher,
        b"note",
        b"the meter was exchanged on the first of May",
    )?;
    meet(rt, publisher, follower)
}

// It arrives, and one exchange later every max is equal.
fn arrive(rt: &impl Print, publisher: &[u8], follower: &mut [u8], late: &[u8]) -> io::Result<()> {
    deliver(rt, follower, front(late))?;
    meet(rt, publisher, follower)?;
    say_tariff(rt, b"  the publisher", publisher)?;
    say_tariff(rt, b"  the follower", follower)
}

fn story(rt: &impl Print, mode: Mode) -> io::Result<()> {
    let mut publisher = [0u8; layout::TABLE];
    let mut follower = [0u8; layout::TABLE];
    let mut late = [0u8; MTU];
    open(rt, &mut publisher, Mode::Plain)?;
    open(rt, &mut follower, mode)?;
    hold_back(rt, &mut publisher, &mut follower, &mut late)?;
    go_on(rt, &mut publisher, &mut follower)?;
    arrive(rt, &publisher, &mut follower, &late)
}

pub fn tell(rt: &impl Print) -> io::Result<()> {
    say::text(rt, b"a plain follower\n")?;
    story(rt, Mode::Plain)?;
    say::text(rt, b"a fenced follower\n")?;
    story(rt, Mode::Fenced)
}
