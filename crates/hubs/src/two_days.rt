// Two hubs with the same two meters. On each of two days the first hub takes readings, and the second follows it by exchanges of at most 135 bytes, until every
// max is equal. It takes no more exchanges than the first hub holds records and nodes, as demand 3 says. On the second day readings are deleted and
// removed before the second hub hears of it: they do not come back.
use crate::{meeting, say};
use exchange::Exchanged;
use exchange_ask::{Step, Stopped};
use inspect::RecordRead;
use inspect_text::Text;
use rules::{Header, Mode, Party, Profile, Refusal, Status, sizes, wire};
use std::io;
use table::layout;

// The numbers of the two meters.
const POWER: u64 = 7;

const WATER: u64 = 12;

// A Node and the largest record fit.
const MTU: usize = 135;

// ---- the first hub's readings

fn open(rt: &impl Print, hub: &mut [u8]) -> io::Result<()> {
    say::done(rt, nodes::new_table(hub, Mode::Plain, Profile::Free))?;
    say::done(rt, nodes::add_node(hub, POWER))?;
    say::done(rt, nodes::add_node(hub, WATER))
}

// A reading that stays until another takes its place.
fn read_off(
    rt: &impl Print,
    hub: &mut [u8],
    number: u64,
    key: &[u8],
    value: &[u8],
) -> io::Result<()> {
    say::done(
        rt,
        local::write(hub, Party::Nobody, number, key, value, Status::Set, 0),
    )
}

fn first_day_power(rt: &impl Print, hub: &mut [u8]) -> io::Result<()> {
    read_off(rt, hub, POWER, b"total", b"004127.3 kWh")?;
    read_off(
        rt,
        hub,
        POWER,
        b"load",
        b"0.4 0.3 0.3 0.2 0.9 1.7 2.2 1.1 0.8 0.7 0.6 1.3",
    )?;
    read_off(rt, hub, POWER, b"tariff", b"night")
}

fn first_day_water(rt: &impl Print, hub: &mut [u8]) -> io::Result<()> {
    read_off(rt, hub, WATER, b"total", b"000088.031 m3")?;
    read_off(rt, hub, WATER, b"flow", b"0 0 0 3 11 4 2 0 0 6 9 1")?;
    say::done(
        rt,
        local::write(
            hub,
            Party::Nobody,
            WATER,
            b"valve",
            b"open",
            Status::Ttl,
            1000,
        ),
    )
}

// The tariff is deleted, and the valve's time has come: the removal takes both. The flow is to go later.
fn second_day(rt: &impl Print, hub: &mut [u8]) -> io::Result<()> {
    read_off(rt, hub, POWER, b"total", b"004139.0 kWh")?;
    say::done(
        rt,
        local::delete(hub, Party::Nobody, POWER, b"tariff", 50000),
    )?;
    say::done(
        rt,
        local::delete_after_ttl(hub, Party::Nobody, WATER, b"flow", 80000),
    )?;
    say::done(rt, removal::remove_scheduled(hub, 90000, 30000))
}

// ---- what a hub holds

fn count(c: Result<usize, Refusal>) -> u64 {
    match c {
        Ok(n) => n as u64,
        Err(_) => 0,
    }
}

// Records, tombstones and TTL records counted, and nodes together.
fn holdings(hub: &[u8]) -> u64 {
    let records = std::num::wrapping_add_u64(
        count(inspect::record_count(hub, Party::Nobody, POWER)),
        count(inspect::record_count(hub, Party::Nobody, WATER)),
    );
    std::num::wrapping_add_u64(records, count(inspect::node_count(hub)))
}

fn max_of(hub: &[u8], number: u64) -> u64 {
    match inspect::node_header(hub, number) {
        Ok(h) => h.max,
        Err(_) => 0,
    }
}

// Whether every max is equal.
fn agree(a: &[u8], b: &[u8]) -> bool {
    if max_of(a, POWER) != max_of(b, POWER) {
        return false;
    }
    max_of(a, WATER) == max_of(b, WATER)
}

// ---- what is printed

// A Set record, as node, key, value and version.
fn say_record(rt: &impl Print, hub: &[u8], number: u64, j: usize) -> io::Result<()> {
    if let Ok(
        Some(
            RecordRead {
                key: _,
                value: _,
                record: r,
            },
        ),
    ) = inspect::record_at(hub, Party::Nobody, number, j)
    {
        let status = r.status;
        if let Status::Set = status {
            say::number(rt, b"  ", number)?;
            say::text(rt, b" ")?;
            say::text(
                rt,
                inspect_text::text_at(hub, Party::Nobody, number, j, Text::Key),
            )?;
            say::text(rt, b" = ")?;
            say::text(
                rt,
                inspect_text::text_at(hub, Party::Nobody, number, j, Text::Value),
            )?;
            say::number(rt, b" at version ", r.version)?;
            say::text(rt, b"\n")?;
        }
    }
    Ok(())
}

fn say_node(rt: &impl Print, hub: &[u8], number: u64) -> io::Result<()> {
    for j in 0..Header::RECORDS {
        say_record(rt, hub, number, j)?;
    }
    Ok(())
}

fn say_hub(rt: &impl Print, name: &[u8], hub: &[u8]) -> io::Result<()> {
    say::text(rt, name)?;
    say::text(rt, b" holds\n")?;
    say_node(rt, hub, POWER)?;
    say_node(rt, hub, WATER)
}

fn say_answers(rt: &impl Print, answers: &[u8], n: usize) -> io::Result<()> {
    for code in answers.iter().take(n) {
        say::answer(rt, *code)?;
    }
    say::text(rt, b"\n")
}

fn say_refused(rt: &impl Print, step: Step, why: Refusal) -> io::Result<()> {
    match step {
        Step::Digest => say::text(rt, b": the digest is")?,
        Step::Delta => say::text(rt, b": the delta is")?,
        Step::Applying => say::text(rt, b": applying is")?,
    }
    say::number(rt, b" refused with ", why.number())?;
    say::text(rt, b"\n")
}

fn say_exchange(
    rt: &impl Print,
    i: u64,
    e: Result<Exchanged, Stopped>,
    answers: &[u8],
) -> io::Result<()> {
    say::number(rt, b"exchange ", i)?;
    match e {
        Ok(Exchanged { ops, bytes, nodes }) => {
            say::number(rt, b": ops=", ops as u64)?;
            say::number(rt, b" bytes=", bytes as u64)?;
            say::text(rt, b" answers:")?;
            say_answers(rt, answers, nodes)
        }
        Err(Stopped { step, why }) => say_refused(rt, step, why),
    }
}

// ---- the exchanges

// One exchange: the digest is of the second edition, and the nodes go by their numbers.
fn step(
    rt: &impl Print,
    i: u64,
    publisher: &[u8],
    follower: &mut [u8],
    clock: u64,
) -> io::Result<()> {
    let mut answers = [0u8; sizes::NODES];
    let ties = [0u64; 2];
    let e = meeting::hear(
        publisher,
        follower,
        wire::V1,
        MTU,
        &ties,
        clock,
        &mut answers,
    );
    say_exchange(rt, i, e, &answers)
}

// Exchanges until every max is equal; how many there were.
fn catch_up(
    rt: &impl Print,
    publisher: &[u8],
    follower: &mut [u8],
    clock: u64,
    most: u64,
) -> io::Result<u64> {
    for i in 0..most {
        if agree(publisher, follower) {
            return Ok(i);
        }
        step(rt, i + 1, publisher, follower, clock)?;
    }
    Ok(most)
}

fn meet(rt: &impl Print, publisher: &[u8], follower: &mut [u8], clock: u64) -> io::Result<()> {
    let most = holdings(publisher);
    let n = catch_up(rt, publisher, follower, clock, most)?;
    if agree(publisher, follower) {
        say::number(rt, b"every max is equal after ", n)?;
    } else {
        say::number(rt, b"not yet equal after ", n)?;
    }
    say::number(rt, b" exchanges; records and nodes: ", most)?;
    say::text(rt, b"\n")
}

// ---- the two days

fn follow_first_day(rt: &impl Print, first: &mut [u8], second: &mut [u8]) -> io::Result<()> {
    first_day_power(rt, first)?;
    first_day_water(rt, first)?;
    meet(rt, first, second, 2000)?;
    say_hub(rt, b"the second hub", second)
}

fn follow_second_day(rt: &impl Print, first: &mut [u8], second: &mut [u8]) -> io::Result<()> {
    second_day(rt, first)?;
    meet(rt, first, second, 91000)?;
    say_hub(rt, b"the first hub", first)?;
    say_hub(rt, b"the second hub", second)
}

pub fn tell(rt: &impl Print) -> io::Result<()> {
    let mut first = [0u8; layout::TABLE];
    let mut second = [0u8; layout::TABLE];
    open(rt, &mut first)?;
    open(rt, &mut second)?;
    follow_first_day(rt, &mut first, &mut second)?;
    follow_second_day(rt, &mut first, &mut second)
}
