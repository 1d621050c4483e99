// Replays the folder of samples: for each that an argument names, the name, the listing, and what comes of reading that listing back. make.py says
// how the samples, and what must be written for them, were made.
#![tactic(auto)]

use anyhow::{Context, Result};
use delta_make::NotMade;
use rules::sizes;
use std::io::Write;
use std::rt::Files;
use std::{env, fs};

// Whether the delta that was made is the one that was listed.
fn tell<W: Write>(out: &mut W, same: bool) -> Result<()> {
    let said = if same { "made=same\n" } else { "made=other\n" };
    streams::put(out, said.as_bytes())
}

// What comes of the delta's listing, cut into two pieces.
fn read_back<W: Write>(out: &mut W, delta: &[u8], text: &[u8]) -> Result<()> {
    let mut line = [0u8; delta_make::LONGEST_LINE];
    let mut room = [0u8; delta_put::ROOM];
    let (first, rest) = text.split_at(text.len().min(100));
    let begun = delta_make::take_in(delta_make::start(), first, &mut line, &mut room);
    let making = delta_make::take_in(begun, rest, &mut line, &mut room);
    let made = delta_make::finish(making, &room);
    match made {
        Ok(n) => tell(out, fields::same(delta_put::front(&room, n), delta)),
        Err(NotMade::BadLine(_)) => delta_put::put(out, making, &room),
        Err(NotMade::Refused(_)) => delta_put::put(out, making, &room),
    }
}

// The delta's listing, read back.
fn back<W: Write>(out: &mut W, delta: &[u8]) -> Result<()> {
    let mut text = [0u8; listing::LONGEST];
    let listed = listing::list_delta(delta, &mut text);
    match listed {
        Ok(n) => read_back(out, delta, delta_put::front(&text, n)),
        Err(_) => unreachable!(),
    }
}

// The sample of this name.
fn replay<R: Files, W: Write>(rt: &R, out: &mut W, name: &str) -> Result<()> {
    let mut file = fs::open(rt, name).context(format_args!("{name}"))?;
    streams::put(out, name.as_bytes())?;
    streams::put(out, b"\n")?;
    let mut input = [0u8; sizes::LONGEST_DELTA + 1];
    let filled = streams::fill(&mut file, &mut input)?;
    let delta = delta_put::front(&input, filled.len);
    listing_show::show(out, delta)?;
    back(out, delta)
}

fn main(rt: HostRuntime) -> Result<()> {
    let mut out = rt.stdout();
    for name in env::args(&rt)?.skip(1) {
        replay(&rt, &mut out, name.as_str())?;
    }
    Ok(())
}
