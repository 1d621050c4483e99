// Lists the folder of stored tables: for each that an argument names, the name and the listing. make.py says how the samples, and what must be written for
// them, were made.
#![tactic(auto)]

use anyhow::{Context, Result};
use std::io::Write;
use std::rt::Files;
use std::{env, fs};
use table_look::ROOM;

// The sample of this name.
fn list<R: Files, W: Write>(rt: &R, out: &mut W, name: &str) -> Result<()> {
    let mut file = fs::open(rt, name).context(format_args!("{name}"))?;
    streams::put(out, name.as_bytes())?;
    streams::put(out, b"\n")?;
    let mut input = [0u8; ROOM];
    let filled = streams::fill(&mut file, &mut input)?;
    let table = table_look::table_in(&input[..filled.len]);
    table_look::show(out, table)
}

fn main(rt: HostRuntime) -> Result<()> {
    let mut out = rt.stdout();
    for name in env::args(&rt)?.skip(1) {
        list(&rt, &mut out, name.as_str())?;
    }
    Ok(())
}
