// Replays the folder of listings: for each that an argument names, the name and what comes of it, an accepted delta as it is listed. make.py says how
// they, and what must be written for them, were made.
#![tactic(auto)]

use anyhow::{Context, Result};
use std::io::Write;
use std::rt::Files;
use std::{env, fs};

// The listing of this name. Answers whether it was read to its end.
fn replay<R: Files, W: Write>(rt: &R, out: &mut W, name: &str) -> Result<bool> {
    let mut file = fs::open(rt, name).context(format_args!("{name}"))?;
    streams::put(out, name.as_bytes())?;
    streams::put(out, b"\n")?;
    let mut delta = [0u8; delta_put::ROOM];
    let Some(making) = delta_put::take_all(&mut file, &mut delta)? else {
        return Ok(false);
    };
    delta_put::show(out, making, &delta)?;
    Ok(true)
}

fn main(rt: HostRuntime) -> Result<()> {
    let mut out = rt.stdout();
    for name in env::args(&rt)?.skip(1) {
        if !replay(&rt, &mut out, name.as_str())? {
            break;
        }
    }
    Ok(())
}
