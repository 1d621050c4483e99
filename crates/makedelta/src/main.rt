// Reads a listing from standard input to its end and writes the bytes of its delta, or the one line that says why there is none.
#![tactic(auto)]

use anyhow::Result;

fn main(rt: HostRuntime) -> Result<()> {
    let mut delta = [0u8; delta_put::ROOM];
    if let Some(making) = delta_put::take_all(&mut rt.stdin(), &mut delta)? {
        delta_put::put(&mut rt.stdout(), making, &delta)?;
    }
    Ok(())
}
