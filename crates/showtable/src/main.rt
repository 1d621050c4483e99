// Reads a stored table from standard input to its end and writes its listing. Of a file that is longer than the room only that it is too long is told.
#![tactic(auto)]

use anyhow::Result;
use table_look::ROOM;

fn main(rt: HostRuntime) -> Result<()> {
    let mut input = [0u8; ROOM];
    let filled = streams::fill(&mut rt.stdin(), &mut input)?;
    let table = table_look::table_in(&input[..filled.len]);
    table_look::show(&mut rt.stdout(), table)
}
