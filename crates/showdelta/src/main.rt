// Reads a delta from standard input to its end and writes its listing. One byte over the longest delta is enough to tell that it is too long.
#![tactic(auto)]

use anyhow::Result;
use rules::sizes;

fn main(rt: HostRuntime) -> Result<()> {
    let mut input = [0u8; sizes::LONGEST_DELTA + 1];
    let filled = streams::fill(&mut rt.stdin(), &mut input)?;
    listing_show::show(&mut rt.stdout(), &input[..filled.len])
}
