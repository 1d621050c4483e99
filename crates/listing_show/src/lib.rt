// Writes the listing of a delta. The buffer has room for every listing (listing/proofs/Lines.antt), and nothing is written before the whole listing
// stands in it.
#![tactic(auto)]

ghost use Rattle.std.specs.Prelude.{OnOk};
ghost use Rattle.std.specs.Io.KnownBytes.{Appends};
ghost use Rattle.rules.specs.Listing.{listing};

use anyhow::Result;
use std::io::Write;

pub fn show<W: Write>(out: &mut W, delta: &[u8]) -> Result<()>
    ensures { OnOk result (Appends (W.contents out.old) (W.contents out.new) (listing delta.now)) }
{
    let mut output = [0u8; listing::LONGEST];
    let listed = listing::list_delta(delta, &mut output);
    match listed {
        Ok(n) => streams::put(out, &output[..n]),
        Err(_) => unreachable!(),
    }
}
