// A delta made from its whole listing, into lent memory: the steps of `delta_make` over memory of its own, and the delta copied at the end. So a call that is
// refused leaves every byte as it was.
#![tactic(auto)]

ghost use Rattle.std.specs.Prelude.{◌≤◌, length, take};
ghost use Rattle.rules.specs.Given.{Gives};
ghost use Rattle.listing_make.specs.Make.{lent_make, placed};

use delta_make::NotMade;
use rules::{DeltaFault, Refusal, sizes};

// The first `n` bytes of a delta, where they have room.
fn place(n: usize, delta: &[u8], out: &mut [u8]) -> Result<usize, NotMade>
    requires { n ≤ length delta.now }
    ensures { Gives (placed (take n delta.now) out.old) result out.new }
{
    if out.len() < n {
        return Err(NotMade::Refused(DeltaFault {
            why: Refusal::NoPlace,
            at: 0,
        }));
    }
    fields::copy_to(out, 0, &delta[..n]);
    Ok(n)
}

// The delta that the listing tells, at the front of `out`: 16, 13, 11, 12, 8.
pub fn make_delta(text: &[u8], out: &mut [u8]) -> Result<usize, NotMade>
    ensures { Gives (lent_make text.now out.old) result out.new }
{
    let mut line = [0u8; delta_make::LONGEST_LINE];
    let mut delta = [0u8; sizes::LONGEST_DELTA];
    let making = delta_make::take_in(delta_make::start(), text, &mut line, &mut delta);
    let n = delta_make::finish(making, &delta)?;
    place(n, &delta, out)
}
