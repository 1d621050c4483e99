// Reading a whole delta: its verdict, and where its node deltas stand. Its operations are read one by one by `delta_op`, and each must be one that may
// follow those before it (`delta_follow`). What is answered is what the definitions of `rules` say.
#![tactic(auto)]

ghost use Rattle.std.specs.Prelude.{◌≡◌, Err, length};
ghost use Rattle.rules.specs.Answers.{read_told};
ghost use Rattle.rules.specs.Given.{Says};
ghost use Rattle.rules.specs.Sizes.{max_nodes};
ghost use Rattle.rules.specs.Delta.{delta_read};
ghost use Rattle.delta_read.specs.NodeDeltas.{AllHeads};

use delta_follow::Followed;
use rules::{DeltaFault, DeltaRead, Refusal, sizes};

// A delta's verdict and, where it is accepted, each of its node deltas: where its Node stands, how many operations stand behind that Node at most, and
// the running max at their end.
#[derive(Clone, Copy)]
pub struct Heads {
    pub read: Result<DeltaRead, DeltaFault>,
    pub at: [usize; sizes::NODES],
    pub count: [usize; sizes::NODES],
    pub max: [u64; sizes::NODES],
}

// A delta that is refused.
fn refused(why: Refusal, at: usize) -> Heads
    ensures { (result.read ≡ Err (record { why = why; at = at }))
        × (length result.at ≡ max_nodes) × (length result.count ≡ max_nodes) × (length result.max ≡ max_nodes) }
{
    Heads {
        read: Err(DeltaFault { why, at }),
        at: [0usize; sizes::NODES],
        count: [0usize; sizes::NODES],
        max: [0u64; sizes::NODES],
    }
}

// The verdict on a delta, and its node deltas. One pass: who applies the delta need not look for its node deltas again.
pub fn read_heads(delta: &[u8]) -> Heads
    ensures { (result.read ≡ delta_read delta.now) × AllHeads delta.now result.at result.count result.max }
{
    if sizes::LONGEST_DELTA < delta.len() {
        return refused(Refusal::TooMany, 0);
    }
    let mut places = [0usize; sizes::NODES];
    let mut counts = [0usize; sizes::NODES];
    let mut maxes = [0u64; sizes::NODES];
    let mut seen = [0u64; sizes::NODES];
    let mut nodes: usize = 0;
    let mut running: u64 = 0;
    // The last node delta: its place among them, and how many operations stand before those behind its Node. Its count and max are written down where
    // the next Node enters, and at the end; before the first Node what is written there is of no use.
    let mut last: usize = 0;
    let mut first: usize = 0;
    let mut ops: usize = 0;
    let mut at: usize = 0;
    // An operation is as long as its texts, so the place goes by variable steps.
    while at < delta.len() {
        let (op, next) = match delta_op::read_op(delta, at) {
            Ok(read) => read,
            Err(why) => return refused(why, at),
        };
        let followed = match delta_follow::follow(&seen, nodes, running, op) {
            Ok(followed) => followed,
            Err(fault) => return refused(fault, at),
        };
        match followed {
            Followed::Entered(number) => {
                counts[last] = ops - first;
                maxes[last] = running;
                seen[nodes] = number;
                places[nodes] = at;
                last = nodes;
                first = ops + 1;
                nodes += 1;
                running = 0;
            }
            Followed::Under(version) => running = version,
        }
        ops += 1;
        at = next;
    }
    counts[last] = ops - first;
    maxes[last] = running;
    Heads {
        read: Ok(DeltaRead { ops, nodes }),
        at: places,
        count: counts,
        max: maxes,
    }
}

// How many operations and nodes the delta holds, or why it is refused and where the tag of the faulty operation stands. One pass.
pub fn read_delta(delta: &[u8]) -> Result<DeltaRead, DeltaFault>
    ensures { Says read_told (delta_read delta.now) result }
{
    let heads = read_heads(delta);
    heads.read
}
