// Plans for the air time: a radio planner's list of node numbers, and how many stale records of each are to be sent. When a plan is accepted and what it sends
// stands in specs/Plan; which line of it is at fault, and why, in specs/Faults. Here are the types that code and definitions share.
#![tactic(auto)]

ghost use Rattle.std.specs.Prelude.{◌≡◌};
ghost use Rattle.plan.specs.Faults.{fault_code};

use rules::Refusal;

// Why a line of a plan cannot be sent.
#[derive(Clone, Copy)]
pub enum Fault {
    // The table has no such node.
    NotHeld,
    // The node is excluded.
    Excluded,
    // A line before it names the same node.
    NamedBefore,
    // The digest is not behind with the node: document 01 skips it.
    UpToDate,
    // The count is above the node's stale records.
    TooMany,
    // The count is 0, though the node has stale records.
    TooFew,
    // Its operations do not fit into what the lines before it leave of the MTU.
    NoFit,
    // A node without a count or a count without a node: the two lists are not as long as each other.
    Alone,
}

impl Fault {
    // The number that stands for it.
    pub fn code(self) -> u64
        ensures { result ≡ fault_code self }
    {
        match self {
            Fault::NotHeld => 1,
            Fault::Excluded => 2,
            Fault::NamedBefore => 3,
            Fault::UpToDate => 4,
            Fault::TooMany => 5,
            Fault::TooFew => 6,
            Fault::NoFit => 7,
            Fault::Alone => 8,
        }
    }
}

// Why a plan cannot be sent: the first line at fault, counted from 0, and what is wrong with it; or the call is refused.
#[derive(Clone, Copy)]
pub enum NotSent {
    AtFault { line: usize, why: Fault },
    Refused(Refusal),
}
