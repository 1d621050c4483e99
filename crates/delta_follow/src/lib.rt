// Whether an operation of a delta may follow those before it: each Node once and no more than eight, records and SetMaxVersion under a Node by rising versions.
// It goes by the numbers of the nodes seen so far and the running max under the last of them (specs/Following.antt).
#![tactic(auto)]

ghost use Rattle.std.specs.Prelude.{◌≡◌, ◌≤◌};
ghost use Rattle.rules.specs.Sizes.{max_nodes};
ghost use Rattle.rules.specs.Table.{among};
ghost use Rattle.delta_follow.specs.Following.{follow_at, max_follows, node_follows, record_follows, seen_of};

use delta_op::Op;
use rules::{Refusal, sizes};

// What an operation leaves that may stand where it does: a Node is entered, or the running max is this one from here on.
#[derive(Clone, Copy)]
pub enum Followed {
    Entered(u64),
    Under(u64),
}

// Whether the number is one of the first `nodes`.
fn is_seen(seen: &[u64; sizes::NODES], nodes: usize, number: u64) -> bool
    requires { nodes ≤ max_nodes }
    ensures { result ≡ among number (seen_of nodes seen.now) }
{
    seen[..nodes].contains(&number)
}

// A Node: not repeated, and not the ninth.
#[tactic(auto, unfolding(crate::specs::Following::node_follows))]
fn follow_node(seen: &[u64; sizes::NODES], nodes: usize, number: u64) -> Result<Followed, Refusal>
    requires { nodes ≤ max_nodes }
    ensures { result ≡ node_follows nodes seen.now number }
{
    if is_seen(seen, nodes, number) {
        return Err(Refusal::NodeTwice);
    }
    if nodes < sizes::NODES {
        return Ok(Followed::Entered(number));
    }
    Err(Refusal::TooMany)
}

// A record: under a Node, with a version above the running max.
#[tactic(auto, unfolding(crate::specs::Following::record_follows))]
fn follow_record(nodes: usize, running: u64, version: u64) -> Result<Followed, Refusal>
    ensures { result ≡ record_follows nodes running version }
{
    if nodes == 0 {
        return Err(Refusal::OutOfOrder);
    }
    if running < version {
        return Ok(Followed::Under(version));
    }
    Err(Refusal::OutOfOrder)
}

// A SetMaxVersion: under a Node, and not below the running max.
#[tactic(auto, unfolding(crate::specs::Following::max_follows))]
fn follow_max(nodes: usize, running: u64, max: u64) -> Result<Followed, Refusal>
    ensures { result ≡ max_follows nodes running max }
{
    if nodes == 0 {
        return Err(Refusal::OutOfOrder);
    }
    if running <= max {
        return Ok(Followed::Under(max));
    }
    Err(Refusal::OutOfOrder)
}

// Whether the operation may follow, where `nodes` nodes are seen and the running max is `running`.
#[tactic(auto, unfolding(crate::specs::Following::follow_at))]
pub fn follow(
    seen: &[u64; sizes::NODES],
    nodes: usize,
    running: u64,
    op: Op,
) -> Result<Followed, Refusal>
    requires { nodes ≤ max_nodes }
    ensures { result ≡ follow_at nodes seen.now running op }
{
    match op {
        Op::Node {
            number,
            last_gc: _,
            from: _,
        } => follow_node(seen, nodes, number),
        Op::KeyValue {
            keyat: _,
            keylen: _,
            valueat: _,
            valuelen: _,
            version,
            status: _,
        } => follow_record(nodes, running, version),
        Op::SetMaxVersion { max } => follow_max(nodes, running, max),
    }
}
