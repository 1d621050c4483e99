// Which nodes a delta names, in stream order, for hubs that log or filter. Nothing is applied, and no table is asked for. A delta that reading refuses is
// refused here with the same number and place.
#![tactic(auto)]

ghost use Rattle.std.specs.Prelude.{◌≡◌, ◌≤◌, length};
ghost use Rattle.fields.specs.Parts.{put};
ghost use Rattle.rules.specs.Answers.{applied_told};
ghost use Rattle.rules.specs.Given.{Tells};
ghost use Rattle.rules.specs.Sizes.{max_nodes};
ghost use Rattle.delta_names.specs.Names.{NodesLie, delta_nodes, numbers_at};

use rules::{DeltaFault, Refusal, sizes, wire};

// The numbers of the first `n` Nodes, whose places are known.
fn put_numbers(delta: &[u8], places: &[usize; sizes::NODES], n: usize, list: &mut [u64])
    requires { (n ≤ max_nodes) × (n ≤ length list.old) × NodesLie delta.now places.now n }
    ensures { list.new ≡ put 0 (numbers_at delta.now places.now 0 n) list.old }
{
    for i in 0..n {
        list[i] = fields::read_u64(delta, places[i] + wire::NODE_NUMBER);
    }
}

// The numbers of the nodes that the delta names, at the front of the list, and how many they are. 8, and nothing changed, where the list is too short.
pub fn delta_nodes(delta: &[u8], list: &mut [u64]) -> Result<usize, DeltaFault>
    ensures { Tells applied_told (delta_nodes delta.now list.old) result list.new }
{
    let heads = delta_read::read_heads(delta);
    let nodes = heads.read?.nodes;
    if list.len() < nodes {
        return Err(DeltaFault {
            why: Refusal::NoPlace,
            at: 0,
        });
    }
    put_numbers(delta, &heads.at, nodes, list);
    Ok(nodes)
}
