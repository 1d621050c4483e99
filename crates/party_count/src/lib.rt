// How many records of a node are a party's own. It looks at the keys alone, so that it may be asked of a node that breaks a rule of its profile.
#![tactic(auto)]

ghost use Rattle.std.specs.Prelude.{◌≡◌, length};
ghost use Rattle.rules.specs.Party.{own, of_keys};
ghost use Rattle.table.specs.Tests.{recs_in};
ghost use Rattle.table.specs.Fits.{LaidNode};

use rules::Party;
use table::layout;

// The records of a node's bytes whose keys are the party's own, tombstones counted.
pub fn count_own(node: &[u8], party: Party) -> usize
    requires { LaidNode node.now }
    ensures { result ≡ length (of_keys (own party) (recs_in node.now)) }
{
    let n = fields::byte_at(node, layout::RECORD_COUNT);
    let mut count = 0;
    for i in 0..n {
        if party_form::owns(party, table::key_of(table::record_of(node, i))) {
            count += 1;
        }
    }
    count
}
