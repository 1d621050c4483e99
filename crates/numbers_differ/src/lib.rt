// Numbers in a row: whether one stands among them, and whether all are different, as the versions of a node's records and the numbers of removed nodes must
// be. That goes by their low bits, so that most are never compared.
#![tactic(auto)]

ghost use Rattle.std.specs.Prelude.{◌≡◌, ◌-◌, ◌%◌, ◌≤◌, ◌<◌, length, take, drop};
ghost use Rattle.rules.specs.Table.{among, differ};

// Whether `x` is one of the numbers from `i` on, below `n`.
pub fn stands_from(ns: &[u64], i: usize, n: usize, x: u64) -> bool
    requires { (i ≤ n) × (n ≤ length ns.now) }
    ensures { result ≡ among x (take (n - i) (drop i ns.now)) }
{
    ns[i..n].contains(&x)
}

// The place of a number among the marks: its low bits.
fn place_of(x: u64) -> usize
    ensures { (result ≡ x % 1024) × (result < 1024) }
{
    (x % 1024) as usize
}

// Whether the first `n` numbers are all different, from the last on. Only a number whose low bits were seen is looked for among those behind it.
pub fn all_differ(ns: &[u64], n: usize) -> bool
    requires { n ≤ length ns.now }
    ensures { result ≡ differ (take n ns.now) }
{
    let mut seen = [0u8; 1024];
    for i in (0..n).rev() {
        let x = ns[i];
        let k = place_of(x);
        if seen[k] == 1 {
            if stands_from(ns, i + 1, n, x) {
                return false;
            }
        }
        seen[k] = 1;
    }
    true
}
