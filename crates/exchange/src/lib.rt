// One whole exchange between two lent tables: the follower's digest, the publisher's delta for it, the delta applied. Any bytes may be lent.
// What happens to the two tables in any run of calls is demand 3: demand3_bytes/specs/LentDemand3.antt.
#![tactic(auto)]

ghost use Rattle.std.specs.Prelude.{true, ◌≡◌};
ghost use Rattle.rules.specs.Given.{Gives, Tells};
ghost use Rattle.rules.specs.Whole.{valid_whole};
ghost use Rattle.exchange.specs.Exchanging.{all_four, all_three, exchanged_told, lending, lent_answer, lent_exchange, three_calls};

use exchange_ask::{Step, Stopped};
use table::layout;

// What an exchange did: the operations and bytes of its delta, and how many nodes answered.
#[derive(Clone, Copy)]
pub struct Exchanged {
    pub ops: usize,
    pub bytes: usize,
    pub nodes: usize,
}

// The publisher's delta for a digest, applied to the follower's table.
fn answer_digest(
    publisher: &[u8],
    follower: &mut [u8],
    edition: u64,
    told: &[u8],
    mtu: usize,
    unsent: &[u64],
    ties: &[u64],
    clock: u64,
    delta: &mut [u8],
    answers: &mut [u8],
) -> Result<Exchanged, Stopped>
    requires { valid_whole publisher.now ≡ true }
    ensures { Gives
        (lent_answer edition unsent.now ties.now mtu clock
        told.now delta.old answers.old publisher.now follower.old)
        result (all_three follower.new delta.new answers.new) }
{
    let sent = compute::compute_good(
        &publisher[..layout::AREA],
        edition,
        told,
        mtu,
        unsent,
        ties,
        delta,
        0,
    )
    .map_err(|why| Stopped {
        step: Step::Delta,
        why,
    })?;
    let applied = apply::apply(follower, &delta[..sent.bytes], clock, answers);
    let nodes = applied.map_err(|fault| Stopped {
        step: Step::Applying,
        why: fault.why,
    })?;
    Ok(Exchanged {
        ops: sent.ops,
        bytes: sent.bytes,
        nodes,
    })
}

// The three calls on two good tables. Where the exchange is ready none of them is refused (proofs/Refusing).
fn exchange_good(
    publisher: &[u8],
    follower: &mut [u8],
    edition: u64,
    mtu: usize,
    unasked: &[u64],
    unsent: &[u64],
    ties: &[u64],
    clock: u64,
    digest: &mut [u8],
    delta: &mut [u8],
    answers: &mut [u8],
) -> Result<Exchanged, Stopped>
    requires { (valid_whole publisher.now ≡ true) × (valid_whole follower.old ≡ true) }
    ensures { Gives
        (three_calls
        (lending edition unasked.now unsent.now ties.now mtu clock
        digest.old delta.old answers.old)
        publisher.now follower.old)
        result (all_four follower.new digest.new delta.new answers.new) }
{
    let written = digest_write::write_good(&follower[..layout::AREA], edition, unasked, digest, 0);
    let n = written.map_err(|why| Stopped {
        step: Step::Digest,
        why,
    })?;
    answer_digest(
        publisher,
        follower,
        edition,
        &digest[..n],
        mtu,
        unsent,
        ties,
        clock,
        delta,
        answers,
    )
}

// One exchange, with the digest in one edition at both ends. The digest leaves out the nodes `unasked`, the delta the nodes `unsent`; each stands at the front
// of its datagram. It is refused before anything is written, in this order: 14 of the follower's table, 14 of the publisher's, 20, 8 for the digest's bytes, 7,
// 8 for the delta's bytes, 15, 17 or 19 for a record of the publisher that is not in the follower's form, 8 for the answers. Both tables, both datagrams and
// the answers are then as they were.
pub fn exchange(
    publisher: &[u8],
    follower: &mut [u8],
    edition: u64,
    mtu: usize,
    unasked: &[u64],
    unsent: &[u64],
    ties: &[u64],
    clock: u64,
    digest: &mut [u8],
    delta: &mut [u8],
    answers: &mut [u8],
) -> Result<Exchanged, Stopped>
    ensures { Tells exchanged_told
        (lent_exchange
        (lending edition unasked.now unsent.now ties.now mtu clock
        digest.old delta.old answers.old)
        publisher.now follower.old)
        result (all_four follower.new digest.new delta.new answers.new) }
{
    exchange_ask::ask(
        publisher,
        follower,
        edition,
        unasked,
        mtu,
        ties.len(),
        digest.len(),
        delta.len(),
        answers.len(),
    )?;
    exchange_good(
        publisher, follower, edition, mtu, unasked, unsent, ties, clock, digest, delta, answers,
    )
}
