// Computing a delta by a plan for the air time: the planner's list of node numbers and how many stale records of each to send. Any table bytes, any digest
// bytes and any lists are an input, of any length and with counts up to 2^64-1. A second call says which line of a plan is at fault, and why.
#![tactic(auto)]

ghost use Rattle.std.specs.Prelude.{◌≡◌, true, ◌+◌, ◌≤◌, length};
ghost use Rattle.rules.specs.Answers.{computed_told};
ghost use Rattle.rules.specs.Digest.{read_digest};
ghost use Rattle.rules.specs.Given.{Gives, Says, Tells};
ghost use Rattle.rules.specs.Layout.{decode, valid};
ghost use Rattle.digest_read.specs.Held.{entries_in};
ghost use Rattle.plan.specs.Faults.{judge_for, judge_plan, judged_told, lent_judge};
ghost use Rattle.plan.specs.Plan.{compute_plan, lent_compute_plan, on_plan, plan_for};

use digest_read::Digest;
use plan::NotSent;
use rules::{Refusal, Sent, wire};
use table::layout;

// The delta of a plan for a digest that was read, into a datagram with a whole MTU free: 23, or the delta.
fn write_plan(
    table: &[u8],
    digest: Digest,
    mtu: usize,
    excluded: &[u64],
    nodes: &[u64],
    counts: &[u64],
    datagram: &mut [u8],
    place: usize,
) -> Result<Sent, Refusal>
    requires { (valid table.now ≡ true) × (place + mtu ≤ length datagram.old) }
    ensures { Gives (on_plan excluded.now nodes.now counts.now mtu place (entries_in digest)
        (decode table.now) datagram.old) result datagram.new }
{
    let judged = plan_lines::judge_lines(table, digest, mtu, excluded, nodes, counts);
    if judged.is_err() {
        return Err(Refusal::BadPlan);
    }
    let end = place + mtu;
    let sent = plan_lines::write_lines(
        table,
        digest,
        excluded,
        nodes,
        counts,
        &mut datagram[place..end],
    );
    Ok(sent)
}

// The same for a digest in an edition that there is: 7, 8, then the digest's numbers in its edition's order, 23, or the delta.
fn compute_known(
    table: &[u8],
    edition: u64,
    digest: &[u8],
    mtu: usize,
    excluded: &[u64],
    nodes: &[u64],
    counts: &[u64],
    datagram: &mut [u8],
    place: usize,
) -> Result<Sent, Refusal>
    requires { valid table.now ≡ true }
    ensures { Gives (plan_for excluded.now nodes.now counts.now mtu place (read_digest edition digest.now)
        (decode table.now) datagram.old) result datagram.new }
{
    if !compute::mtu_fits(mtu) {
        return Err(Refusal::BadMtu);
    }
    if !compute::is_free(place, mtu, datagram.len()) {
        return Err(Refusal::NoPlace);
    }
    let d = digest_read::read_digest(edition, digest);
    d.read?;
    write_plan(table, d, mtu, excluded, nodes, counts, datagram, place)
}

// The delta of a plan, from a table that is known to be good: 20, then as above.
pub fn compute_plan_good(
    table: &[u8],
    edition: u64,
    digest: &[u8],
    mtu: usize,
    excluded: &[u64],
    nodes: &[u64],
    counts: &[u64],
    datagram: &mut [u8],
    place: usize,
) -> Result<Sent, Refusal>
    requires { valid table.now ≡ true }
    ensures { Gives (compute_plan edition excluded.now nodes.now counts.now mtu place digest.now
        (decode table.now) datagram.old) result datagram.new }
{
    if !wire::is_edition(edition) {
        return Err(Refusal::BadEdition);
    }
    compute_known(
        table, edition, digest, mtu, excluded, nodes, counts, datagram, place,
    )
}

// The delta of a plan, from any lent table: 14, then as above. A refusal leaves the datagram as it was; a delta leaves the bytes before its place and those
// behind its end. Nothing of an accepted plan is cut or dropped.
pub fn compute_plan(
    table: &[u8],
    edition: u64,
    digest: &[u8],
    mtu: usize,
    excluded: &[u64],
    nodes: &[u64],
    counts: &[u64],
    datagram: &mut [u8],
    place: usize,
) -> Result<Sent, Refusal>
    ensures { Tells computed_told (lent_compute_plan edition excluded.now nodes.now counts.now mtu place
        digest.now datagram.old table.now) result datagram.new }
{
    if !table_check::check_table(table) {
        return Err(Refusal::BadTable);
    }
    compute_plan_good(
        &table[..layout::AREA],
        edition,
        digest,
        mtu,
        excluded,
        nodes,
        counts,
        datagram,
        place,
    )
}

// What is said of a plan for a digest in an edition that there is: 7, the digest's numbers, or the first line at fault.
fn judge_known(
    table: &[u8],
    edition: u64,
    digest: &[u8],
    mtu: usize,
    excluded: &[u64],
    nodes: &[u64],
    counts: &[u64],
) -> Result<(), NotSent>
    requires { valid table.now ≡ true }
    ensures { result ≡ judge_for excluded.now nodes.now counts.now mtu (read_digest edition digest.now)
        (decode table.now) }
{
    if !compute::mtu_fits(mtu) {
        return Err(NotSent::Refused(Refusal::BadMtu));
    }
    let d = digest_read::read_digest(edition, digest);
    if let Err(why) = d.read {
        return Err(NotSent::Refused(why));
    }
    plan_lines::judge_lines(table, d, mtu, excluded, nodes, counts)
}

// What is said of a plan, for a table that is known to be good: 20, then as above.
pub fn plan_fault_good(
    table: &[u8],
    edition: u64,
    digest: &[u8],
    mtu: usize,
    excluded: &[u64],
    nodes: &[u64],
    counts: &[u64],
) -> Result<(), NotSent>
    requires { valid table.now ≡ true }
    ensures { result ≡ judge_plan edition excluded.now nodes.now counts.now mtu digest.now
        (decode table.now) }
{
    if !wire::is_edition(edition) {
        return Err(NotSent::Refused(Refusal::BadEdition));
    }
    judge_known(table, edition, digest, mtu, excluded, nodes, counts)
}

// What is said of a plan, for any lent table: 14, then as above. It is accepted exactly where `compute_plan` writes its delta into a datagram with a whole MTU
// free; where that call gives 23, this one says the first line at fault, counted from 0, and why.
pub fn plan_fault(
    table: &[u8],
    edition: u64,
    digest: &[u8],
    mtu: usize,
    excluded: &[u64],
    nodes: &[u64],
    counts: &[u64],
) -> Result<(), NotSent>
    ensures { Says judged_told (lent_judge edition excluded.now nodes.now counts.now mtu digest.now
        table.now) result }
{
    if !table_check::check_table(table) {
        return Err(NotSent::Refused(Refusal::BadTable));
    }
    plan_fault_good(
        &table[..layout::AREA],
        edition,
        digest,
        mtu,
        excluded,
        nodes,
        counts,
    )
}
