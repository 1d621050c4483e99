// The node deltas of an accepted delta on a good table: the status of each by the table's mode and the numbers of node and delta, the room by the table's
// profile, the node changed or left, and one answer for each, in stream order.
#![tactic(auto)]

ghost use Rattle.std.specs.Prelude.{true, ◌≡◌, ◌≤◌, length};
ghost use Rattle.rules.specs.Given.{Gives};
ghost use Rattle.rules.specs.Profile.{kind};
ghost use Rattle.rules.specs.Layout.{decode, valid};
ghost use Rattle.rules.specs.Lent.{stored, both};
ghost use Rattle.delta_op.specs.Plain.{recs_from};
ghost use Rattle.delta_read.specs.NodeDeltas.{parts_from, delta_of, behind_node, node_delta_at};
ghost use Rattle.apply_node.specs.Taking.{Rising};
ghost use Rattle.apply_parts.specs.Applying.{leaves, resets, answer_as};
ghost use Rattle.apply_parts.specs.Applying.{node_applied, part_leaving, parts_applied, parts_leaving, Accepted, HeadsFound};

use delta_read::Heads;
use rules::{DeltaStatus, Mode, NodeAnswer, Profile, wire};

// ---- one node

// Whether the node stays as it is.
fn is_left(status: DeltaStatus) -> bool
    ensures { result ≡ leaves status }
{
    match status {
        DeltaStatus::Reject => true,
        DeltaStatus::Fenced => true,
        DeltaStatus::Apply => false,
        DeltaStatus::ApplyAfterReset => false,
    }
}

// Whether the node begins afresh.
fn is_reset(status: DeltaStatus) -> bool
    ensures { result ≡ resets status }
{
    match status {
        DeltaStatus::Reject => false,
        DeltaStatus::Fenced => false,
        DeltaStatus::Apply => false,
        DeltaStatus::ApplyAfterReset => true,
    }
}

// What is answered, where there was room for the outcome or not.
fn answer_as(status: DeltaStatus, room: bool) -> NodeAnswer
    ensures { result ≡ answer_as status room }
{
    match status {
        DeltaStatus::Reject => NodeAnswer::Reject,
        DeltaStatus::Fenced => NodeAnswer::Fenced,
        DeltaStatus::Apply => {
            if room {
                return NodeAnswer::Apply;
            }
            NodeAnswer::Room
        }
        DeltaStatus::ApplyAfterReset => {
            if room {
                return NodeAnswer::ApplyAfterReset;
            }
            NodeAnswer::Room
        }
    }
}

// Applies the node delta with these numbers, whose records begin at `at` and are no more than `count`, to a node of a table of this kind.
fn apply_node(
    node: &mut [u8],
    mode: Mode,
    profile: Profile,
    delta: &[u8],
    at: usize,
    count: usize,
    last_gc: u64,
    from: u64,
    max: u64,
    clock: u64,
) -> NodeAnswer
    requires { Rising node.old × (at ≤ length delta.now) × (length (recs_from delta.now at) ≤ count) }
    ensures { Gives (node_applied (kind mode profile) clock (delta_of delta.now last_gc from max at) node.old)
        result node.new }
{
    let own = table_read::read_header(node);
    let status = delta_status::check_delta_status(mode, own.last_gc, own.max, from, last_gc, max);
    if is_left(status) {
        return answer_as(status, true);
    }
    let room = apply_grow::grow_in_place(
        node,
        profile,
        delta,
        at,
        count,
        is_reset(status),
        last_gc,
        max,
        clock,
    );
    answer_as(status, room)
}

// ---- a table

// Applies the node delta whose Node stands at `at` to the node with its number, or answers Unknown. A node that is one of `own` is left alone: Reject.
fn apply_part(
    table: &mut [u8],
    own: &[u64],
    mode: Mode,
    profile: Profile,
    delta: &[u8],
    at: usize,
    count: usize,
    max: u64,
    clock: u64,
) -> NodeAnswer
    requires { (valid table.old ≡ true)
        × (behind_node at ≤ length delta.now) × (length (recs_from delta.now (behind_node at)) ≤ count) }
    ensures { Gives
        (stored (part_leaving own.now (kind mode profile) clock (node_delta_at delta.now at max) (decode table.old)))
        result table.new }
{
    let number = fields::read_u64(delta, at + wire::NODE_NUMBER);
    let last_gc = fields::read_u64(delta, at + wire::NODE_LAST_GC);
    let from = fields::read_u64(delta, at + wire::NODE_FROM);
    let Some(span) = table_read::node_span(table, number) else {
        return NodeAnswer::Unknown;
    };
    if table_read::is_excluded(own, number) {
        return NodeAnswer::Reject;
    }
    apply_node(
        &mut table[span.start..span.end],
        mode,
        profile,
        delta,
        at + wire::NODE_WIDTH,
        count,
        last_gc,
        from,
        max,
        clock,
    )
}

// Applies the node deltas that were found in an accepted delta to a good table, one answer for each, and leaves the nodes of `own` alone.
pub fn apply_each_leaving(
    table: &mut [u8],
    own: &[u64],
    mode: Mode,
    profile: Profile,
    delta: &[u8],
    heads: Heads,
    nodes: usize,
    clock: u64,
    answers: &mut [u8],
)
    requires { (valid table.old ≡ true) × Accepted delta.now
        × HeadsFound delta.now nodes heads × (nodes ≤ length answers.old) }
    ensures { both table.new answers.new
        ≡ parts_leaving own.now (kind mode profile) clock (parts_from delta.now 0) answers.old table.old }
{
    let places = heads.at;
    let counts = heads.count;
    let maxes = heads.max;
    for i in 0..nodes {
        let answer = apply_part(
            table, own, mode, profile, delta, places[i], counts[i], maxes[i], clock,
        );
        answers[i] = answer.code();
    }
}

// The same where no node is left alone.
pub fn apply_each(
    table: &mut [u8],
    mode: Mode,
    profile: Profile,
    delta: &[u8],
    heads: Heads,
    nodes: usize,
    clock: u64,
    answers: &mut [u8],
)
    requires { (valid table.old ≡ true) × Accepted delta.now × HeadsFound delta.now nodes heads × (nodes ≤ length answers.old) }
    ensures { both table.new answers.new
        ≡ parts_applied (kind mode profile) clock (parts_from delta.now 0) answers.old table.old }
{
    let none = [0u64; 1];
    apply_each_leaving(
        table,
        &none[..0],
        mode,
        profile,
        delta,
        heads,
        nodes,
        clock,
        answers,
    )
}
