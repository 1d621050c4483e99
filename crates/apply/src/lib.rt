// Applying a delta to a lent table: each node delta in stream order, and one answer for each. Nothing is touched before the whole delta is known to be
// good. What is then done to the nodes is in `apply_parts`.
#![tactic(auto)]

ghost use Rattle.std.specs.Prelude.{true, ◌≡◌, length};
ghost use Rattle.rules.specs.Answers.{applied_told};
ghost use Rattle.rules.specs.Given.{Gives, Tells};
ghost use Rattle.rules.specs.Lent.{both, lent_apply};
ghost use Rattle.leaving.specs.Leaving.{lent_leaving};
ghost use Rattle.rules.specs.Whole.{whole_width, decode_whole, valid_whole};

use rules::{DeltaFault, Mode, Refusal};
use table::layout;

// The mode that stands in a table's bytes.
pub fn mode_of(table: &[u8]) -> Mode
    requires { length table.now ≡ whole_width }
    ensures { result ≡ (decode_whole table.now).kind.mode }
{
    Mode::of_byte(fields::byte_at(table, layout::AREA + layout::MODE))
}

// Applies the bytes of a delta to a good table, and leaves the nodes of `own` alone: 13 for the delta's length, the first operation at fault, 17 or 19 straight
// after a record's own 11 where the table's profile does not take it, 8 for the places of the answers.
pub fn leaving_known(
    table: &mut [u8],
    own: &[u64],
    delta: &[u8],
    clock: u64,
    answers: &mut [u8],
) -> Result<usize, DeltaFault>
    requires { valid_whole table.old ≡ true }
    ensures { Gives (lent_leaving own.now delta.now clock answers.old table.old)
        result (both table.new answers.new) }
{
    let heads = delta_read::read_heads(delta);
    let profile = profile_check::profile_of(table);
    let read = delta_form::read_as(profile, delta, heads.read)?;
    let nodes = read.nodes;
    if answers.len() < nodes {
        return Err(DeltaFault {
            why: Refusal::NoPlace,
            at: 0,
        });
    }
    let mode = mode_of(table);
    apply_parts::apply_each_leaving(
        &mut table[..layout::AREA],
        own,
        mode,
        profile,
        delta,
        heads,
        nodes,
        clock,
        answers,
    );
    Ok(nodes)
}

// The same where no node is left alone.
pub fn apply_known(
    table: &mut [u8],
    delta: &[u8],
    clock: u64,
    answers: &mut [u8],
) -> Result<usize, DeltaFault>
    requires { valid_whole table.old ≡ true }
    ensures { Gives (lent_apply delta.now clock answers.old table.old)
        result (both table.new answers.new) }
{
    let none = [0u64; 1];
    leaving_known(table, &none[..0], delta, clock, answers)
}

// Applies the bytes of a delta to a lent table at the receiver's clock, and gives one answer for each node delta. It takes any bytes: 14 first, then as above.
pub fn apply(
    table: &mut [u8],
    delta: &[u8],
    clock: u64,
    answers: &mut [u8],
) -> Result<usize, DeltaFault>
    ensures { Tells applied_told (lent_apply delta.now clock answers.old table.old)
        result (both table.new answers.new) }
{
    if !table_check::check_table(table) {
        return Err(DeltaFault {
            why: Refusal::BadTable,
            at: 0,
        });
    }
    apply_known(table, delta, clock, answers)
}

// The same, but for the nodes of `own`: the hub's own, which it alone writes. Such a node answers Reject and stays as it is, whatever the bytes say; one that
// the table does not hold answers Unknown. The list takes any length and any numbers.
pub fn apply_leaving(
    table: &mut [u8],
    own: &[u64],
    delta: &[u8],
    clock: u64,
    answers: &mut [u8],
) -> Result<usize, DeltaFault>
    ensures { Tells applied_told (lent_leaving own.now delta.now clock answers.old table.old)
        result (both table.new answers.new) }
{
    if !table_check::check_table(table) {
        return Err(DeltaFault {
            why: Refusal::BadTable,
            at: 0,
        });
    }
    leaving_known(table, own, delta, clock, answers)
}
