// Whether a node delta can be applied to a node: document 01's three steps by the numbers alone, and the fence of a fenced or guarded table.
#![tactic(auto)]

ghost use Rattle.std.specs.Prelude.{◌≡◌};
ghost use Rattle.rules.specs.Apply.{status_of, newer_of, ways_of};

use rules::{DeltaStatus, Mode};

// Whether a node of a table in this mode is fenced against a delta with this last_gc and max.
fn is_fenced(mode: Mode, own_last_gc: u64, own_max: u64, last_gc: u64, max: u64) -> bool
    ensures { result ≡ (ways_of mode).fence own_last_gc own_max last_gc max }
{
    if own_last_gc <= own_max {
        return false;
    }
    if own_last_gc <= last_gc {
        return false;
    }
    match mode {
        Mode::Plain => false,
        Mode::Fenced => true,
        Mode::Guarded => max < own_last_gc,
    }
}

// Step 3: whether there is something new, where no reset is due.
fn check_newer(own_max: u64, max: u64) -> DeltaStatus
    ensures { result ≡ newer_of own_max max }
{
    if own_max < max {
        return DeltaStatus::Apply;
    }
    DeltaStatus::Reject
}

// The three steps of document 01, "Applying to a node", by the numbers alone; between the first and the second the fence of a fenced or guarded table.
pub fn check_delta_status(
    mode: Mode,
    own_last_gc: u64,
    own_max: u64,
    from: u64,
    last_gc: u64,
    max: u64,
) -> DeltaStatus
    ensures { result ≡ status_of (ways_of mode).fence own_last_gc own_max from last_gc max }
{
    if own_max < from {
        return DeltaStatus::Reject;
    }
    if is_fenced(mode, own_last_gc, own_max, last_gc, max) {
        return DeltaStatus::Fenced;
    }
    if last_gc <= own_last_gc {
        return check_newer(own_max, max);
    }
    if last_gc <= own_max {
        return check_newer(own_max, max);
    }
    if from == 0 {
        return DeltaStatus::ApplyAfterReset;
    }
    DeltaStatus::Reject
}
