// Reading a delta in a table's profile: a delta with one record out of form is refused whole, with the profile's number (17 meter, 19 shared) at that record's
// place, straight after the operation's own 11. Document 01's verdict comes first, and then one more pass over the records before the fault. A free table makes
// none.
#![tactic(auto)]

ghost use Rattle.std.specs.Prelude.{◌≡◌, ◌+◌, ◌≤◌, length};
ghost use Rattle.fields.specs.Parts.{part};
ghost use Rattle.rules.specs.Delta.{delta_read};
ghost use Rattle.rules.specs.Profile.{odd_number, op_in_form};
ghost use Rattle.delta_op.specs.Places.{Inside, op_of};
ghost use Rattle.delta_form.specs.Forming.{delta_read_as, end_of, formed_at, odd_place};

use delta_op::Op;
use rules::{DeltaFault, DeltaRead, Profile, Refusal, Status};

// Whether the record whose key and value stand at these places is in form.
fn record_formed(
    profile: Profile,
    delta: &[u8],
    keyat: usize,
    keylen: usize,
    valueat: usize,
    valuelen: usize,
    status: Status,
) -> bool
    requires { (keyat + keylen ≤ length delta.now) × (valueat + valuelen ≤ length delta.now) }
    ensures { result ≡ formed_at profile (part keyat keylen delta.now) (part valueat valuelen delta.now) status }
{
    let keyend = keyat + keylen;
    let valueend = valueat + valuelen;
    match profile {
        Profile::Free => true,
        Profile::Meter => meter_form::is_formed(
            &delta[keyat..keyend],
            &delta[valueat..valueend],
            status,
        ),
        Profile::Shared => party_form::is_someones(&delta[keyat..keyend]),
    }
}

// Whether an operation is no record out of form.
fn op_formed(profile: Profile, delta: &[u8], op: Op) -> bool
    requires { Inside (length delta.now) op }
    ensures { result ≡ op_in_form profile (op_of delta.now op) }
{
    match op {
        Op::Node {
            number: _,
            last_gc: _,
            from: _,
        } => true,
        Op::KeyValue {
            keyat,
            keylen,
            valueat,
            valuelen,
            version: _,
            status,
        } => record_formed(profile, delta, keyat, keylen, valueat, valuelen, status),
        Op::SetMaxVersion { max: _ } => true,
    }
}

// Where the first record out of form stands before `end`, or `end`.
fn first_odd(profile: Profile, delta: &[u8], end: usize) -> usize
    requires { end ≤ length delta.now }
    ensures { result ≡ odd_place profile delta.now end }
{
    let mut at = 0;
    // No `for`: where the next operation stands, the one before it tells.
    while at < end {
        let read = delta_op::read_op(delta, at);
        let Ok((op, next)) = read else {
            return end;
        };
        if op_formed(profile, delta, op) {
            at = next;
        } else {
            return at;
        }
    }
    end
}

// Where the operations end that were read before a fault.
fn end_of(long: usize, read: Result<DeltaRead, DeltaFault>) -> usize
    ensures { result ≡ end_of long read }
{
    match read {
        Ok(DeltaRead { ops: _, nodes: _ }) => long,
        Err(DeltaFault { why: _, at }) => at,
    }
}

// The number of a record that is not in the form of a profile.
pub fn odd_number(profile: Profile) -> Refusal
    ensures { result ≡ odd_number profile }
{
    match profile {
        Profile::Free => Refusal::BadForm,
        Profile::Meter => Refusal::BadForm,
        Profile::Shared => Refusal::OtherParty,
    }
}

// The verdict on a delta in a profile, from document 01's, by the records before the fault.
fn read_formed(
    profile: Profile,
    delta: &[u8],
    read: Result<DeltaRead, DeltaFault>,
) -> Result<DeltaRead, DeltaFault>
    requires { read ≡ delta_read delta.now }
    ensures { result ≡ delta_read_as profile delta.now }
{
    let end = end_of(delta.len(), read);
    let odd = first_odd(profile, delta, end);
    if odd < end {
        return Err(DeltaFault {
            why: odd_number(profile),
            at: odd,
        });
    }
    read
}

// The same, where a free table looks at no record.
pub fn read_as(
    profile: Profile,
    delta: &[u8],
    read: Result<DeltaRead, DeltaFault>,
) -> Result<DeltaRead, DeltaFault>
    requires { read ≡ delta_read delta.now }
    ensures { result ≡ delta_read_as profile delta.now }
{
    match profile {
        Profile::Free => read,
        Profile::Meter => read_formed(profile, delta, read),
        Profile::Shared => read_formed(profile, delta, read),
    }
}
