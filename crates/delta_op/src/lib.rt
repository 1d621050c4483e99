// Reading one operation of a delta at a place of the lent bytes. An operation holds its numbers, and where its key and value stand in the caller's
// bytes; nothing is copied. What is read is what the definitions of `rules` say (specs/Places.antt). Where the bytes end, 9 tells what the field still
// lacks; it is counted on that way out alone. Whether it may follow those before it is the matter
// of `delta_read`.
#![tactic(auto)]

ghost use Rattle.std.specs.Prelude.{◌≡◌, ◌+◌, ◌≤◌, ◌<◌, length};
ghost use Rattle.fields.specs.Widths.{total};
ghost use Rattle.rules.specs.Delta.{version_widths};
ghost use Rattle.delta_op.specs.Places.{key_value_at, node_at, op_at, refusal_of, set_max_version_at, text_at, value_at, version_at, version_lacks};

use rules::{Record, Refusal, Status, wire};

#[derive(Clone, Copy)]
pub enum Op {
    Node {
        number: u64,
        last_gc: u64,
        from: u64,
    },
    KeyValue {
        keyat: usize,
        keylen: usize,
        valueat: usize,
        valuelen: usize,
        version: u64,
        status: Status,
    },
    SetMaxVersion {
        max: u64,
    },
}

// Why a text is not read: its length is too long, or the bytes end and so many are lacking. It holds no refusal, which would be copied on the way of a text
// that is there too.
#[derive(Clone, Copy)]
pub enum TextFault {
    Long,
    Cut(usize),
}

impl From<TextFault> for Refusal {
    ghost from_gives = { λ f r. r ≡ refusal_of f };

    fn from(fault: TextFault) -> Refusal {
        match fault {
            TextFault::Long => Refusal::TooLong,
            TextFault::Cut(need) => Refusal::Cut(need),
        }
    }
}

// The text whose length stands at `at`. An overlong length is refused before its bytes are looked at.
fn read_text(delta: &[u8], at: usize, most: usize) -> Result<(usize, usize), TextFault>
    requires { at ≤ length delta.now }
    ensures { result ≡ text_at most delta.now at }
{
    let present = delta.len() - at;
    if present < wire::LENGTH {
        let need = wire::LENGTH - present;
        return Err(TextFault::Cut(need));
    }
    let len = fields::read_u16(delta, at);
    if most < len {
        return Err(TextFault::Long);
    }
    let start = at + wire::LENGTH;
    let behind = delta.len() - start;
    if behind < len {
        let need = len - behind;
        return Err(TextFault::Cut(need));
    }
    Ok((start, len))
}

// The Node whose tag stands at `at`.
fn read_node(delta: &[u8], at: usize) -> Result<(Op, usize), Refusal>
    requires { at < length delta.now }
    ensures { result ≡ node_at delta.now at }
{
    let present = delta.len() - at;
    if present < wire::NODE_WIDTH {
        return Err(Refusal::Cut(wire::number_lacks(present - wire::NODE_NUMBER)));
    }
    Ok((
        Op::Node {
            number: fields::read_u64(delta, at + wire::NODE_NUMBER),
            last_gc: fields::read_u64(delta, at + wire::NODE_LAST_GC),
            from: fields::read_u64(delta, at + wire::NODE_FROM),
        },
        at + wire::NODE_WIDTH,
    ))
}

// What is lacking of version and status, of which so many bytes are there: of the one, or of the other.
fn version_lacks(present: usize) -> usize
    requires { present < total version_widths }
    ensures { result ≡ version_lacks present }
{
    if present < wire::NUMBER {
        return wire::NUMBER - present;
    }
    wire::VERSION_WIDTH - present
}

// Version and status, behind the value.
fn read_version(
    delta: &[u8],
    keyat: usize,
    keylen: usize,
    valueat: usize,
    valuelen: usize,
) -> Result<(Op, usize), Refusal>
    requires { valueat + valuelen ≤ length delta.now }
    ensures { result ≡ version_at delta.now keyat keylen valueat valuelen }
{
    let at = valueat + valuelen;
    let present = delta.len() - at;
    if present < wire::VERSION_WIDTH {
        return Err(Refusal::Cut(version_lacks(present)));
    }
    let b = fields::byte_at(delta, at + wire::STATUS);
    if Status::LAST < b {
        return Err(Refusal::BadTag);
    }
    Ok((
        Op::KeyValue {
            keyat,
            keylen,
            valueat,
            valuelen,
            version: fields::read_u64(delta, at),
            status: Status::of_byte(b),
        },
        at + wire::VERSION_WIDTH,
    ))
}

// Value, version and status, behind the key.
fn read_value(delta: &[u8], keyat: usize, keylen: usize) -> Result<(Op, usize), Refusal>
    requires { keyat + keylen ≤ length delta.now }
    ensures { result ≡ value_at delta.now keyat keylen }
{
    let (start, len) = read_text(delta, keyat + keylen, Record::VALUE)?;
    read_version(delta, keyat, keylen, start, len)
}

// The KeyValue whose tag stands at `at`.
fn read_key_value(delta: &[u8], at: usize) -> Result<(Op, usize), Refusal>
    requires { at < length delta.now }
    ensures { result ≡ key_value_at delta.now at }
{
    let (start, len) = read_text(delta, at + wire::KEY_LENGTH, Record::KEY)?;
    read_value(delta, start, len)
}

// The SetMaxVersion whose tag stands at `at`.
fn read_set_max_version(delta: &[u8], at: usize) -> Result<(Op, usize), Refusal>
    requires { at < length delta.now }
    ensures { result ≡ set_max_version_at delta.now at }
{
    let present = delta.len() - at;
    if present < wire::MAX_WIDTH {
        return Err(Refusal::Cut(wire::MAX_WIDTH - present));
    }
    Ok((
        Op::SetMaxVersion {
            max: fields::read_u64(delta, at + wire::MAX),
        },
        at + wire::MAX_WIDTH,
    ))
}

// The operation whose tag stands at `at`.
pub fn read_op(delta: &[u8], at: usize) -> Result<(Op, usize), Refusal>
    requires { at ≤ length delta.now }
    ensures { result ≡ op_at delta.now at }
{
    if at == delta.len() {
        return Err(Refusal::Cut(wire::BYTE));
    }
    let tag = fields::byte_at(delta, at);
    match tag {
        wire::NODE => read_node(delta, at),
        wire::KEY_VALUE => read_key_value(delta, at),
        wire::SET_MAX_VERSION => read_set_max_version(delta, at),
        _ => Err(Refusal::BadTag),
    }
}
