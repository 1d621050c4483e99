// Writing the three operations of a delta. Each function is lent the part of the datagram that begins at the operation's place and ends where
// the MTU does, and writes the operation to its front where it fits. What is written is what the definitions of `rules` say (specs/Written.antt).
#![tactic(auto)]

ghost use Rattle.std.specs.Prelude.{◌≡◌, ◌+◌, ◌≤◌, leb, length};
ghost use Rattle.fields.specs.Parts.{put};
ghost use Rattle.rules.specs.Given.{Gives};
ghost use Rattle.rules.specs.Delta.{NodeOp, SetMaxVersionOp, beside_texts, length_width, op_bytes, text_bytes};
ghost use Rattle.delta_write.specs.Written.{key_value, write_op};

use rules::{Status, wire};

// Whether a record with a key and a value of these lengths fits into so many bytes. No sum of lengths is made that could wrap.
fn record_fits(room: usize, keylen: usize, valuelen: usize) -> bool
    ensures { result ≡ leb (beside_texts + keylen + valuelen) room }
{
    if room < wire::BESIDE_TEXTS {
        return false;
    }
    let left = room - wire::BESIDE_TEXTS;
    if left < keylen {
        return false;
    }
    valuelen <= left - keylen
}

// Stores a text behind its length.
fn write_text(datagram: &mut [u8], at: usize, text: &[u8])
    requires { at + length_width + length text.now ≤ length datagram.old }
    ensures { datagram.new ≡ put at (text_bytes text.now) datagram.old }
{
    fields::write_u16(datagram, at, text.len());
    fields::copy_to(datagram, at + wire::LENGTH, text);
}

// A Node operation.
pub fn write_node(datagram: &mut [u8], number: u64, last_gc: u64, from: u64) -> Option<usize>
    ensures { Gives (write_op (NodeOp number last_gc from) datagram.old) result datagram.new }
{
    if datagram.len() < wire::NODE_WIDTH {
        return None;
    }
    fields::write_byte(datagram, 0, wire::NODE);
    fields::write_u64(datagram, wire::NODE_NUMBER, number);
    fields::write_u64(datagram, wire::NODE_LAST_GC, last_gc);
    fields::write_u64(datagram, wire::NODE_FROM, from);
    Some(wire::NODE_WIDTH)
}

// A record, where there is room for it. Of the lengths the two lowest bytes are written.
fn store_key_value(datagram: &mut [u8], key: &[u8], value: &[u8], version: u64, status: Status)
    requires { beside_texts + length key.now + length value.now ≤ length datagram.old }
    ensures { datagram.new ≡ put 0 (op_bytes (key_value key.now value.now version status)) datagram.old }
{
    let behind_key = wire::KEY_LENGTH + wire::LENGTH + key.len();
    let behind_value = behind_key + wire::LENGTH + value.len();
    fields::write_byte(datagram, 0, wire::KEY_VALUE);
    write_text(datagram, wire::KEY_LENGTH, key);
    write_text(datagram, behind_key, value);
    fields::write_u64(datagram, behind_value, version);
    fields::write_byte(datagram, behind_value + wire::STATUS, status.byte());
}

// A KeyValue operation.
pub fn write_key_value(
    datagram: &mut [u8],
    key: &[u8],
    value: &[u8],
    version: u64,
    status: Status,
) -> Option<usize>
    ensures { Gives (write_op (key_value key.now value.now version status) datagram.old) result datagram.new }
{
    if record_fits(datagram.len(), key.len(), value.len()) {
        let size = wire::BESIDE_TEXTS + key.len() + value.len();
        store_key_value(datagram, key, value, version, status);
        return Some(size);
    }
    None
}

// A SetMaxVersion operation.
pub fn write_set_max_version(datagram: &mut [u8], max: u64) -> Option<usize>
    ensures { Gives (write_op (SetMaxVersionOp max) datagram.old) result datagram.new }
{
    if datagram.len() < wire::MAX_WIDTH {
        return None;
    }
    fields::write_byte(datagram, 0, wire::SET_MAX_VERSION);
    fields::write_u64(datagram, wire::MAX, max);
    Some(wire::MAX_WIDTH)
}
