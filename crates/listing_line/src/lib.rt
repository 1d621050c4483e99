// One line of a listing, read as an operation, whose bytes are written. Each function is lent what is left of the line, and goes on with what stands
// behind the piece that it reads: it answers how many bytes the operation has, or 0 where the line is none.
#![tactic(auto)]

ghost use Rattle.std.specs.Prelude.{◌≡◌, ◌≤◌, length, drop};
ghost use Rattle.rules.specs.Delta.{NodeOp};
ghost use Rattle.rules.specs.Sizes.{max_key, max_value};
ghost use Rattle.delta_write.specs.Written.{key_value};
ghost use Rattle.listing_read.specs.Unlist.{after_gc, after_id, after_key, after_max, after_status};
ghost use Rattle.listing_read.specs.Unlist.{after_version, closed, number_form, printed, read_line, status};
ghost use Rattle.listing_line.specs.Told.{LineTold, longest_op, size_told};

use listing_words::{Numeral, Shown};
use rules::{Record, Status, wire};

// The longest operation: a record with the longest key and the longest value.
pub const LONGEST_OP: usize = wire::BESIDE_TEXTS + Record::KEY + Record::VALUE;

// The bytes behind the first `n`; none where there are fewer.
fn behind(text: &[u8], n: usize) -> &[u8]
    ensures { result.now ≡ drop n text.now }
{
    if text.len() < n {
        return &text[..0];
    }
    &text[n..]
}

// How many bytes were written.
fn size_of(wrote: Option<usize>) -> usize
    ensures { result ≡ size_told wrote }
{
    wrote.unwrap_or(0)
}

// ---- a Node

// Behind its last number.
fn node_end(text: &[u8], number: u64, last_gc: u64, from: u64, out: &mut [u8]) -> usize
    requires { longest_op ≤ length out.old }
    ensures { LineTold (closed (NodeOp number last_gc from) text.now) result out.new }
{
    if !fields::same(b"\n", text) {
        return 0;
    }
    size_of(delta_write::write_node(out, number, last_gc, from))
}

// Behind last_gc.
fn after_gc(text: &[u8], number: u64, last_gc: u64, out: &mut [u8]) -> usize
    requires { longest_op ≤ length out.old }
    ensures { LineTold (after_gc number last_gc text.now) result out.new }
{
    if !fields::starts_with(b" from=", text) {
        return 0;
    }
    let rest = behind(text, 6);
    let Some(Numeral { value, len }) = listing_words::number(rest) else {
        return 0;
    };
    node_end(behind(rest, len), number, last_gc, value, out)
}

// Behind its number.
fn after_id(text: &[u8], number: u64, out: &mut [u8]) -> usize
    requires { longest_op ≤ length out.old }
    ensures { LineTold (after_id number text.now) result out.new }
{
    if !fields::starts_with(b" gc=", text) {
        return 0;
    }
    let rest = behind(text, 4);
    let Some(Numeral { value, len }) = listing_words::number(rest) else {
        return 0;
    };
    after_gc(behind(rest, len), number, value, out)
}

fn node_line(text: &[u8], out: &mut [u8]) -> usize
    requires { longest_op ≤ length out.old }
    ensures { LineTold (printed number_form after_id text.now) result out.new }
{
    let Some(Numeral { value, len }) = listing_words::number(text) else {
        return 0;
    };
    after_id(behind(text, len), value, out)
}

// ---- a SetMaxVersion

fn after_max(text: &[u8], max: u64, out: &mut [u8]) -> usize
    requires { longest_op ≤ length out.old }
    ensures { LineTold (after_max max text.now) result out.new }
{
    if !fields::same(b"\n", text) {
        return 0;
    }
    size_of(delta_write::write_set_max_version(out, max))
}

fn max_line(text: &[u8], out: &mut [u8]) -> usize
    requires { longest_op ≤ length out.old }
    ensures { LineTold (printed number_form after_max text.now) result out.new }
{
    let Some(Numeral { value, len }) = listing_words::number(text) else {
        return 0;
    };
    after_max(behind(text, len), value, out)
}

// ---- a record

// Behind its value.
fn record_end(
    text: &[u8],
    version: u64,
    status: Status,
    key: &[u8],
    value: &[u8],
    out: &mut [u8],
) -> usize
    requires { (length key.now ≤ max_key) × (length value.now ≤ max_value) × (longest_op ≤ length out.old) }
    ensures { LineTold (closed (key_value key.now value.now version status) text.now) result out.new }
{
    if !fields::same(b"\n", text) {
        return 0;
    }
    size_of(delta_write::write_key_value(out, key, value, version, status))
}

// Behind its key.
fn after_key(text: &[u8], version: u64, status: Status, key: &[u8], out: &mut [u8]) -> usize
    requires { (length key.now ≤ max_key) × (longest_op ≤ length out.old) }
    ensures { LineTold (after_key version status key.now text.now) result out.new }
{
    if !fields::starts_with(b" value=", text) {
        return 0;
    }
    let rest = behind(text, 7);
    let mut value = [0u8; Record::VALUE];
    let Some(Shown { len, took }) = listing_words::text(rest, &mut value) else {
        return 0;
    };
    record_end(behind(rest, took), version, status, key, &value[..len], out)
}

// Behind its status.
fn after_status(text: &[u8], version: u64, status: Status, out: &mut [u8]) -> usize
    requires { longest_op ≤ length out.old }
    ensures { LineTold (after_status version status text.now) result out.new }
{
    if !fields::starts_with(b" key=", text) {
        return 0;
    }
    let rest = behind(text, 5);
    let mut key = [0u8; Record::KEY];
    let Some(Shown { len, took }) = listing_words::text(rest, &mut key) else {
        return 0;
    };
    after_key(behind(rest, took), version, status, &key[..len], out)
}

// From its status on.
fn read_status(text: &[u8], version: u64, out: &mut [u8]) -> usize
    requires { longest_op ≤ length out.old }
    ensures { LineTold (status (after_status version) text.now) result out.new }
{
    if fields::starts_with(b"set", text) {
        return after_status(behind(text, 3), version, Status::Set, out);
    }
    if fields::starts_with(b"delete", text) {
        return after_status(behind(text, 6), version, Status::Delete, out);
    }
    if fields::starts_with(b"ttl", text) {
        return after_status(behind(text, 3), version, Status::Ttl, out);
    }
    0
}

// Behind its version.
fn after_version(text: &[u8], version: u64, out: &mut [u8]) -> usize
    requires { longest_op ≤ length out.old }
    ensures { LineTold (after_version version text.now) result out.new }
{
    if !fields::starts_with(b" status=", text) {
        return 0;
    }
    read_status(behind(text, 8), version, out)
}

fn record_line(text: &[u8], out: &mut [u8]) -> usize
    requires { longest_op ≤ length out.old }
    ensures { LineTold (printed number_form after_version text.now) result out.new }
{
    let Some(Numeral { value, len }) = listing_words::number(text) else {
        return 0;
    };
    after_version(behind(text, len), value, out)
}

// ---- the line

// The operation's bytes at the front of `out`, and how many they are; 0 where the text is not just one line of an operation.
pub fn read_line(text: &[u8], out: &mut [u8]) -> usize
    requires { longest_op ≤ length out.old }
    ensures { LineTold (read_line text.now) result out.new }
{
    if fields::starts_with(b"op=node id=", text) {
        return node_line(behind(text, 11), out);
    }
    if fields::starts_with(b"op=kv version=", text) {
        return record_line(behind(text, 14), out);
    }
    if fields::starts_with(b"op=max version=", text) {
        return max_line(behind(text, 15), out);
    }
    0
}
