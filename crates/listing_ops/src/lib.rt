// The lines of a delta's operations in its listing: how long they are together, and the lines written one behind the other into a lent buffer.
#![tactic(auto)]

ghost use Rattle.std.specs.Prelude.{◌≡◌, ◌*◌, ◌≤◌, length};
ghost use Rattle.rules.specs.Given.{Gives};
ghost use Rattle.rules.specs.Sizes.{max_delta, max_key, max_value};
ghost use Rattle.rules.specs.Delta.{NodeOp, SetMaxVersionOp};
ghost use Rattle.rules.specs.Listing.{op_line, status_text};
ghost use Rattle.delta_op.specs.Places.{Inside, op_of};
ghost use Rattle.listing_text.specs.Texts.{TextFits, put_text};
ghost use Rattle.listing_ops.specs.Lines.{lines_from, record_line, texts_text, two_numbers, version_text};

use delta_op::Op;
use rules::Status;

// ---- how long the lines are

// What a line has beside numbers and texts: that of a Node, of a record, of a SetMaxVersion.
const NODE: usize = 22;

const RECORD: usize = 35;

const SET_MAX_VERSION: usize = 16;

// How long the name of a status is.
fn status_len(status: Status) -> usize
    ensures { result ≡ length (status_text status) }
{
    match status {
        Status::Set => 3,
        Status::Delete => 6,
        Status::Ttl => 3,
    }
}

// The length of the line of a record.
fn record_len(version: u64, status: Status, key: &[u8], value: &[u8]) -> usize
    requires { (length key.now ≤ max_key) × (length value.now ≤ max_value) }
    ensures { result ≡ length (record_line version status key.now value.now) }
{
    RECORD
        + listing_text::decimal_len(version)
        + status_len(status)
        + listing_text::shown_len(key)
        + listing_text::shown_len(value)
}

// The length of the line of an operation of the delta.
fn line_len(delta: &[u8], op: Op) -> usize
    requires { Inside (length delta.now) op }
    ensures { result ≡ length (op_line (op_of delta.now op)) }
{
    match op {
        Op::Node {
            number,
            last_gc,
            from,
        } => {
            NODE + listing_text::decimal_len(number)
                + listing_text::decimal_len(last_gc)
                + listing_text::decimal_len(from)
        }
        Op::KeyValue {
            keyat,
            keylen,
            valueat,
            valuelen,
            version,
            status,
        } => {
            let key = &delta[keyat..keyat + keylen];
            let value = &delta[valueat..valueat + valuelen];
            record_len(version, status, key, value)
        }
        Op::SetMaxVersion { max } => SET_MAX_VERSION + listing_text::decimal_len(max),
    }
}

// How long the lines of all operations are together.
pub fn lines_len(delta: &[u8]) -> usize
    requires { length delta.now ≤ max_delta }
    ensures { (result ≡ length (lines_from delta.now 0)) × (result ≤ 5 * max_delta) }
{
    let mut n: usize = 0;
    let mut at: usize = 0;
    // No `for`: where the next operation stands, the one before it tells.
    while at < delta.len() {
        let Ok((op, next)) = delta_op::read_op(delta, at) else {
            return n;
        };
        n += line_len(delta, op);
        at = next;
    }
    n
}

// ---- the lines

// Two numbers with their names, to the end of a line.
pub fn put_two_numbers(
    out: &mut [u8],
    at: usize,
    first: &[u8],
    a: u64,
    second: &[u8],
    b: u64,
) -> usize
    requires { TextFits at (two_numbers first.now a second.now b) out.old }
    ensures { Gives (put_text at (two_numbers first.now a second.now b) out.old) result out.new }
{
    let m = listing_text::put_numbered(out, at, first, a);
    let n = listing_text::put_numbered(out, m, second, b);
    listing_text::put_text(out, n, b"\n")
}

// The line of a Node.
fn put_node(out: &mut [u8], at: usize, number: u64, last_gc: u64, from: u64) -> usize
    requires { TextFits at (op_line (NodeOp number last_gc from)) out.old }
    ensures { Gives (put_text at (op_line (NodeOp number last_gc from)) out.old) result out.new }
{
    let a = listing_text::put_numbered(out, at, b"op=node id=", number);
    put_two_numbers(out, a, b" gc=", last_gc, b" from=", from)
}

// Version and status of a record, the front of its line.
fn put_version(out: &mut [u8], at: usize, version: u64, status: Status) -> usize
    requires { TextFits at (version_text version status) out.old }
    ensures { Gives (put_text at (version_text version status) out.old) result out.new }
{
    let a = listing_text::put_numbered(out, at, b"op=kv version=", version);
    let b = listing_text::put_text(out, a, b" status=");
    listing_text::put_status(out, b, status)
}

// Key and value of a record, the rest of its line.
fn put_texts(out: &mut [u8], at: usize, key: &[u8], value: &[u8]) -> usize
    requires { TextFits at (texts_text key.now value.now) out.old }
    ensures { Gives (put_text at (texts_text key.now value.now) out.old) result out.new }
{
    let a = listing_text::put_named(out, at, b" key=", key);
    let b = listing_text::put_named(out, a, b" value=", value);
    listing_text::put_text(out, b, b"\n")
}

// The line of a record.
fn put_key_value(
    out: &mut [u8],
    at: usize,
    version: u64,
    status: Status,
    key: &[u8],
    value: &[u8],
) -> usize
    requires { TextFits at (record_line version status key.now value.now) out.old }
    ensures { Gives (put_text at (record_line version status key.now value.now) out.old) result out.new }
{
    let a = put_version(out, at, version, status);
    put_texts(out, a, key, value)
}

// The line of a SetMaxVersion.
fn put_set_max_version(out: &mut [u8], at: usize, max: u64) -> usize
    requires { TextFits at (op_line (SetMaxVersionOp max)) out.old }
    ensures { Gives (put_text at (op_line (SetMaxVersionOp max)) out.old) result out.new }
{
    let a = listing_text::put_numbered(out, at, b"op=max version=", max);
    listing_text::put_text(out, a, b"\n")
}

// The line of an operation of the delta.
fn put_line(delta: &[u8], op: Op, out: &mut [u8], at: usize) -> usize
    requires { (Inside (length delta.now) op) × (TextFits at (op_line (op_of delta.now op)) out.old) }
    ensures { Gives (put_text at (op_line (op_of delta.now op)) out.old) result out.new }
{
    match op {
        Op::Node {
            number,
            last_gc,
            from,
        } => put_node(out, at, number, last_gc, from),
        Op::KeyValue {
            keyat,
            keylen,
            valueat,
            valuelen,
            version,
            status,
        } => {
            let key = &delta[keyat..keyat + keylen];
            let value = &delta[valueat..valueat + valuelen];
            put_key_value(out, at, version, status, key, value)
        }
        Op::SetMaxVersion { max } => put_set_max_version(out, at, max),
    }
}

// The lines of all operations of the delta, at the front.
pub fn put_lines(delta: &[u8], out: &mut [u8]) -> usize
    requires { TextFits 0 (lines_from delta.now 0) out.old }
    ensures { Gives (put_text 0 (lines_from delta.now 0) out.old) result out.new }
{
    let mut n: usize = 0;
    let mut at: usize = 0;
    // No `for`: where the next operation stands, the one before it tells.
    while at < delta.len() {
        let Ok((op, next)) = delta_op::read_op(delta, at) else {
            return n;
        };
        n = put_line(delta, op, out, n);
        at = next;
    }
    n
}
