// What a caller that is not Rattle is told of an answer: the number and the values that stand for it, in a struct that crosses to C by value. The number is 0
// where the call was accepted, else document 01's number of the refusal; it never shares a field with a count. A value that the answer has not is 0.
#![tactic(auto)]

ghost use Rattle.std.specs.Prelude.{[], ◌≡◌};
ghost use Rattle.rules.specs.Answers.{answer_told, offered_told, remembered_told, listed_told, written_told, computed_told, read_told, applied_told, refused};
ghost use Rattle.lookup.specs.Told.{found_told};
ghost use Rattle.over_find.specs.Told.{found_over_told};
ghost use Rattle.over_list.specs.Told.{listed_over_told};
ghost use Rattle.inspect.specs.Told.{count_told, node_number_told, node_header_told, record_read_told, rows_told};
ghost use Rattle.digest_read.specs.Told.{digest_told};
ghost use Rattle.exchange.specs.Exchanging.{exchanged_told, step_code};
ghost use Rattle.listing_make.specs.Make.{made_told};
ghost use Rattle.plan.specs.Faults.{judged_told};
ghost use Rattle.answers.specs.Shown.{number_shown, count_shown, node_shown, heartbeat_shown, found_shown, header_shown, record_shown, rows_shown, no_record};
ghost use Rattle.answers.specs.Shown.{found_over_shown, listed_over_shown};
ghost use Rattle.answers.specs.Shown.{digest_shown, entry_told, entry_shown, computed_shown, judged_shown};
ghost use Rattle.answers.specs.Shown.{delta_shown, applied_shown, exchanged_shown, made_shown};

use delta_make::NotMade;
use digest_read::{Digest, DigestRead};
use exchange::Exchanged;
use exchange_ask::{Step, Stopped};
use inspect::{RecordRead, Rows};
use lookup::Found;
use over_find::FoundOver;
use overrides::RefusedOver;
use plan::NotSent;
use rules::{DeltaFault, DeltaRead, Header, Heartbeat, Refusal, Sent, sizes};

// A count: of nodes, records, hits or bytes; of an offer, 1 where it was news.
#[repr(C)]
#[derive(Clone, Copy)]
pub struct KevCount {
    pub number: u64,
    pub count: usize,
}

// A node's number.
#[repr(C)]
#[derive(Clone, Copy)]
pub struct KevNode {
    pub number: u64,
    pub node: u64,
}

// The last heartbeat of a node that was removed; `found` is 1 where it is remembered.
#[repr(C)]
#[derive(Clone, Copy)]
pub struct KevHeartbeat {
    pub number: u64,
    pub found: usize,
    pub heartbeat: u64,
}

// Where a text stands in the lent table; `found` is 1 where there is one.
#[repr(C)]
#[derive(Clone, Copy)]
pub struct KevFound {
    pub number: u64,
    pub found: usize,
    pub start: usize,
    pub len: usize,
}

// Where a text stands in the lent overrides, `over` is 1, or in the lent table, `over` is 0; `found` is 1 where there is one. With 14, `which` is 1 for
// the overrides and 2 for the table.
#[repr(C)]
#[derive(Clone, Copy)]
pub struct KevFoundOver {
    pub number: u64,
    pub found: usize,
    pub over: usize,
    pub start: usize,
    pub len: usize,
    pub which: u64,
}

// How many hits a merged listing found; `which` as of `KevFoundOver`.
#[repr(C)]
#[derive(Clone, Copy)]
pub struct KevListedOver {
    pub number: u64,
    pub count: usize,
    pub which: u64,
}

// What a node has beside its records.
#[repr(C)]
#[derive(Clone, Copy)]
pub struct KevHeader {
    pub number: u64,
    pub heartbeat: u64,
    pub max: u64,
    pub last_gc: u64,
}

// A record, and where its texts begin in the lent table; `found` is 1 where there is one.
#[repr(C)]
#[derive(Clone, Copy)]
pub struct KevRecord {
    pub number: u64,
    pub found: usize,
    pub key_at: usize,
    pub value_at: usize,
    pub keylen: usize,
    pub valuelen: usize,
    pub version: u64,
    pub status: usize,
    pub start: u64,
}

// Records of a node in one piece: where the first of them begins in the lent table, and how many there are.
#[repr(C)]
#[derive(Clone, Copy)]
pub struct KevRows {
    pub number: u64,
    pub at: usize,
    pub count: usize,
}

// How many nodes a digest tells of, and where the bytes behind it begin; with 9, how many bytes the field lacks in which its bytes end.
#[repr(C)]
#[derive(Clone, Copy)]
pub struct KevDigest {
    pub number: u64,
    pub count: usize,
    pub rest: usize,
    pub need: usize,
}

// What a digest tells of a node; with 9, how many bytes the field lacks in which its bytes end.
#[repr(C)]
#[derive(Clone, Copy)]
pub struct KevEntry {
    pub number: u64,
    pub node: u64,
    pub heartbeat: u64,
    pub last_gc: u64,
    pub max: u64,
    pub need: usize,
}

// What a computed delta holds; with 9, how many bytes the field of the digest lacks in which its bytes end.
#[repr(C)]
#[derive(Clone, Copy)]
pub struct KevComputed {
    pub number: u64,
    pub ops: usize,
    pub bytes: usize,
    pub need: usize,
}

// What is said of a plan: with 23 its first line at fault, counted from 0, and the number of the fault; with 9, how many bytes the field of the digest lacks in
// which its bytes end.
#[repr(C)]
#[derive(Clone, Copy)]
pub struct KevJudged {
    pub number: u64,
    pub line: usize,
    pub why: u64,
    pub need: usize,
}

// What a delta holds; where it is refused, the place of the faulty operation's tag, and with 9 how many bytes its field lacks.
#[repr(C)]
#[derive(Clone, Copy)]
pub struct KevDelta {
    pub number: u64,
    pub ops: usize,
    pub nodes: usize,
    pub at: usize,
    pub need: usize,
}

// How many node deltas were answered; where the delta is refused, the place of the faulty operation's tag, and with 9 how many bytes its field lacks.
#[repr(C)]
#[derive(Clone, Copy)]
pub struct KevApplied {
    pub number: u64,
    pub nodes: usize,
    pub at: usize,
    pub need: usize,
}

// How many bytes the delta of a listing has; with 16, the first line that is not in its form; where the delta is refused, as of `KevDelta`.
#[repr(C)]
#[derive(Clone, Copy)]
pub struct KevMade {
    pub number: u64,
    pub bytes: usize,
    pub line: usize,
    pub at: usize,
    pub need: usize,
}

// What an exchange came to; where it is refused, the step: 1 the digest, 2 the delta, 3 applying.
#[repr(C)]
#[derive(Clone, Copy)]
pub struct KevExchanged {
    pub number: u64,
    pub ops: usize,
    pub bytes: usize,
    pub nodes: usize,
    pub step: usize,
}

// ---- a number alone

pub fn number(answer: Result<(), Refusal>) -> u64
    ensures { result ≡ number_shown (answer_told answer) }
{
    match answer {
        Ok(()) => 0,
        Err(why) => why.number(),
    }
}

// ---- a number and a count

// 1 where the heartbeat was news.
pub fn news(offered: Result<bool, Refusal>) -> KevCount
    ensures { result ≡ count_shown (offered_told offered) }
{
    match offered {
        Ok(true) => KevCount {
            number: 0,
            count: 1,
        },
        Ok(false) => KevCount {
            number: 0,
            count: 0,
        },
        Err(why) => KevCount {
            number: why.number(),
            count: 0,
        },
    }
}

pub fn hits(listed: Result<usize, Refusal>) -> KevCount
    ensures { result ≡ count_shown (listed_told listed) }
{
    match listed {
        Ok(count) => KevCount { number: 0, count },
        Err(why) => KevCount {
            number: why.number(),
            count: 0,
        },
    }
}

pub fn bytes(written: Result<usize, Refusal>) -> KevCount
    ensures { result ≡ count_shown (written_told written) }
{
    match written {
        Ok(count) => KevCount { number: 0, count },
        Err(why) => KevCount {
            number: why.number(),
            count: 0,
        },
    }
}

pub fn count(counted: Result<usize, Refusal>) -> KevCount
    ensures { result ≡ count_shown (count_told counted) }
{
    match counted {
        Ok(count) => KevCount { number: 0, count },
        Err(why) => KevCount {
            number: why.number(),
            count: 0,
        },
    }
}

// ---- readings of a table

pub fn heartbeat(remembered: Result<Option<Heartbeat>, Refusal>) -> KevHeartbeat
    ensures { result ≡ heartbeat_shown (remembered_told remembered) }
{
    match remembered {
        Ok(Some(beats)) => KevHeartbeat {
            number: 0,
            found: 1,
            heartbeat: beats.0,
        },
        Ok(None) => KevHeartbeat {
            number: 0,
            found: 0,
            heartbeat: 0,
        },
        Err(why) => KevHeartbeat {
            number: why.number(),
            found: 0,
            heartbeat: 0,
        },
    }
}

pub fn node(named: Result<u64, Refusal>) -> KevNode
    ensures { result ≡ node_shown (node_number_told named) }
{
    match named {
        Ok(node) => KevNode { number: 0, node },
        Err(why) => KevNode {
            number: why.number(),
            node: 0,
        },
    }
}

pub fn found(place: Result<Option<Found>, Refusal>) -> KevFound
    ensures { result ≡ found_shown (found_told place) }
{
    match place {
        Ok(Some(text)) => KevFound {
            number: 0,
            found: 1,
            start: text.start,
            len: text.len,
        },
        Ok(None) => KevFound {
            number: 0,
            found: 0,
            start: 0,
            len: 0,
        },
        Err(why) => KevFound {
            number: why.number(),
            found: 0,
            start: 0,
            len: 0,
        },
    }
}

pub fn found_over(place: Result<Option<FoundOver>, RefusedOver>) -> KevFoundOver
    ensures { result ≡ found_over_shown (found_over_told place) }
{
    match place {
        Ok(Some(FoundOver::InOverrides { start, len })) => KevFoundOver {
            number: 0,
            found: 1,
            over: 1,
            start,
            len,
            which: 0,
        },
        Ok(Some(FoundOver::InTable { start, len })) => KevFoundOver {
            number: 0,
            found: 1,
            over: 0,
            start,
            len,
            which: 0,
        },
        Ok(None) => KevFoundOver {
            number: 0,
            found: 0,
            over: 0,
            start: 0,
            len: 0,
            which: 0,
        },
        Err(RefusedOver { which, why }) => KevFoundOver {
            number: why.number(),
            found: 0,
            over: 0,
            start: 0,
            len: 0,
            which: which.code(),
        },
    }
}

pub fn hits_over(listed: Result<usize, RefusedOver>) -> KevListedOver
    ensures { result ≡ listed_over_shown (listed_over_told listed) }
{
    match listed {
        Ok(count) => KevListedOver {
            number: 0,
            count,
            which: 0,
        },
        Err(RefusedOver { which, why }) => KevListedOver {
            number: why.number(),
            count: 0,
            which: which.code(),
        },
    }
}

pub fn header(read: Result<Header, Refusal>) -> KevHeader
    ensures { result ≡ header_shown (node_header_told read) }
{
    match read {
        Ok(h) => {
            let beats = h.heartbeat;
            KevHeader {
                number: 0,
                heartbeat: beats.0,
                max: h.max,
                last_gc: h.last_gc,
            }
        }
        Err(why) => KevHeader {
            number: why.number(),
            heartbeat: 0,
            max: 0,
            last_gc: 0,
        },
    }
}

pub fn rows(read: Result<Rows, Refusal>) -> KevRows
    ensures { result ≡ rows_shown (rows_told read) }
{
    match read {
        Ok(Rows { at, count }) => KevRows {
            number: 0,
            at,
            count,
        },
        Err(why) => KevRows {
            number: why.number(),
            at: 0,
            count: 0,
        },
    }
}

fn no_record(number: u64) -> KevRecord
    ensures { result ≡ no_record number }
{
    KevRecord {
        number,
        found: 0,
        key_at: 0,
        value_at: 0,
        keylen: 0,
        valuelen: 0,
        version: 0,
        status: 0,
        start: 0,
    }
}

pub fn record(read: Result<Option<RecordRead>, Refusal>) -> KevRecord
    ensures { result ≡ record_shown (record_read_told read) }
{
    match read {
        Ok(Some(row)) => {
            let record = row.record;
            let status = record.status;
            KevRecord {
                number: 0,
                found: 1,
                key_at: row.key,
                value_at: row.value,
                keylen: record.keylen,
                valuelen: record.valuelen,
                version: record.version,
                status: status.byte(),
                start: record.start,
            }
        }
        Ok(None) => no_record(0),
        Err(why) => no_record(why.number()),
    }
}

// ---- digests

pub fn digest(read: Digest) -> KevDigest
    ensures { result ≡ digest_shown (digest_told read) }
{
    let verdict = read.read;
    match verdict {
        Ok(DigestRead { count, rest }) => KevDigest {
            number: 0,
            count,
            rest,
            need: 0,
        },
        Err(why) => KevDigest {
            number: why.number(),
            count: 0,
            rest: 0,
            need: why.need(),
        },
    }
}

fn no_entry(why: Refusal) -> KevEntry
    ensures { result ≡ entry_shown (refused why []) }
{
    KevEntry {
        number: why.number(),
        node: 0,
        heartbeat: 0,
        last_gc: 0,
        max: 0,
        need: why.need(),
    }
}

// What a digest tells in place `i`: 8 where it tells of no more nodes.
pub fn entry(read: Digest, i: usize) -> KevEntry
    ensures { result ≡ entry_shown (entry_told i read) }
{
    let verdict = read.read;
    match verdict {
        Err(why) => no_entry(why),
        Ok(DigestRead { count, rest: _ }) => {
            if sizes::NODES <= i {
                return no_entry(Refusal::NoPlace);
            }
            if count <= i {
                return no_entry(Refusal::NoPlace);
            }
            let entries = read.entries;
            let e = entries[i];
            let beats = e.heartbeat;
            KevEntry {
                number: 0,
                node: e.number,
                heartbeat: beats.0,
                last_gc: e.last_gc,
                max: e.max,
                need: 0,
            }
        }
    }
}

// ---- deltas

pub fn computed(sent: Result<Sent, Refusal>) -> KevComputed
    ensures { result ≡ computed_shown (computed_told sent) }
{
    match sent {
        Ok(Sent { ops, bytes }) => KevComputed {
            number: 0,
            ops,
            bytes,
            need: 0,
        },
        Err(why) => KevComputed {
            number: why.number(),
            ops: 0,
            bytes: 0,
            need: why.need(),
        },
    }
}

pub fn judged(said: Result<(), NotSent>) -> KevJudged
    ensures { result ≡ judged_shown (judged_told said) }
{
    match said {
        Ok(()) => KevJudged {
            number: 0,
            line: 0,
            why: 0,
            need: 0,
        },
        Err(NotSent::AtFault { line, why }) => KevJudged {
            number: Refusal::BadPlan.number(),
            line,
            why: why.code(),
            need: 0,
        },
        Err(NotSent::Refused(refusal)) => KevJudged {
            number: refusal.number(),
            line: 0,
            why: 0,
            need: refusal.need(),
        },
    }
}

pub fn delta(read: Result<DeltaRead, DeltaFault>) -> KevDelta
    ensures { result ≡ delta_shown (read_told read) }
{
    match read {
        Ok(DeltaRead { ops, nodes }) => KevDelta {
            number: 0,
            ops,
            nodes,
            at: 0,
            need: 0,
        },
        Err(DeltaFault { why, at }) => KevDelta {
            number: why.number(),
            ops: 0,
            nodes: 0,
            at,
            need: why.need(),
        },
    }
}

pub fn applied(taken: Result<usize, DeltaFault>) -> KevApplied
    ensures { result ≡ applied_shown (applied_told taken) }
{
    match taken {
        Ok(nodes) => KevApplied {
            number: 0,
            nodes,
            at: 0,
            need: 0,
        },
        Err(DeltaFault { why, at }) => KevApplied {
            number: why.number(),
            nodes: 0,
            at,
            need: why.need(),
        },
    }
}

// The number of a line that is not in its form is 16.
pub fn made(answer: Result<usize, NotMade>) -> KevMade
    ensures { result ≡ made_shown (made_told answer) }
{
    match answer {
        Ok(bytes) => KevMade {
            number: 0,
            bytes,
            line: 0,
            at: 0,
            need: 0,
        },
        Err(NotMade::BadLine(line)) => KevMade {
            number: 16,
            bytes: 0,
            line,
            at: 0,
            need: 0,
        },
        Err(NotMade::Refused(fault)) => {
            let why = fault.why;
            KevMade {
                number: why.number(),
                bytes: 0,
                line: 0,
                at: fault.at,
                need: why.need(),
            }
        }
    }
}

// ---- an exchange

fn step_code(step: Step) -> usize
    ensures { result ≡ step_code step }
{
    match step {
        Step::Digest => 1,
        Step::Delta => 2,
        Step::Applying => 3,
    }
}

pub fn exchanged(answer: Result<Exchanged, Stopped>) -> KevExchanged
    ensures { result ≡ exchanged_shown (exchanged_told answer) }
{
    match answer {
        Ok(Exchanged { ops, bytes, nodes }) => KevExchanged {
            number: 0,
            ops,
            bytes,
            nodes,
            step: 0,
        },
        Err(Stopped { step, why }) => KevExchanged {
            number: why.number(),
            ops: 0,
            bytes: 0,
            nodes: 0,
            step: step_code(step),
        },
    }
}
