// The types of document 01 that code and definitions share. What they mean stands in specs/.
#![tactic(auto)]

ghost use Rattle.std.specs.Prelude.{◌≡◌};
ghost use Rattle.rules.specs.Answers.{number_of, need_of, code_of, mode_of, profile_of, party_of};
ghost use Rattle.rules.specs.Node.{fresh_header, offer_of};
ghost use Rattle.rules.specs.Delta.{status_byte};
ghost use Rattle.rules.specs.Layout.{status_of_byte};
ghost use Rattle.rules.specs.Whole.{mode_of_byte, profile_of_byte};

pub mod sizes;
pub mod wire;

// How a record stands to deletion. Delete and Ttl are scheduled: a removal takes them after the grace. Only Delete hides.
#[derive(Clone, Copy)]
pub enum Status {
    Set,
    Delete,
    Ttl,
}

impl Status {
    // The largest byte that stands for one.
    pub const LAST: usize = 2;

    // The byte that stands for it, in a table and in a delta.
    pub fn byte(self) -> usize
        ensures { result ≡ status_byte self }
    {
        match self {
            Status::Set => 0,
            Status::Delete => 1,
            Status::Ttl => 2,
        }
    }

    // The status that a byte stands for; one above 2 is read as TTL, and who can meet it looks at it first.
    pub fn of_byte(n: usize) -> Self
        ensures { result ≡ status_of_byte n }
    {
        match n {
            0 => Status::Set,
            1 => Status::Delete,
            2 => Status::Ttl,
            _ => Status::Ttl,
        }
    }
}

// A count of beats. It is a type of its own, so that no one takes it for a version.
#[derive(Clone, Copy)]
pub struct Heartbeat(pub u64);

// What a record has beside the bytes of its key and value.
#[derive(Clone, Copy)]
pub struct Record {
    pub keylen: usize,
    pub valuelen: usize,
    pub version: u64,
    pub status: Status,
    pub start: u64,
}

impl Record {
    // The longest key, the longest value.
    pub const KEY: usize = 32;

    pub const VALUE: usize = 64;
}

// What a node has beside its records.
#[derive(Clone, Copy)]
pub struct Header {
    pub heartbeat: Heartbeat,
    pub max: u64,
    pub last_gc: u64,
}

impl Header {
    // The most records of a node, tombstones counted.
    pub const RECORDS: usize = 32;

    // A fresh node's.
    pub fn new() -> Self
        ensures { result ≡ fresh_header }
    {
        Header {
            heartbeat: Heartbeat(0),
            max: 0,
            last_gc: 0,
        }
    }
}

// What an offered heartbeat leaves, and whether it was news.
#[derive(Clone, Copy)]
pub struct Beat {
    pub heartbeat: Heartbeat,
    pub news: bool,
}

// Where 0 is held: store and say no. Where the offer is greater: store and say yes. Else no.
pub fn after_offer(held: Heartbeat, got: Heartbeat) -> Beat
    ensures { result ≡ offer_of held got }
{
    if held.0 == 0 {
        return Beat {
            heartbeat: got,
            news: false,
        };
    }
    if held.0 < got.0 {
        return Beat {
            heartbeat: got,
            news: true,
        };
    }
    Beat {
        heartbeat: held,
        news: false,
    }
}

// How a table takes deltas that may come late. It is chosen when the table is made, and kept in its bytes.
#[derive(Clone, Copy)]
pub enum Mode {
    // Document 01's: no node is fenced.
    Plain,
    // A node that is in a reset is fenced against deltas that are older.
    Fenced,
    // The same, but for a delta that reaches the node's own last_gc: it knows everything that the reset may have taken away.
    Guarded,
}

impl Mode {
    // The largest byte that stands for one.
    pub const LAST: usize = 2;

    // The byte that stands for it in a table.
    pub fn byte(self) -> usize
        ensures { result ≡ mode_of self }
    {
        match self {
            Mode::Plain => 0,
            Mode::Fenced => 1,
            Mode::Guarded => 2,
        }
    }

    // The mode that a byte stands for; one above 2 is read as guarded, and who can meet it looks at it first.
    pub fn of_byte(n: usize) -> Self
        ensures { result ≡ mode_of_byte n }
    {
        match n {
            0 => Mode::Plain,
            1 => Mode::Fenced,
            2 => Mode::Guarded,
            _ => Mode::Guarded,
        }
    }
}

// Which records a table may have. It is chosen when the table is made, and kept in its bytes; it does not hang on the mode.
#[derive(Clone, Copy)]
pub enum Profile {
    // Document 01's: any record.
    Free,
    // Readings alone: keys of small letters, digits and dots, values of decimal digits.
    Meter,
    // Two firms: keys that begin `m/` or `b/`, at most 16 records a node of each.
    Shared,
}

impl Profile {
    // The largest byte that stands for one.
    pub const LAST: usize = 2;

    // The byte that stands for it in a table.
    pub fn byte(self) -> usize
        ensures { result ≡ profile_of self }
    {
        match self {
            Profile::Free => 0,
            Profile::Meter => 1,
            Profile::Shared => 2,
        }
    }

    // The profile that a byte stands for; one above 2 is read as shared, and who can meet it looks at it first.
    pub fn of_byte(n: usize) -> Self
        ensures { result ≡ profile_of_byte n }
    {
        match n {
            0 => Profile::Free,
            1 => Profile::Meter,
            2 => Profile::Shared,
            _ => Profile::Shared,
        }
    }
}

// Who calls, where the call looks at keys. Only a shared table looks at it.
#[derive(Clone, Copy)]
pub enum Party {
    // The metering firm: its keys begin `m/`.
    Metering,
    // The building manager: its keys begin `b/`.
    Building,
    // Neither of the two: in a shared table no key is its own.
    Nobody,
}

impl Party {
    // The records of a node that one of the two may have.
    pub const RECORDS: usize = 16;

    // The party that a number from outside names: 1 the metering firm, 2 the building manager, any other nobody.
    pub fn of_number(n: u64) -> Self
        ensures { result ≡ party_of n }
    {
        if n == 1 {
            return Party::Metering;
        }
        if n == 2 {
            return Party::Building;
        }
        Party::Nobody
    }
}

// Whether a node delta can be applied to a node.
#[derive(Clone, Copy)]
pub enum DeltaStatus {
    // It is from the future, or brings nothing new.
    Reject,
    // It brings something new.
    Apply,
    // It brings something new, but the node must begin afresh: tombstones that it may lack are gone at the sender.
    ApplyAfterReset,
    // The node is in a reset, and the delta is older.
    Fenced,
}

// What is answered for one node delta.
#[derive(Clone, Copy)]
pub enum NodeAnswer {
    Reject,
    Apply,
    ApplyAfterReset,
    // The outcome would have over 32 keys, or in a shared table over 16 of a party: the node stays as it is.
    Room,
    // The table has no such node.
    Unknown,
    // The node is in a reset that the delta is older than: it stays as it is.
    Fenced,
}

impl NodeAnswer {
    // The number that stands for it in a lent list of answers.
    pub fn code(self) -> u8
        ensures { result ≡ code_of self }
    {
        match self {
            NodeAnswer::Reject => 0,
            NodeAnswer::Apply => 1,
            NodeAnswer::ApplyAfterReset => 2,
            NodeAnswer::Room => 3,
            NodeAnswer::Unknown => 4,
            NodeAnswer::Fenced => 5,
        }
    }
}

// Why a call was refused. Document 01 numbers them from 1 to 15 in this order; those behind have the numbers of document 02. No call gives one of these
// until its request lands: which call gives which numbers stands in `demand1: Calls.refusals`, and that it gives no other is proved there.
#[derive(Clone, Copy)]
pub enum Refusal {
    // Key over 32 or value over 64.
    TooLong,
    // No such node.
    NoNode,
    // No such key, for the two deletes.
    NoKey,
    // A ninth node.
    NinthNode,
    // A 33rd key in a local write, or a party's 17th in a shared table.
    NodeFull,
    // A version or heartbeat is 2^64-1 and must rise.
    Exhausted,
    // MTU below 100 or above 16,384.
    BadMtu,
    // A place past the end, or too few bytes or answer places after it.
    NoPlace,
    // The bytes end inside a field: how many bytes that field still lacks.
    Cut(usize),
    // A tag or a status above 2, or a wanted status that a write does not take.
    BadTag,
    // A record or SetMaxVersion before any Node, a version not above the running max, a SetMaxVersion below it.
    OutOfOrder,
    // A node repeated in a delta.
    NodeTwice,
    // A ninth Node, a digest count over 8, a delta over 16,384 bytes.
    TooMany,
    // The lent table breaks a table rule.
    BadTable,
    // The tie list has not one number a node.
    BadTies,
    // A record that is not in the form of the meter profile.
    BadForm,
    // A total that states a smaller number than the one there.
    SmallerTotal,
    // A key of neither party, or of the other one.
    OtherParty,
    // The number of a digest's edition is neither 0 nor 1.
    BadEdition,
    // The number of a peer is above 7.
    BadPeer,
    // No peer is present.
    NobodyPresent,
    // The plan is not one that can be sent.
    BadPlan,
}

impl Refusal {
    // Its number in document 01, or in document 02.
    pub fn number(self) -> u64
        ensures { result ≡ number_of self }
    {
        match self {
            Refusal::TooLong => 1,
            Refusal::NoNode => 2,
            Refusal::NoKey => 3,
            Refusal::NinthNode => 4,
            Refusal::NodeFull => 5,
            Refusal::Exhausted => 6,
            Refusal::BadMtu => 7,
            Refusal::NoPlace => 8,
            Refusal::Cut(_) => 9,
            Refusal::BadTag => 10,
            Refusal::OutOfOrder => 11,
            Refusal::NodeTwice => 12,
            Refusal::TooMany => 13,
            Refusal::BadTable => 14,
            Refusal::BadTies => 15,
            Refusal::BadForm => 17,
            Refusal::SmallerTotal => 18,
            Refusal::OtherParty => 19,
            Refusal::BadEdition => 20,
            Refusal::BadPeer => 21,
            Refusal::NobodyPresent => 22,
            Refusal::BadPlan => 23,
        }
    }

    // How many bytes the field lacks in which the bytes end: 0 for every number but 9.
    pub fn need(self) -> usize
        ensures { result ≡ need_of self }
    {
        match self {
            Refusal::Cut(n) => n,
            _ => 0,
        }
    }
}

// What a delta holds that was written: so many operations, in so many bytes.
#[derive(Clone, Copy)]
pub struct Sent {
    pub ops: usize,
    pub bytes: usize,
}

// What a delta holds that was read.
#[derive(Clone, Copy)]
pub struct DeltaRead {
    pub ops: usize,
    pub nodes: usize,
}

// Why a delta is refused, and where the faulty operation's tag stands: 0 where the refusal has no place.
#[derive(Clone, Copy)]
pub struct DeltaFault {
    pub why: Refusal,
    pub at: usize,
}

// The last_gc and max of a node, as a digest tells them.
#[derive(Clone, Copy)]
pub struct Pair {
    pub last_gc: u64,
    pub max: u64,
}
