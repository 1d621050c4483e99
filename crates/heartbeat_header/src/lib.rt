// The heartbeat rules on a node's small header: its heartbeat, max and last_gc. Document 01 has two rules. An offer of a heartbeat: if 0
// is held, it is stored and the answer is no; if the offer is greater, it is stored and the answer is yes; else the answer is no. A local
// beat raises the heartbeat by one; where it is 2^64-1 it cannot rise, and the header stays as it is.
//
// The rules stand in functions by value (`kept`, `told`, `risen`, `can_rise`). The thin functions on a header that is lent, `offer_heartbeat` and
// `raise_heartbeat`, read the heartbeat, ask them, and store. `offered` and `raised` lend a header that the caller holds: the calls on a lent table go
// through them, and so through the thin ones. A heartbeat is a `Heartbeat` throughout, so none is taken for a version.
#![tactic(auto)]

ghost use Rattle.std.specs.Prelude.{◌≡◌};
ghost use Rattle.rules.specs.Given.{Gives};
ghost use Rattle.rules.specs.Node.{offer_of};
ghost use Rattle.heartbeat_header.specs.Headers.{offered_to, can_rise, risen_from, raised_of, lent_offered, lent_raised};

use rules::{Header, Heartbeat, sizes};

// The header after an offer, and whether the offer was news.
#[derive(Clone, Copy)]
pub struct OfferedHeader {
    pub header: Header,
    pub news: bool,
}

// The header after a local beat, and whether the heartbeat rose. It does not where it is 2^64-1.
#[derive(Clone, Copy)]
pub struct RaisedHeader {
    pub header: Header,
    pub rose: bool,
}

// The heartbeat that stands after an offer.
fn kept(held: Heartbeat, got: Heartbeat) -> Heartbeat
    ensures { result ≡ (offer_of held got).heartbeat }
{
    rules::after_offer(held, got).heartbeat
}

// Whether an offer is news.
fn told(held: Heartbeat, got: Heartbeat) -> bool
    ensures { result ≡ (offer_of held got).news }
{
    rules::after_offer(held, got).news
}

// Whether a heartbeat can rise.
fn can_rise(held: Heartbeat) -> bool
    ensures { result ≡ can_rise held }
{
    held.0 < sizes::TOP
}

// The heartbeat after a local beat: one more, and where it cannot rise, the same.
fn risen(held: Heartbeat) -> Heartbeat
    ensures { result ≡ risen_from held }
{
    if can_rise(held) {
        return Heartbeat(held.0 + 1);
    }
    held
}

// A heartbeat offer to a header that is lent: whether the offer was news. max and last_gc are untouched.
pub fn offer_heartbeat(header: &mut Header, got: Heartbeat) -> bool
    ensures { Gives (lent_offered got header.old) result header.new }
{
    let held = header.heartbeat;
    header.heartbeat = kept(held, got);
    told(held, got)
}

// A local beat on a header that is lent: whether the heartbeat rose. Where it did not, the header is untouched.
pub fn raise_heartbeat(header: &mut Header) -> bool
    ensures { Gives (lent_raised header.old) result header.new }
{
    let held = header.heartbeat;
    header.heartbeat = risen(held);
    can_rise(held)
}

// ---- the same for a caller that holds a header

// The header after an offer, and whether the offer was news.
pub fn offered(header: Header, got: Heartbeat) -> OfferedHeader
    ensures { result ≡ offered_to header got }
{
    let mut after = header;
    let news = offer_heartbeat(&mut after, got);
    OfferedHeader {
        header: after,
        news,
    }
}

// The header after a local beat, and whether the heartbeat rose.
pub fn raised(header: Header) -> RaisedHeader
    ensures { result ≡ raised_of header }
{
    let mut after = header;
    let rose = raise_heartbeat(&mut after);
    RaisedHeader {
        header: after,
        rose,
    }
}
