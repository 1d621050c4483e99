// What is asked before an exchange writes anything: whether both tables, the MTU and all that is lent allow it, and whether the follower's profile takes the
// publisher's records. Any bytes may be lent.
#![tactic(auto)]

ghost use Rattle.std.specs.Prelude.{◌≡◌, true};
ghost use Rattle.rules.specs.Layout.{decode};
ghost use Rattle.rules.specs.Profile.{table_formed};
ghost use Rattle.rules.specs.Whole.{decode_whole, valid_whole};
ghost use Rattle.table.specs.Fits.{LaidTable};
ghost use Rattle.exchange_ask.specs.Asking.{ready_for, ready_on, rooms, rooms_for, taking_for};

use rules::{Profile, Refusal, wire};
use table::layout;

// The step of an exchange that a refusal belongs to: the follower's digest, the publisher's delta, applying it to the follower.
#[derive(Clone, Copy)]
pub enum Step {
    Digest,
    Delta,
    Applying,
}

// Why an exchange is not done: which of its calls refuses, and with what.
#[derive(Clone, Copy)]
pub struct Stopped {
    pub step: Step,
    pub why: Refusal,
}

// Whether the records of a good publisher are in the form of a follower's profile. They are looked at only where the profiles differ and the follower's is
// not free: a good table is in the form of its own.
fn forms_fit(publisher: &[u8], profile: Profile) -> bool
    requires { valid_whole publisher.now ≡ true }
    ensures { result ≡ table_formed profile (decode_whole publisher.now).table }
{
    let own = profile_check::profile_of(publisher);
    if profile.byte() == own.byte() {
        return true;
    }
    match profile {
        Profile::Free => true,
        Profile::Meter | Profile::Shared => {
            profile_check::check_forms(profile, &publisher[..layout::AREA])
        }
    }
}

// What applying would ask: 17 or 19, then 8 for the answers. A place for each node of the publisher's table is enough, as the delta has no more.
fn ask_taking(profile: Profile, formed: bool, answers: usize, nodes: usize) -> Result<(), Stopped>
    ensures { result ≡ taking_for profile formed answers nodes }
{
    if !formed {
        return Err(Stopped {
            step: Step::Applying,
            why: delta_form::odd_number(profile),
        });
    }
    if answers < nodes {
        return Err(Stopped {
            step: Step::Applying,
            why: Refusal::NoPlace,
        });
    }
    Ok(())
}

// Of good tables, an MTU, so many ties, bytes of the two datagrams and places for answers: 8 for the digest, 7, 8, 15 for the delta, then what applying asks.
fn ask_rooms(
    publisher: &[u8],
    follower: &[u8],
    edition: u64,
    unasked: &[u64],
    mtu: usize,
    ties: usize,
    digest: usize,
    delta: usize,
    answers: usize,
    profile: Profile,
    formed: bool,
) -> Result<(), Stopped>
    requires { LaidTable publisher.now × LaidTable follower.now }
    ensures { result ≡ rooms_for edition unasked.now (rooms mtu ties digest delta answers) profile formed
        (decode publisher.now) (decode follower.now) }
{
    if digest < digest_write::digest_size(follower, edition, unasked) {
        return Err(Stopped {
            step: Step::Digest,
            why: Refusal::NoPlace,
        });
    }
    let nodes = fields::byte_at(publisher, layout::NODE_COUNT);
    compute::ask(mtu, 0, delta, ties, nodes).map_err(|why| Stopped {
        step: Step::Delta,
        why,
    })?;
    ask_taking(profile, formed, answers, nodes)
}

// Of good tables: 20 for another edition, told of the digest, then as above.
fn ask_good(
    publisher: &[u8],
    follower: &[u8],
    edition: u64,
    unasked: &[u64],
    mtu: usize,
    ties: usize,
    digest: usize,
    delta: usize,
    answers: usize,
    profile: Profile,
    formed: bool,
) -> Result<(), Stopped>
    requires { LaidTable publisher.now × LaidTable follower.now }
    ensures { result ≡ ready_on edition unasked.now (rooms mtu ties digest delta answers) profile formed
        (decode publisher.now) (decode follower.now) }
{
    if !wire::is_edition(edition) {
        return Err(Stopped {
            step: Step::Digest,
            why: Refusal::BadEdition,
        });
    }
    ask_rooms(
        publisher, follower, edition, unasked, mtu, ties, digest, delta, answers, profile, formed,
    )
}

// Of any bytes: 14 first, of the follower's table and of the publisher's.
pub fn ask(
    publisher: &[u8],
    follower: &[u8],
    edition: u64,
    unasked: &[u64],
    mtu: usize,
    ties: usize,
    digest: usize,
    delta: usize,
    answers: usize,
) -> Result<(), Stopped>
    ensures { result ≡ ready_for edition unasked.now (rooms mtu ties digest delta answers) publisher.now follower.now }
{
    if !table_check::check_table(follower) {
        return Err(Stopped {
            step: Step::Digest,
            why: Refusal::BadTable,
        });
    }
    if !table_check::check_table(publisher) {
        return Err(Stopped {
            step: Step::Delta,
            why: Refusal::BadTable,
        });
    }
    let profile = profile_check::profile_of(follower);
    let formed = forms_fit(publisher, profile);
    ask_good(
        &publisher[..layout::AREA],
        &follower[..layout::AREA],
        edition,
        unasked,
        mtu,
        ties,
        digest,
        delta,
        answers,
        profile,
        formed,
    )
}
