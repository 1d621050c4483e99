// One hub hears another: its digest, the other's delta, applied. Nothing is left out.
use exchange::Exchanged;
use exchange_ask::Stopped;
use rules::{sizes, wire};

// The longest digest.
const DIGEST: usize = wire::COUNT_WIDTH + sizes::NODES * wire::ENTRY_WIDTH;

// The largest MTU of a story.
const DELTA: usize = 1000;

// An exchange with a tie number for each node; what the nodes answer is in `answers`.
pub fn hear(
    other: &[u8],
    hub: &mut [u8],
    edition: u64,
    mtu: usize,
    ties: &[u64],
    clock: u64,
    answers: &mut [u8],
) -> Result<Exchanged, Stopped> {
    let mut digest = [0u8; DIGEST];
    let mut delta = [0u8; DELTA];
    let none = [0u64; 0];
    exchange::exchange(
        other,
        hub,
        edition,
        mtu,
        &none,
        &none,
        ties,
        clock,
        &mut digest,
        &mut delta,
        answers,
    )
}
