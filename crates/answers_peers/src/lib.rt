// What a C caller is told of the answers of `peers`: structs by value, as in `answers`.
#![tactic(auto)]

ghost use Rattle.std.specs.Prelude.{◌≡◌};
ghost use Rattle.rules.specs.Answers.{answer_told};
ghost use Rattle.grid.specs.LentGrid.{least_told, seen_told};
ghost use Rattle.answers_peers.specs.ShownPeers.{least_shown, seen_shown, told_shown};

use rules::{Pair, Refusal};

// The answer to a digest that a peer told; with 9, how many bytes the field lacks in which its bytes end.
#[repr(C)]
#[derive(Clone, Copy)]
pub struct KevTold {
    pub number: u64,
    pub need: usize,
}

// The least max of a node.
#[repr(C)]
#[derive(Clone, Copy)]
pub struct KevLeast {
    pub number: u64,
    pub max: u64,
}

// What a peer told of a node; `found` is 1 where the peer is present.
#[repr(C)]
#[derive(Clone, Copy)]
pub struct KevSeen {
    pub number: u64,
    pub found: usize,
    pub last_gc: u64,
    pub max: u64,
}

pub fn told(answer: Result<(), Refusal>) -> KevTold
    ensures { result ≡ told_shown (answer_told answer) }
{
    match answer {
        Ok(()) => KevTold { number: 0, need: 0 },
        Err(why) => KevTold {
            number: why.number(),
            need: why.need(),
        },
    }
}

pub fn least(answer: Result<u64, Refusal>) -> KevLeast
    ensures { result ≡ least_shown (least_told answer) }
{
    match answer {
        Ok(max) => KevLeast { number: 0, max },
        Err(why) => KevLeast {
            number: why.number(),
            max: 0,
        },
    }
}

pub fn seen(answer: Result<Option<Pair>, Refusal>) -> KevSeen
    ensures { result ≡ seen_shown (seen_told answer) }
{
    match answer {
        Ok(Some(row)) => KevSeen {
            number: 0,
            found: 1,
            last_gc: row.last_gc,
            max: row.max,
        },
        Ok(None) => KevSeen {
            number: 0,
            found: 0,
            last_gc: 0,
            max: 0,
        },
        Err(why) => KevSeen {
            number: why.number(),
            found: 0,
            last_gc: 0,
            max: 0,
        },
    }
}
