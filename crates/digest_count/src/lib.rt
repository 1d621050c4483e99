// How many entries a digest has, in the edition whose number the caller tells, before any of them is looked at: any bytes are an input, and what is no digest
// is refused here. What is counted is what the definitions of `rules` say (specs/Counting.antt; the proof is in `digest_read`).
#![tactic(auto)]

ghost use Rattle.std.specs.Prelude.{◌≡◌};
ghost use Rattle.digest_count.specs.Counting.{count_in, count_told, count_whole};

use rules::{Refusal, sizes, wire};

// V0. How many entries the count announces: 9 for the count, 13, then 9. With 9 goes what the field lacks: the count, or a number of an entry.
fn count_told(digest: &[u8]) -> Result<usize, Refusal>
    ensures { result ≡ count_told digest.now }
{
    if digest.len() < wire::COUNT_WIDTH {
        return Err(Refusal::Cut(wire::COUNT_WIDTH - digest.len()));
    }
    let n = fields::read_u16(digest, 0);
    if sizes::NODES < n {
        return Err(Refusal::TooMany);
    }
    let present = digest.len() - wire::COUNT_WIDTH;
    if present < n * wire::ENTRY_WIDTH {
        return Err(Refusal::Cut(wire::number_lacks(present)));
    }
    Ok(n)
}

// V1. How many entries the bytes are: 9 where that is no whole number, with what the number lacks in which they end, then 13.
fn count_whole(digest: &[u8]) -> Result<usize, Refusal>
    ensures { result ≡ count_whole digest.now }
{
    let whole = digest.len() / wire::ENTRY_WIDTH;
    let over = digest.len() % wire::ENTRY_WIDTH;
    let lacks = wire::number_lacks(digest.len());
    if 0 < over {
        return Err(Refusal::Cut(lacks));
    }
    if whole <= sizes::NODES {
        return Ok(whole);
    }
    Err(Refusal::TooMany)
}

// How many entries the digest has: 20 for another edition, then what the edition says.
pub fn count_entries(edition: u64, digest: &[u8]) -> Result<usize, Refusal>
    ensures { result ≡ count_in edition digest.now }
{
    match edition {
        wire::V0 => count_told(digest),
        wire::V1 => count_whole(digest),
        _ => Err(Refusal::BadEdition),
    }
}
