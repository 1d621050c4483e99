// The checksum of a table or a grid: h = 0; for each byte b of it, h = (31 h + b) mod 4294967291.
use replay_words::print;

const MODULUS: u64 = 4294967291;

// Four bytes a turn, so that they share one division, then the rest.
fn sum_of(table: &[u8]) -> u64 {
    let fours = table.chunks_exact(4);
    let rest = fours.remainder();
    let mut sum = 0;
    for four in fours {
        let [a, b, c, d] = [four[0], four[1], four[2], four[3]].map(u64::from);
        sum = (sum * 923521 + a * 29791 + b * 961 + c * 31 + d) % MODULUS;
    }
    for byte in rest {
        sum = (sum * 31 + u64::from(*byte)) % MODULUS;
    }
    sum
}

// A space and the checksum.
pub fn told(out: &mut [u8], at: usize, bytes: &[u8]) -> usize {
    let next = print::byte(out, at, b' ');
    print::decimal(out, next, sum_of(bytes))
}
