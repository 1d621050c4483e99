// Lines of the input, read by the chunk. What holds them is lent, and there is no heap: so no allocation can fail.
use anyhow::Result;
use replay_words::read;
use std::io::Read;

// Room for a line: one byte more than the longest that is taken. A line that fills it is too long.
pub const LINE: usize = 59938;

pub const CHUNK: usize = 65536;

// More lines, or chunks of a line, than any input has.
pub const MOST: u64 = 1099511627776;

// What is left of the chunk: the bytes from `at` to `end`.
#[derive(Clone, Copy)]
pub struct Left {
    pub at: usize,
    pub end: usize,
}

// Puts bytes behind the first `len` of the line, as many as have room, and answers how many there are then.
fn extended(line: &mut [u8; LINE], len: usize, bytes: &[u8]) -> usize {
    let Some(room) = line.get_mut(len..) else {
        return len;
    };
    let n = bytes.len().min(room.len());
    room[..n].copy_from_slice(&bytes[..n]);
    len + n
}

// The next line into `line`, without its line feed: as many of its first bytes as have room, and how many these are. None where the input has no more: a
// last line that no line feed closes is one where it is not empty.
pub fn next<R: Read>(
    input: &mut R,
    chunk: &mut [u8; CHUNK],
    left: &mut Left,
    line: &mut [u8; LINE],
) -> Result<Option<usize>> {
    let mut len = 0;
    for _ in 0..MOST {
        if left.end <= left.at {
            let n = match input.read(chunk) {
                Ok(n) => n,
                Err(e) => return Err(streams::unreadable(e)),
            };
            if n == 0 {
                break;
            }
            *left = Left { at: 0, end: n };
        }
        let bytes = read::behind(read::front(chunk, left.end), left.at);
        let end = bytes.iter().position(|byte| *byte == b'\n');
        let more = read::front(bytes, end.unwrap_or(bytes.len()));
        len = extended(line, len, more);
        left.at = left.at.saturating_add(more.len());
        if end.is_some() {
            left.at = left.at.saturating_add(1);
            return Ok(Some(len));
        }
    }
    if len == 0 {
        return Ok(None);
    }
    Ok(Some(len))
}
