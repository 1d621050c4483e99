// Lent memory is marked before a call: where a call wrote outside what it answers, a mark is gone.
use replay_words::read;

// What lent memory is filled with before a call.
pub const MARK: u8 = 238;

// Whether all bytes are as they were marked.
pub fn is_marked(bytes: &[u8]) -> bool {
    // No way out of the loop: `all` leaves early, and a datagram of 32,768 bytes then takes longer than all else that a line does.
    let mut differ = 0;
    for byte in bytes {
        differ |= *byte ^ MARK;
    }
    differ == 0
}

// Whether the bytes before `start` and those from `end` on are as they were marked.
pub fn is_left(bytes: &[u8], start: usize, end: usize) -> bool {
    is_marked(read::front(bytes, start)) && is_marked(read::behind(bytes, end))
}
