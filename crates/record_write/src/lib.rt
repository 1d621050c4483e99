// A record of the table stored as an operation of a delta. Texts are copied eight bytes at a time; what comes with a text from behind its end lies within the
// operation, and is written over by what follows there.
#![tactic(auto)]

ghost use Rattle.std.specs.Prelude.{◌≡◌, ◌+◌, ◌≤◌, length, ◌++◌};
ghost use Rattle.fields.specs.Numbers.{bytes_of};
ghost use Rattle.fields.specs.Parts.{part, put};
ghost use Rattle.rules.specs.Delta.{KeyValueOp, beside_texts, length_width, op_bytes};
ghost use Rattle.rules.specs.Given.{Gives, given};
ghost use Rattle.rules.specs.Layout.{decode_rec, rec_width};
ghost use Rattle.rules.specs.Sizes.{max_key, max_value};
ghost use Rattle.table.specs.Tests.{key_length, value_length};

use rules::{Status, wire};
use table::layout;

// Stores the `n` bytes of `src` from `start` on, eight at a time, and so up to seven more; answers how many.
fn copy_words(s: &mut [u8], at: usize, src: &[u8], start: usize, n: usize) -> usize
    requires { (at + n + 7 ≤ length s.old) × (start + n + 7 ≤ length src.now) }
    ensures { (n ≤ result) × (result ≤ n + 7) × (s.new ≡ put at (part start result src.now) s.old) }
{
    // Rounded up by hand: the library's `div_ceil` asks for a 64-bit multiply, which the smallest processors lack.
    let words = (n + 7) / 8;
    for i in 0..words {
        fields::write_u64(s, at + 8 * i, fields::read_u64(src, start + 8 * i));
    }
    8 * words
}

// Stores a text of `n` bytes behind its length, and up to seven bytes more; answers how many of `src` that are.
fn store_text(s: &mut [u8], at: usize, src: &[u8], start: usize, n: usize) -> usize
    requires { (at + length_width + n + 7 ≤ length s.old) × (start + n + 7 ≤ length src.now) }
    ensures { (n ≤ result) × (result ≤ n + 7)
        × (s.new ≡ put at (bytes_of length_width n ++ part start result src.now) s.old) }
{
    fields::write_u16(s, at, n);
    copy_words(s, at + wire::LENGTH, src, start, n)
}

// Stores a record where there is room for it, and answers how many bytes it takes.
pub fn store_record(record: &[u8], datagram: &mut [u8]) -> usize
    requires { (length «record».now ≡ rec_width) × (key_length «record».now ≤ max_key) × (value_length «record».now ≤ max_value)
        × (beside_texts + key_length «record».now + value_length «record».now ≤ length datagram.old) }
    ensures { Gives (given (beside_texts + key_length «record».now + value_length «record».now)
        (put 0 (op_bytes (KeyValueOp (decode_rec «record».now).kv)) datagram.old)) result datagram.new }
{
    let keylen = fields::byte_at(record, layout::KEY_LENGTH);
    let valuelen = fields::byte_at(record, layout::VALUE_LENGTH);
    let status = Status::of_byte(fields::byte_at(record, layout::STATUS));
    let behind_key = wire::KEY_LENGTH + wire::LENGTH + keylen;
    let behind_value = behind_key + wire::LENGTH + valuelen;
    fields::write_byte(datagram, 0, wire::KEY_VALUE);
    store_text(datagram, wire::KEY_LENGTH, record, layout::KEY, keylen);
    store_text(datagram, behind_key, record, layout::VALUE, valuelen);
    fields::write_u64(
        datagram,
        behind_value,
        fields::read_u64(record, layout::VERSION),
    );
    fields::write_byte(datagram, behind_value + wire::STATUS, status.byte());
    behind_value + wire::VERSION_WIDTH
}
