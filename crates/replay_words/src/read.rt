// Taking a line apart.
ghost use Rattle.std.specs.Prelude.{◌≡◌, [], ◌<◌, length, get_or, take, drop, IfSome};
ghost use Rattle.replay_words.specs.Reading.{words_of, place_in, numeral_of, counted, stored_in};

// How many words the line has: what stands between single spaces. Two spaces have an empty word between them, and so has an empty line.
pub fn words_of(line: &[u8]) -> usize
    ensures { result ≡ length (words_of line.now) }
{
    line.split(|byte| *byte == b' ').count()
}

// Word k of the line; an empty one where there is none.
pub fn word(line: &[u8], k: usize) -> &[u8]
    ensures { result.now ≡ get_or (words_of line.now) k [] }
{
    line.split(|byte| *byte == b' ').nth(k).unwrap_or(&[])
}

// Which of the names the word is; as many as there are names where it is none of them.
pub fn place_of(names: &[u8], wanted: &[u8]) -> usize
    ensures { result ≡ place_in wanted.now (words_of names.now) }
{
    let place = names
        .split(|byte| *byte == b' ')
        .position(|name| name == wanted);
    place.unwrap_or(words_of(names))
}

// The first `n` items; all of them where there are fewer.
pub fn front<T>(items: &[T], n: usize) -> &[T]
    ensures { result.now ≡ take n items.now }
{
    &items[..n.min(items.len())]
}

// The first `n` bytes, lent on; all of them where there are fewer.
pub fn front_mut(bytes: &mut [u8], n: usize) -> &mut [u8]
    ensures { result.now ≡ take n bytes.old }
{
    let end = n.min(bytes.len());
    &mut bytes[..end]
}

// The bytes behind the first `n`; none where there are fewer.
pub fn behind(bytes: &[u8], n: usize) -> &[u8]
    ensures { result.now ≡ drop n bytes.now }
{
    &bytes[n.min(bytes.len())..]
}

// The bytes behind the first `n`, lent on; none where there are fewer.
pub fn behind_mut(bytes: &mut [u8], n: usize) -> &mut [u8]
    ensures { result.now ≡ drop n bytes.old }
{
    let start = n.min(bytes.len());
    &mut bytes[start..]
}

// The number below 2^64 that the word writes in decimal digits. A `+` before them, which `parse` takes, is none.
pub fn number(word: &[u8]) -> Option<u64>
    ensures { result ≡ numeral_of word.now }
{
    if word.starts_with(b"+") {
        return None;
    }
    str::from_utf8(word).ok()?.parse().ok()
}

// The value of a hexadecimal digit, lower case.
fn digit(byte: u8) -> Option<u8>
    ensures { IfSome result (λ d. d < 16) }
{
    match byte {
        b'0'..=b'9' => Some(byte - b'0'),
        b'a'..=b'f' => Some(byte - b'a' + 10),
        _ => None,
    }
}

// The bytes that the word writes as `x` and two digits each, to the front of the lent ones: how many they are. Where there is no room for them, it counts
// as none.
pub fn bytes(word: &[u8], out: &mut [u8]) -> Option<usize> {
    let digits = word.strip_prefix(b"x")?;
    let n = digits.len() / 2;
    if digits.len() % 2 != 0 || out.len() < n {
        return None;
    }
    for (byte, pair) in out.iter_mut().zip(digits.chunks_exact(2)) {
        *byte = digit(pair[0])? * 16 + digit(pair[1])?;
    }
    Some(n)
}

// The numbers that the word lists with commas, to the front of the lent ones: how many they are. `-` is the empty list.
pub fn numbers(word: &[u8], out: &mut [u64]) -> Option<usize> {
    if word == b"-".as_slice() {
        return Some(0);
    }
    let mut n = 0;
    for text in word.split(|byte| *byte == b',') {
        *out.get_mut(n)? = number(text)?;
        n += 1;
    }
    Some(n)
}

// All of `src`, to the front of the lent bytes: how many they are. Where there is no room for them, it counts as none.
pub fn copy(src: &[u8], out: &mut [u8]) -> Option<usize>
    ensures { (result ≡ counted src.now out.old) × (out.new ≡ stored_in src.now out.old) }
{
    if out.len() < src.len() {
        return None;
    }
    out[..src.len()].copy_from_slice(src);
    Some(src.len())
}

// A byte string: written out, or what was last written by `digest` or `compute`.
pub fn bytes_of(word: &[u8], digest: &[u8], delta: &[u8], given: &mut [u8]) -> Option<usize> {
    match word {
        b"@digest" => copy(digest, given),
        b"@delta" => copy(delta, given),
        _ => bytes(word, given),
    }
}
