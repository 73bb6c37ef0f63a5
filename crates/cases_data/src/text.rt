// Text in lent bytes: parts of it, its fields, numbers and hex digits.
ghost use Rattle.std.specs.Prelude.{min, ◌≡◌};
ghost use Rattle.cases_data.specs.Parts.{bytes_from};

// The bytes from one place up to another; none where that is no part.
#[tactic(auto, unfolding(crate::specs::Parts::bytes_from, basics::specs::Choose::pick))]
pub fn part(text: &[u8], from: usize, to: usize) -> &[u8]
    ensures { result.now ≡ bytes_from text.now from to }
{
    text.get(from..to).unwrap_or(&[])
}

// A word's letter.
pub fn letter(word: &[u8]) -> Option<u8> {
    word.first().copied()
}

// What stands before, between or after such bytes, the first being part 0; none where the text has fewer.
fn nth_part(text: &[u8], b: u8, k: usize) -> &[u8] {
    text.split(|&c| c == b).nth(k).unwrap_or(&[])
}

// A field of a line.
pub fn field(line: &[u8], k: usize) -> &[u8] {
    nth_part(line, b'\t', k)
}

// What a word gives after its letter, or after a comma.
pub fn given(word: &[u8], k: usize) -> &[u8] {
    nth_part(word.get(1..).unwrap_or(&[]), b',', k)
}

// A number of those that a word gives.
pub fn nth(word: &[u8], k: usize) -> u64 {
    number(given(word, k))
}

// One decimal digit more. No `saturating_mul`: from 18,446,744,073,709,551,610 on a number is taken for the largest of 64 bits.
fn with_digit(n: u64, c: u8) -> u64 {
    if n <= 1844674407370955160 {
        return n * 10 + u64::from(c % 16 % 10);
    }
    u64::MAX
}

fn number(digits: &[u8]) -> u64 {
    digits.iter().fold(0, |n, &c| with_digit(n, c))
}

// What a hex digit in lower case stands for: this program's own reading, in which any letter stands for some number, and so none is refused.
fn digit(c: u8) -> u8 {
    if c < b':' {
        return c % 16;
    }
    (c % 16 + 9) % 16
}

fn byte(high: u8, low: u8) -> u8 {
    digit(high) % 16 * 16 + digit(low) % 16
}

// The lesser of two numbers. It stays beside `min`, since docs/EDITS.md names it and what its contract rules out.
pub fn least(a: usize, b: usize) -> usize
    ensures { result ≡ min a b }
{
    a.min(b)
}

// The bytes that hex digits spell, as many as fit.
pub fn decode<'a>(hex: &[u8], into: &'a mut [u8]) -> &'a [u8] {
    for (to, pair) in into.iter_mut().zip(hex.chunks_exact(2)) {
        *to = byte(pair[0], pair[1]);
    }
    &into[..least(hex.len() / 2, into.len())]
}
