// What the words of a script say.
use crate::text::{decode, given, letter, nth};

// How much is lent.
#[derive(Clone, Copy)]
pub struct Lent {
    pub bytes: usize,
    pub numbers: usize,
}

// Four letters, or else `msdh`.
pub fn brand_of(text: &[u8]) -> [u8; 4] {
    text.first_chunk().copied().unwrap_or(*b"msdh")
}

// How often a piece is fed: once, if the word does not say.
pub fn times(word: &[u8]) -> u64 {
    nth(word, 2).max(1)
}

// What is lent from a word on.
pub fn lent_after(word: &[u8], lent: Lent) -> Lent {
    match letter(word) {
        Some(b'a') => Lent {
            bytes: nth(word, 0) as usize,
            ..lent
        },
        Some(b't') => Lent {
            numbers: nth(word, 0) as usize,
            ..lent
        },
        _ => lent,
    }
}

// The bytes that a word gives, at their place.
pub fn put_bytes(word: &[u8], work: &mut [u8]) {
    if let Some(into) = work.get_mut(nth(word, 0) as usize..) {
        decode(given(word, 1), into);
    }
}

// The number that a word gives, at its place.
pub fn put_number(word: &[u8], table: &mut [u64]) {
    if let Some(n) = table.get_mut(nth(word, 0) as usize) {
        *n = nth(word, 1);
    }
}
