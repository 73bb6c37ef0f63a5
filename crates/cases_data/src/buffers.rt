// What is lent for a reading: a work area and a leaf table, which hold the same before each.
ghost use Rattle.std.specs.Prelude.{◌≡◌, true, ◌↔◌, take};
ghost use Rattle.cases_data.specs.Parts.{level_part, SameLevels, SameNumbers};

use crate::text::{least, part};

const LEVEL_BYTES: usize = 12288;

// What every byte of a work area and every number of a table is before a reading; neither is 0.
pub const FILL_BYTE: u8 = 165;

pub const FILL_NUMBER: u64 = 11936128518282651045;

// The first n, or all that there are.
pub fn lent<T>(all: &mut [T], n: usize) -> &mut [T]
    ensures { result.now ≡ take n all.old }
{
    let most = least(n, all.len());
    &mut all[..most]
}

// The first n bytes of each level's part.
pub fn fill_levels(work: &mut [u8], n: usize) {
    for part in work.chunks_mut(LEVEL_BYTES).take(4) {
        lent(part, n).fill(FILL_BYTE);
    }
}

// The first n numbers of a table.
pub fn fill_numbers(table: &mut [u64], n: usize) {
    lent(table, n).fill(FILL_NUMBER);
}

// Whether two parts hold the same bytes. It stays beside `==`, since docs/PROMISES.md names it and its contract.
pub fn same_bytes(a: &[u8], b: &[u8]) -> bool
    ensures { (result ≡ true) ↔ (a.now ≡ b.now) }
{
    a == b
}

// Whether two tables are equally long and their first n numbers are the same: a promise of docs/PROMISES.md.
pub fn same_numbers(v: &[u64], w: &[u64], n: usize) -> bool
    ensures { (result ≡ true) ↔ SameNumbers v.now w.now n }
{
    let most = least(n, v.len());
    v.len() == w.len() && v[..most] == w[..most]
}

// The first n bytes of one level's part of the work area.
fn level_part(work: &[u8], level: usize, n: usize) -> &[u8]
    ensures { result.now ≡ level_part work.now level n }
{
    if level < 4 {
        let from = LEVEL_BYTES * level;
        return part(part(work, from, from + LEVEL_BYTES), 0, n);
    }
    &[]
}

fn same_level(a: &[u8], b: &[u8], level: usize, n: usize) -> bool
    ensures { (result ≡ true) ↔ (level_part a.now level n ≡ level_part b.now level n) }
{
    same_bytes(level_part(a, level, n), level_part(b, level, n))
}

// Whether the first n bytes of each level's part of two work areas are the same.
pub fn same_levels(a: &[u8], b: &[u8], n: usize) -> bool
    ensures { (result ≡ true) ↔ SameLevels a.now b.now n }
{
    (0..4).all(|level| same_level(a, b, level, n))
}
