// The text of a listing, line by line, as values: what is printed is proved, and only the write is not.
#![tactic(auto)]

ghost use Rattle.std.specs.Prelude.{[], ◌∷◌, ◌++◌, ◌≡◌, ◌+◌, ◌*◌, ◌≤◌, ◌<◌, length};
ghost use Rattle.table.specs.Table.{record_numbers, record_at};
ghost use Rattle.listing.specs.Text.{decimal_in, spaced, ok_word, refused_text, heading_text, leaf_text, table_line, line_of, Adds};

use machine::Refusal;
use records::{numbers_of, record_at};
use table::{NUMBERS, Record};

// How many digits the largest number of 64 bits has.
const DIGITS: usize = 20;

const SPACE: u8 = 32;

const ZERO: u8 = 48;

// A line without its end: `length` bytes of text, then zeros.
// The longest is a leaf's: seven numbers of 20 digits, and six spaces. Fixed memory, no heap: so a length beside the bytes, and no String.
#[derive(Clone, Copy)]
pub struct Line {
    pub bytes: [u8; 192],
    pub length: usize,
}

impl Line {
    // A line that starts with a word.
    fn starting(word: &[u8]) -> Line
        requires { length word.now ≤ 7 }
        ensures { result ≡ line_of word.now }
    {
        let mut line = Line {
            bytes: [0; 192],
            length: 0,
        };
        for &b in word {
            line = line.with_byte(b);
        }
        line
    }

    fn with_byte(mut self, b: u8) -> Line
        requires { self.length < 192 }
        ensures { Adds self (b ∷ []) result }
    {
        self.bytes[self.length] = b;
        self.length += 1;
        self
    }

    // A number, the most significant digit first, in at most so many digits. By hand: Display writes to what can refuse, and `heading`,
    // `leaf_line` and `table_line` can't fail.
    fn with_decimal(self, n: u64, most: usize) -> Line
        requires { self.length + most ≤ 192 }
        ensures { Adds self (decimal_in most n) result }
    {
        if most == 0 {
            return self;
        }
        if n < 10 {
            return self.with_byte(ZERO + n as u8);
        }
        let tens = self.with_decimal(n / 10, most - 1);
        tens.with_byte(ZERO + (n % 10) as u8)
    }

    // A space and a number.
    fn with_next(self, n: u64) -> Line
        requires { self.length + 21 ≤ 192 }
        ensures { Adds self (spaced (n ∷ [])) result }
    {
        self.with_byte(SPACE).with_decimal(n, DIGITS)
    }

    fn with_numbers(self, numbers: &[u64]) -> Line
        requires { self.length + 21 * length numbers.now ≤ 192 }
        ensures { Adds self (spaced numbers.now) result }
    {
        let mut line = self;
        for &n in numbers {
            line = line.with_next(n);
        }
        line
    }
}

// `ok` with the leaf count.
fn listed_line(leaves: u64) -> Line
    ensures { result ≡ line_of (ok_word ++ spaced (leaves ∷ [])) }
{
    Line::starting(b"ok").with_numbers(&[leaves])
}

// `refused`, number, place.
pub fn refused_line(r: Refusal) -> Line
    ensures { result ≡ line_of (refused_text r) }
{
    Line::starting(b"refused").with_numbers(&[r.number, r.place])
}

// The first line of a listing.
pub fn heading(answer: Result<u64, Refusal>) -> Line
    ensures { result ≡ line_of (heading_text answer) }
{
    match answer {
        Ok(leaves) => listed_line(leaves),
        Err(refusal) => refused_line(refusal),
    }
}

// A leaf's line: its number, from 1, and the numbers of its record.
pub fn leaf_line(number: u64, leaf: Record) -> Line
    ensures { result ≡ line_of (leaf_text number leaf) }
{
    Line::starting(b"")
        .with_decimal(number, DIGITS)
        .with_numbers(&numbers_of(leaf))
}

// The line of the leaf with so many before it, whose record the leaf table holds.
fn leaf_at(table: &[u64], i: usize) -> Line
    requires { record_numbers * i + record_numbers ≤ length table.now }
    ensures { result ≡ line_of (leaf_text (i + 1) (record_at table.now i)) }
{
    let leaf = record_at(table, i);
    leaf_line((i + 1) as u64, leaf)
}

// The line of the leaf with so many before it, from its record in the leaf table; empty where the table holds no such record.
pub fn table_line(table: &[u64], i: usize) -> Line
    ensures { result ≡ line_of (table_line table.now i) }
{
    if table.len() / NUMBERS <= i {
        return Line::starting(b"");
    }
    leaf_at(table, i)
}
