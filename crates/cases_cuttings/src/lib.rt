// A segment fed in one piece, printed, and read again: by the whole reader, and in pieces, byte by byte, of three and of five bytes, so
// that a number begins in one and goes on and ends in others, and in two pieces cut at every place where it is short.
// Every reading starts with buffers that hold the same.
#![tactic(auto)]

ghost use Rattle.std.specs.Prelude.{◌≡◌, ◌+◌, min, true, ◌&&◌, ◌↔◌};
ghost use Rattle.cases_data.specs.Lent.{lent_work, lent_table};
ghost use Rattle.cases_cuttings.specs.Readings.{ReadIn, ReadWhole, ReadsAlike, CutAlike, PiecesAlike};

use cases_data::buffers::{
    FILL_BYTE, FILL_NUMBER, fill_levels, fill_numbers, same_bytes, same_levels, same_numbers,
};
use cases_data::text::{least, part};
use cases_trial::alike::{End, answers_at, end_of, no_end, refused_after, same_end};
use cases_trial::prints::{print, print_listing, show};
use cases_whole::{Done, check_whole};
use feed::{feed, finish, start};
use std::fmt;

// The longest segment that is cut at every place.
const SHORT: usize = 512;

// How many segments were read, and in how many ways again.
#[derive(Clone, Copy, Default)]
pub struct Tally {
    pub segments: u64,
    pub cuttings: u64,
}

impl fmt::Display for Tally {
    fn fmt<W: fmt::Write>(&self, f: &mut fmt::Formatter<W>) -> fmt::Result {
        write!(f, "{} segments, {} cuttings", self.segments, self.cuttings)
    }
}

// How a segment is cut: so many pieces, the first and the others of these lengths.
#[derive(Clone, Copy)]
struct Cutting {
    pieces: usize,
    first: usize,
    other: usize,
}

fn both(a: bool, b: bool) -> bool
    ensures { result ≡ (a && b) }
{
    a && b
}

// Where a piece of so many bytes ends that starts at a place, in a segment of n bytes.
fn piece_end(from: usize, length: usize, n: usize) -> usize
    ensures { result ≡ min (from + length) n }
{
    from.saturating_add(length).min(n)
}

// The end of a reading in pieces, and whether feed answered on the way as it has to where the end is the wanted one.
// No Option: `read_whole` takes the end of a reading whatever it answered.
#[derive(Clone, Copy)]
struct Reading {
    end: End,
    answered: bool,
}

fn read_in(segment: &[u8], cut: Cutting, want: End, work: &mut [u8], table: &mut [u64]) -> Reading
    ensures { ReadIn segment.now cut want work.old table.old result work.new table.new }
{
    let mut s = start(*b"msdh");
    let mut answered = true;
    let mut from = 0;
    let mut to = cut.first;
    for _ in 0..cut.pieces {
        let fed = feed(s, part(segment, from, to), work, table);
        s = fed.state;
        answered = both(answered, answers_at(to as u64, fed.answer, want));
        from = to;
        to = piece_end(from, cut.other, segment.len());
    }
    let finished = finish(s);
    Reading {
        end: end_of(finished.answer, finished.state),
        answered,
    }
}

// In one piece.
fn read_whole(segment: &[u8], work: &mut [u8], table: &mut [u64]) -> End
    ensures { ReadWhole segment.now work.old table.old result work.new table.new }
{
    let n = segment.len();
    let cut = Cutting {
        pieces: 1,
        first: n,
        other: n,
    };
    read_in(segment, cut, no_end(), work, table).end
}

// Whether a reading in pieces answers and ends as that of the whole.
fn reads_alike(segment: &[u8], cut: Cutting, end: End, work: &mut [u8], table: &mut [u64]) -> bool
    ensures { ReadsAlike segment.now cut end work.old table.old result work.new table.new }
{
    let read = read_in(segment, cut, end, work, table);
    both(read.answered, same_end(read.end, end))
}

// In pieces of one length; the whole work area and the whole leaf table are compared.
fn pieces_alike(done: Done<'_>, length: usize) -> bool
    ensures { (result ≡ true) ↔ PiecesAlike done.entry.segment.now length done.entry.end done.entry.work.now done.entry.table.now lent_work lent_table }
{
    let mut own_work = [FILL_BYTE; 49152];
    let mut own_table = [FILL_NUMBER; 1536];
    let cut = Cutting {
        pieces: done.segment.len(),
        first: least(length, done.segment.len()),
        other: length,
    };
    let ends = reads_alike(done.segment, cut, done.end, &mut own_work, &mut own_table);
    let works = same_bytes(&own_work, done.work);
    let both = ends && works;
    both && same_numbers(&own_table, done.table, 1536)
}

// One cut, with buffers of its own that are made as they were again. Of a short segment no entry lies beyond its length in a
// level's part, and no record in the table, so nothing beyond that is looked at.
fn cut_alike(done: Done<'_>, at: usize, own_work: &mut [u8], own_table: &mut [u64]) -> bool
    ensures { (result ≡ true) ↔ CutAlike done.entry.segment.now at done.entry.end done.entry.work.now done.entry.table.now own_work.old own_table.old }
{
    let n = done.segment.len();
    let cut = Cutting {
        pieces: 2,
        first: at,
        other: n,
    };
    let ends = reads_alike(done.segment, cut, done.end, own_work, own_table);
    let works = same_levels(own_work, done.work, n);
    let tables = same_numbers(own_table, done.table, n);
    fill_levels(own_work, n);
    fill_numbers(own_table, n);
    let both = ends && works;
    both && tables
}

// Every cut of a short segment, the first before its first byte and the last after its last; how many there are.
fn check_cuts(rt: &impl Print, done: Done<'_>) -> u64 {
    let n = done.segment.len();
    if SHORT < n {
        return 0;
    }
    let mut own_work = [FILL_BYTE; 49152];
    let mut own_table = [FILL_NUMBER; 1536];
    for at in 0..=n {
        if !cut_alike(done, at, &mut own_work, &mut own_table) {
            show(rt, format_args!(" differs when cut at {at}"));
        }
    }
    (n + 1) as u64
}

// What is said where a reading in pieces of one length is not as the reading of the whole.
fn check_pieces(rt: &impl Print, done: Done<'_>, length: usize) {
    if !pieces_alike(done, length) {
        show(rt, format_args!(" differs in pieces of {length}"));
    }
}

// A segment read again, by the whole reader and in pieces; the tally with the readings in pieces.
fn check_alike(rt: &impl Print, done: Done<'_>, tally: Tally) -> Tally {
    check_whole(rt, done);
    for length in [1, 3, 5] {
        check_pieces(rt, done, length);
    }
    let cuts = check_cuts(rt, done);
    Tally {
        segments: tally.segments.wrapping_add(1),
        cuttings: tally.cuttings.wrapping_add(cuts.wrapping_add(3)),
    }
}

// How many bytes feed took before the one that it refused.
fn print_taken(rt: &impl Print, end: End) {
    if let Some(taken) = refused_after(end).and_then(|after| after.checked_sub(1)) {
        show(rt, format_args!("{taken} read, "));
    }
}

// A segment with its listing, and where it is asked for the byte at which its fault is met.
pub fn run_segment(rt: &impl Print, segment: &[u8], placed: bool, tally: Tally) -> Tally {
    let mut work = [FILL_BYTE; 49152];
    let mut table = [FILL_NUMBER; 1536];
    let end = read_whole(segment, &mut work, &mut table);
    print(rt, b" ");
    if placed {
        print_taken(rt, end);
    }
    print_listing(rt, end.answer, &table);
    let done = Done {
        segment,
        end,
        work: &work,
        table: &table,
    };
    check_alike(rt, done, tally)
}
