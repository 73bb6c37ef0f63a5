// A segment read by the reader of a whole lent segment, beside feed: it has to answer and end alike, and to leave the same in both buffers.
#![tactic(auto)]

ghost use Rattle.std.specs.Prelude.{◌≡◌, true, ◌↔◌};
ghost use Rattle.cases_data.specs.Lent.{lent_work, lent_table};
ghost use Rattle.cases_whole.specs.Reading.{WholeRead, WholeAlike};

use cases_data::buffers::{FILL_BYTE, FILL_NUMBER, same_bytes, same_numbers};
use cases_trial::alike::{End, end_of, same_end};
use cases_trial::prints::print;
use whole::whole;

// A segment that was read, the end of that, and what it left in the work area and the leaf table.
#[derive(Clone, Copy)]
pub struct Done<'a> {
    pub segment: &'a [u8],
    pub end: End,
    pub work: &'a [u8],
    pub table: &'a [u64],
}

// The end of the reading. No other function here holds a state.
fn whole_end(segment: &[u8], work: &mut [u8], table: &mut [u64]) -> End
    ensures { WholeRead segment.now work.old table.old result work.new table.new }
{
    let read = whole(segment, *b"msdh", work, table);
    end_of(read.answer, read.state)
}

// Whether the end is the one given; the whole work area and the whole leaf table are compared.
fn whole_alike(done: Done<'_>) -> bool
    ensures { (result ≡ true) ↔ WholeAlike done.entry.segment.now done.entry.end done.entry.work.now done.entry.table.now lent_work lent_table }
{
    let mut own_work = [FILL_BYTE; 49152];
    let mut own_table = [FILL_NUMBER; 1536];
    let own = whole_end(done.segment, &mut own_work, &mut own_table);
    let ends = same_end(own, done.end);
    let works = same_bytes(&own_work, done.work);
    let both = ends && works;
    both && same_numbers(&own_table, done.table, 1536)
}

// What is said where the reading is not alike.
pub fn check_whole(rt: &impl Print, done: Done<'_>) {
    if !whole_alike(done) {
        print(rt, b" differs from the whole reader");
    }
}
