// A time looked up in the leaf table of an accepted segment, in ticks or in seconds.
#![tactic(auto)]

ghost use Rattle.std.specs.Prelude.{◌≡◌, ◌+◌, ◌*◌, ◌^◌, ◌≤◌, ◌<◌, length, Err};
ghost use Rattle.basics.specs.Choose.{pick};
ghost use Rattle.machine.specs.Faults.{refusal};
ghost use Rattle.table.specs.Table.{most_records, record_numbers};
ghost use Rattle.moment.specs.Moments.{tick, moment_of};
ghost use Rattle.state.specs.declared.State.TheVariants as state;
ghost use Rattle.state.specs.Ranges.{in_range};
ghost use Rattle.covering.specs.Lookup.{record_covers, outside, look_in, look_among, lookup_of};
ghost use Rattle.lookup.specs.Spots.{record_from, Spots};

use covering::Leaf;
use machine::Refusal;
use moment::Request;
use seconds::{Ticks, ticks_asked};
use state::{State, Top};
use table::{DURATION, NUMBERS, START};

// Refused: a number of the state is out of its range.
const OUT_OF_RANGE: u64 = 2;

// Refused: the segment has no accepted finish.
const NOT_FINISHED: u64 = 22;

// Refused: the time is before the first leaf.
const BEFORE: u64 = 23;

// Refused: the time is in no leaf, and not before the first.
const PAST: u64 = 24;

// Refused: the table is shorter than the list.
const SHORT_TABLE: u64 = 25;

// Refused: the seconds are not a number, infinite, or below zero.
const NO_TIME: u64 = 26;

// The highest number of 64 bits.
const HIGHEST: u64 = 18446744073709551615;

// A spot is where a lookup ends: at a record, by the place of its first number in the table, or at the number of a refusal. Spots fit in
// registers, an answer does not: the ways through a lookup meet in a spot, and one place makes the answer of it. The number is document 01's
// and no enum's: C gets it so, and edits of `mazurlot` say numbers that no lookup refuses with.

// Whether the record at a place covers t. The end is not computed, since it may not fit.
fn covers_at(table: &[u64], at: usize, t: u64) -> bool
    requires { at + record_numbers ≤ length table.now }
    ensures { result ≡ record_covers (record_from table.now at) (tick t) }
{
    let start = table[at + START];
    start <= t && t - start < table[at + DURATION]
}

// Whether the record at a place covers 2^64 + t. It starts before that, so its end has to lie farther past 2^64 than t. The end is not
// computed, since it does not fit.
fn covers_beyond(table: &[u64], at: usize, t: u64) -> bool
    requires { at + record_numbers ≤ length table.now }
    ensures { result ≡ record_covers (record_from table.now at) (tick (2 ^ 64 + t)) }
{
    let room = HIGHEST - table[at + START];
    let duration = table[at + DURATION];
    room < duration && t < duration - room - 1
}

// No record covers t: the number that refuses a time before the first leaf, or past the list.
fn outside_list(leaves: usize, table: &[u64], t: u64) -> u64
    requires { record_numbers * leaves ≤ length table.now }
    ensures { Err (refusal result 0) ≡ outside leaves table.now (tick t) }
{
    if leaves == 0 {
        return PAST;
    }
    if t < table[START] { BEFORE } else { PAST }
}

// The lowest-numbered record that covers t: the first one met. The loop counts places and not records: one number less to keep.
// It stays apart from that of `look_beyond`: it tests no more a record than it must, which docs/SPEED.md holds it to.
fn look_in(leaves: usize, table: &[u64], t: u64) -> Result<usize, u64>
    requires { record_numbers * leaves ≤ length table.now }
    ensures { Spots table.now (look_in leaves table.now (tick t)) result }
{
    let stop = NUMBERS * leaves;
    let mut at: usize = 0;
    while at < stop {
        if covers_at(table, at, t) {
            return Ok(at);
        }
        at += NUMBERS;
    }
    Err(outside_list(leaves, table, t))
}

// The same of 2^64 + t. Every record starts before it, so where none covers it, it is past the list. Only a table that no reading left has
// a record that reaches so far.
fn look_beyond(leaves: usize, table: &[u64], t: u64) -> Result<usize, u64>
    requires { record_numbers * leaves ≤ length table.now }
    ensures { Spots table.now (look_in leaves table.now (tick (2 ^ 64 + t))) result }
{
    let stop = NUMBERS * leaves;
    let mut at: usize = 0;
    while at < stop {
        if covers_beyond(table, at, t) {
            return Ok(at);
        }
        at += NUMBERS;
    }
    Err(PAST)
}

// A leaf starts and ends at a tick, so it covers a time exactly where it covers the time's whole ticks.
fn look_among(leaves: u64, scale: u64, table: &[u64], request: Request) -> Result<usize, u64>
    requires list_fits { leaves ≤ most_records }
    requires scaled { 0 < scale }
    requires scale_fits { scale < 2 ^ 32 }
    ensures { Spots table.now (look_among leaves table.now (moment_of request scale)) result }
{
    let listed = leaves as usize;
    if table.len() < NUMBERS * listed {
        return Err(SHORT_TABLE);
    }
    let Some(ticks) = ticks_asked(request, scale) else {
        return Err(NO_TIME);
    };
    match ticks {
        Ticks::At(t) => look_in(listed, table, t),
        Ticks::Beyond(t) => look_beyond(listed, table, t),
        Ticks::Past => Err(PAST),
    }
}

// The spot that an accepted state gives, from its numbers: for callers that keep a state as numbers.
pub fn look_accepted(
    count: u64,
    leaves: u64,
    top: Top,
    table: &[u64],
    request: Request,
) -> Result<usize, u64>
    ensures { Spots table.now (lookup_of (state.Accepted count leaves top) table.now request) result }
{
    if range::accepted_in_range(count, leaves, top) {
        return look_among(leaves, top.scale, table, request);
    }
    Err(OUT_OF_RANGE)
}

// The number that refuses a state that is not accepted: 2, then 22.
fn not_accepted(s: State) -> u64
    ensures { result ≡ pick (in_range s) 22 2 }
{
    if range::in_range(s) {
        NOT_FINISHED
    } else {
        OUT_OF_RANGE
    }
}

// The spot that any state gives.
fn spot_of(s: State, table: &[u64], request: Request) -> Result<usize, u64>
    ensures { Spots table.now (lookup_of s table.now request) result }
{
    let State::Accepted { count, leaves, top } = s else {
        return Err(not_accepted(s));
    };
    look_accepted(count, leaves, top, table, request)
}

// The leaf that covers the time asked for, with its number, in the list of an accepted segment. A lookup reads no byte of the segment: it
// refuses at place 0.
pub fn lookup(s: State, table: &[u64], request: Request) -> Result<Leaf, Refusal>
    ensures { result ≡ lookup_of s table.now request }
{
    match spot_of(s, table, request) {
        Ok(at) => {
            let i = at / NUMBERS;
            Ok(Leaf {
                number: (i + 1) as u64,
                record: records::record_at(table, i),
            })
        }
        Err(number) => Err(Refusal { number, place: 0 }),
    }
}
