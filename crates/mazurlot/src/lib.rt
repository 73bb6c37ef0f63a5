// The library that a player links: start, feed, finish, the whole reader, lookups and marks over numbers and lent slices, as
// include/mazurlot.h declares them. The state is 57 numbers (docs/STATE.md). Each call gives back 0 or the number of a refusal, and writes its
// answer, or the refusal's place, into a lent slot; 2 writes nothing.
#![tactic(auto)]

ghost use Rattle.std.specs.Prelude.{[], ◌≡◌};
ghost use Rattle.moment.specs.declared.Request.TheVariants as request;
ghost use Rattle.mazurlot.specs.Calls.{call, start_call, feed_call, finish_call, whole_call, lookup_call, resolve_call};

use crate::accepted::look;
use crate::answers::{
    LOOKUP_VALUES, MARK_VALUES, NO_STATE, ONE_VALUE, brand_bytes, say_count, say_found,
    say_nothing_fed, say_page,
};
use crate::states::{put_start, say_ending};
use feed::{feed, finish};
use moment::Request;
use pack::{STATE_NUMBERS, pack, unpack};
use whole::whole_ending;

mod accepted;
mod answers;
mod states;

// A reading of a segment that has to list this brand, its four bytes as one number.
pub fn mazurlot_start(brand: u32, state: &mut [u64]) -> u64
    ensures { call result [] state.new [] [] ≡ start_call brand state.old }
{
    if state.len() != STATE_NUMBERS {
        return NO_STATE;
    }
    put_start(state, brand);
    0
}

// The next part of a segment.
pub fn mazurlot_feed(
    piece: &[u8],
    state: &mut [u64],
    work: &mut [u8],
    table: &mut [u64],
    answer: &mut [u64],
) -> u64
    ensures { call result answer.new state.new work.new table.new
        ≡ feed_call piece.now state.old work.old table.old answer.old }
{
    if answer.len() < ONE_VALUE {
        return NO_STATE;
    }
    let Ok(s) = unpack(state) else {
        return say_nothing_fed(work.len(), answer);
    };
    let fed = feed(s, piece, work, table);
    let _ = pack(fed.state, state);
    say_count(fed.answer, answer)
}

// The end of a segment.
pub fn mazurlot_finish(state: &mut [u64], answer: &mut [u64]) -> u64
    ensures { call result answer.new state.new [] [] ≡ finish_call state.old answer.old }
{
    if answer.len() < ONE_VALUE {
        return NO_STATE;
    }
    let Ok(s) = unpack(state) else {
        return NO_STATE;
    };
    let finished = finish(s);
    let _ = pack(finished.state, state);
    say_count(finished.answer, answer)
}

// A whole segment. Where there is no place for the state or the answer, it is not read.
pub fn mazurlot_whole(
    brand: u32,
    segment: &[u8],
    state: &mut [u64],
    work: &mut [u8],
    table: &mut [u64],
    answer: &mut [u64],
) -> u64
    ensures { call result answer.new state.new work.new table.new
        ≡ whole_call brand segment.now state.old work.old table.old answer.old }
{
    if answer.len() < ONE_VALUE {
        return NO_STATE;
    }
    if state.len() != STATE_NUMBERS {
        return NO_STATE;
    }
    let ending = whole_ending(segment, brand_bytes(brand), work, table);
    say_ending(ending, brand, state, answer)
}

// The leaf that covers a time.
fn look_up(request: Request, state: &[u64], table: &[u64], answer: &mut [u64]) -> u64
    ensures { call result answer.new [] [] [] ≡ lookup_call request state.now table.now answer.old }
{
    if answer.len() < LOOKUP_VALUES {
        return NO_STATE;
    }
    let spot = look(state, table, request);
    say_found(spot, table, answer)
}

// The same of a time in ticks.
pub fn mazurlot_lookup_ticks(ticks: u64, state: &[u64], table: &[u64], answer: &mut [u64]) -> u64
    ensures { call result answer.new [] [] [] ≡ lookup_call (request.Ticks ticks) state.now table.now answer.old }
{
    look_up(Request::Ticks(ticks), state, table, answer)
}

// The same of a time in seconds.
pub fn mazurlot_lookup_seconds(
    seconds: f64,
    state: &[u64],
    table: &[u64],
    answer: &mut [u64],
) -> u64
    ensures { call result answer.new [] [] [] ≡ lookup_call (request.Seconds seconds) state.now table.now answer.old }
{
    look_up(Request::Seconds(seconds), state, table, answer)
}

// The leaf that covers the seconds of a mark, and the mark's page.
pub fn mazurlot_resolve(
    page: u32,
    seconds: f64,
    state: &[u64],
    table: &[u64],
    answer: &mut [u64],
) -> u64
    ensures { call result answer.new [] [] []
        ≡ resolve_call (record { page = page; seconds = seconds }) state.now table.now answer.old }
{
    if answer.len() < MARK_VALUES {
        return NO_STATE;
    }
    let spot = look(state, table, Request::Seconds(seconds));
    let number = say_found(spot, table, answer);
    say_page(number, page, answer)
}
