// The reader fed in parts: start, feed and finish. A state goes in by value and comes back by value; nothing else is kept.
#![tactic(auto)]

ghost use Rattle.std.specs.Prelude.{◌≡◌, ◌≤◌, ◌<◌, length, Err};
ghost use Rattle.basics.specs.Bytes.{AllBytes};
ghost use Rattle.state.specs.Flow.{work_bytes};
ghost use Rattle.machine.specs.Faults.{refusal};
ghost use Rattle.state.specs.Calls.{out, feed_of, feed_state};
ghost use Rattle.state.specs.Ranges.{InRange};
ghost use Rattle.byte.specs.Answers.{answered};
ghost use Rattle.feed.specs.Advanced.{Advanced};

use byte::state_byte;
pub use finish::finish;
use jump::{pass, passing_now};
use machine::Refusal;
use range::in_range;
use spelling::{Moved, spell_on};
pub use start::start;
use state::{Answered, State};

const WORK_BYTES: usize = 49152;

// The bytes that pass at once; or else those of a number that are taken together, and one byte.
fn advance(s: State, piece: &[u8], i: usize, work: &mut [u8], table: &mut [u64]) -> Moved
    requires { (work_bytes ≤ length work.old) × InRange s × (i < length piece.now) }
    ensures { Advanced piece.now s i work.old table.old result.state result.at work.new table.new }
{
    let k = passing_now(s, (piece.len() - i) as u64);
    if k == 0 {
        let Moved { state, at } = spell_on(s, piece, i, work);
        return Moved {
            state: state_byte(state, piece[at], work, table),
            at: at + 1,
        };
    }
    Moved {
        state: pass(s, k),
        at: i + (k as usize),
    }
}

// The bytes of a piece: the checks before them are done.
fn feed_bytes(s: State, piece: &[u8], work: &mut [u8], table: &mut [u64]) -> State
    requires { (work_bytes ≤ length work.old) × InRange s }
    ensures { out (answered result) result work.new table.new ≡ feed_state s piece.now work.old table.old }
{
    let mut r = s;
    let mut i = 0;
    // No `for`: each turn takes as many bytes as pass together, and the state says how many.
    while i < piece.len() {
        let Moved { state, at } = advance(r, piece, i, work, table);
        r = state;
        i = at;
    }
    r
}

// What feed answers of the state that it leaves.
#[tactic(auto, unfolding(byte::specs::Answers::answered))]
fn answer_for(s: State) -> Result<u64, Refusal>
    ensures { result ≡ answered s }
{
    match s {
        State::Reading { count, .. } => Ok(count),
        State::Ended { count, .. } => Ok(count),
        State::Refused { refusal, .. } => Err(refusal),
        State::Accepted { .. } => Err(Refusal {
            number: 22,
            place: 0,
        }),
    }
}

// A call refused before its bytes: the state goes back as it came.
fn turned_away(s: State, number: u64) -> Answered
    ensures { (result.answer ≡ Err (refusal number 0)) × (result.state ≡ s) }
{
    Answered {
        answer: Err(Refusal { number, place: 0 }),
        state: s,
    }
}

// One part of a segment, with the work area and the leaf table lent for it. Checks 1, 2, the kept refusal, 22, then bytes.
// That a lent part holds bytes is told too: what is proved of lists of bytes then holds of every part that can be lent.
pub fn feed(s: State, piece: &[u8], work: &mut [u8], table: &mut [u64]) -> Answered
    ensures fed { out result.answer result.state work.new table.new ≡ feed_of s piece.now work.old table.old }
    ensures bytes { AllBytes piece.now }
{
    if work.len() < WORK_BYTES {
        return turned_away(s, 1);
    }
    if in_range(s) {
        let next = feed_bytes(s, piece, work, table);
        return Answered {
            answer: answer_for(next),
            state: next,
        };
    }
    turned_away(s, 2)
}
