// One byte, whatever the state.
#![tactic(auto)]

ghost use Rattle.std.specs.Prelude.{List, [], ◌∷◌, ◌≡◌, ℕ, ◌≤◌, length};
ghost use Rattle.segment.specs.Constants.{limit};
ghost use Rattle.state.specs.Flow.{work_bytes};
ghost use Rattle.machine.specs.Faults.{refusal};
ghost use Rattle.state.specs.Places.{stage_byte, stored_at};
ghost use Rattle.state.specs.Step.{over_limit};
ghost use Rattle.state.specs.Calls.{out, flow_of, feed_state};
ghost use Rattle.state.specs.Ranges.{Within, stage_bounds, InRange};
ghost use Rattle.state.specs.declared.State.TheVariants as state;
ghost use Rattle.byte.specs.Answers.{answered, stepped};

use levels::read_back;
use machine::{Refusal, Step};
use next_stage::{Running, StageStep};
use number_at_hand::stage_number;
use stage::stage_byte;
use state::{LIMIT, Stage, State, Top};

// Row 3.
fn over_limit() -> Refusal
    ensures { result ≡ refusal 3 limit }
{
    Refusal {
        number: 3,
        place: LIMIT,
    }
}

// The state after the byte past the limit, which counts as read.
fn past_limit(leaves: u64, x: Refusal) -> State
    ensures { result ≡ state.Refused 268435457 leaves x }
{
    State::Refused {
        count: LIMIT + 1,
        leaves,
        refusal: x,
    }
}

// What the byte past the limit gives: row 3, but before an entry that was altered row 12, and no other number there.
fn limit_row(s: Stage, at: u64, work: &[u8]) -> Refusal
    requires { (work_bytes ≤ length work.now) × Within (stage_bounds s at) }
    ensures { (leaves last : ℕ) (table : List ℕ) → result ≡ over_limit s (flow_of leaves at last work.now table) limit (refusal 3 limit) }
{
    let Stage::Entry { levels, .. } = s else {
        return over_limit();
    };
    match read_back(work, levels, at, LIMIT) {
        Some(_) => over_limit(),
        None => Refusal {
            number: 12,
            place: LIMIT,
        },
    }
}

// An entry byte is stored at its place, and no other byte is.
fn store_byte(s: Stage, at: u64, b: u8, work: &mut [u8])
    requires { (work_bytes ≤ length work.old) × Within (stage_bounds s at) }
    ensures { work.new ≡ stored_at work.old (stage_byte s) b }
{
    if let Some(i) = stage_number(s, at).place {
        work[i as usize] = b;
    }
}

// The byte past the limit, in the segment.
fn limit_byte(r: Running, s: Stage, b: u8, work: &mut [u8]) -> State
    requires { (work_bytes ≤ length work.old) × Within (stage_bounds s r.now) }
    ensures { (table : List ℕ) →
        out (answered result) result work.new table
        ≡ feed_state (state.Reading limit r.leaves r.now r.last s) (b ∷ []) work.old table }
{
    let x = limit_row(s, r.now, work);
    store_byte(s, r.now, b, work);
    past_limit(r.leaves, x)
}

// The state that a stage's step at byte `n` leads to.
#[tactic(auto, unfolding(crate::specs::Answers::stepped))]
fn state_after(n: u64, leaves: u64, q: Result<StageStep, Refusal>) -> State
    requires { n ≤ limit }
    ensures { result ≡ stepped n leaves q }
{
    let count = n + 1;
    match q {
        Ok(Step::Going((stage, r))) => State::Reading {
            count,
            leaves: r.leaves,
            now: r.now,
            last: r.last,
            stage,
        },
        Ok(Step::Done((top, r))) => State::Ended {
            count,
            leaves: r.leaves,
            top,
        },
        Err(refusal) => State::Refused {
            count,
            leaves,
            refusal,
        },
    }
}

// A byte in the segment; `n` bytes came before it.
fn reading_byte(n: u64, r: Running, s: Stage, b: u8, work: &mut [u8], table: &mut [u64]) -> State
    requires { (work_bytes ≤ length work.old) × InRange (state.Reading n r.leaves r.now r.last s) }
    ensures { out (answered result) result work.new table.new ≡ feed_state (state.Reading n r.leaves r.now r.last s) (b ∷ []) work.old table.old }
{
    if n == LIMIT {
        return limit_byte(r, s, b, work);
    }
    let q = stage_byte(s, r, n, b, work, table);
    state_after(n, r.leaves, q)
}

// A byte after the material: row 21, or row 3 where it is past the limit too.
fn byte_after(n: u64, leaves: u64, top: Top, b: u8) -> State
    requires { n ≤ limit }
    ensures { (work table : List ℕ) → out (answered result) result work table ≡ feed_state (state.Ended n leaves top) (b ∷ []) work table }
{
    if n == LIMIT {
        return past_limit(leaves, over_limit());
    }
    State::Refused {
        count: n + 1,
        leaves,
        refusal: Refusal {
            number: 21,
            place: n,
        },
    }
}

// One byte, whatever the state; a refusal and an accepted finish stay as they are.
pub fn state_byte(s: State, b: u8, work: &mut [u8], table: &mut [u64]) -> State
    requires { (work_bytes ≤ length work.old) × InRange s }
    ensures { (out (answered result) result work.new table.new ≡ feed_state s (b ∷ []) work.old table.old) × InRange result }
{
    match s {
        State::Reading {
            count,
            leaves,
            now,
            last,
            stage,
        } => reading_byte(count, Running { leaves, now, last }, stage, b, work, table),
        State::Ended { count, leaves, top } => byte_after(count, leaves, top, b),
        State::Refused { .. } => s,
        State::Accepted { .. } => s,
    }
}
