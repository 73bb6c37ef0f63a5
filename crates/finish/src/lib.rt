// The end of a reading, asked for by the caller.
#![tactic(auto)]

ghost use Rattle.std.specs.Prelude.{◌≡◌, Err};
ghost use Rattle.machine.specs.Faults.{refusal};
ghost use Rattle.state.specs.declared.State.TheVariants as state;
ghost use Rattle.state.specs.Calls.{finished, finish_state, finish_of};

use machine::Refusal;
use range::in_range;
use state::{Answered, State};

// A refusal that leaves the state as it was.
fn declined(number: u64, s: State) -> Answered
    ensures { finished result.answer result.state ≡ finished (Err (refusal number 0)) s }
{
    Answered {
        answer: Err(Refusal { number, place: 0 }),
        state: s,
    }
}

// Before the material's end: 20, which is kept.
fn cut_short(count: u64, leaves: u64) -> Answered
    ensures { finished result.answer result.state ≡ finished (Err (refusal 20 count)) (state.Refused count leaves (refusal 20 count)) }
{
    let short = Refusal {
        number: 20,
        place: count,
    };
    Answered {
        answer: Err(short),
        state: State::Refused {
            count,
            leaves,
            refusal: short,
        },
    }
}

// The kept refusal, 22, then 20.
fn finish_state(s: State) -> Answered
    ensures { finished result.answer result.state ≡ finish_state s }
{
    match s {
        State::Reading { count, leaves, .. } => cut_short(count, leaves),
        State::Ended { count, leaves, top } => Answered {
            answer: Ok(leaves),
            state: State::Accepted { count, leaves, top },
        },
        State::Refused { refusal, .. } => Answered {
            answer: Err(refusal),
            state: s,
        },
        State::Accepted { .. } => declined(22, s),
    }
}

// Finish checks 2, the kept refusal, 22, 20.
pub fn finish(s: State) -> Answered
    ensures { finished result.answer result.state ≡ finish_of s }
{
    if in_range(s) {
        return finish_state(s);
    }
    declined(2, s)
}
