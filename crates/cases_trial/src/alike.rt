// The end of a reading, and what feed has to answer on the way to it.
ghost use Rattle.std.specs.Prelude.{◌≡◌, true, ◌↔◌};
ghost use Rattle.cases_trial.specs.Ends.{left_by, end_of, refused_after, over_by, answer_at};

use machine::Refusal;
use state::{State, Top};

// The number of a finish before the material's end.
const UNFINISHED: u64 = 20;

// What a state is and holds: it goes on, the material is over, it was refused, or it was accepted. Of a reading that goes on, the
// stage and its times are left out.
#[derive(Clone, Copy, PartialEq, Eq)]
pub enum Ending {
    Reading {
        count: u64,
        leaves: u64,
    },
    Ended {
        count: u64,
        leaves: u64,
        top: Top,
    },
    Refused {
        count: u64,
        leaves: u64,
        refusal: Refusal,
    },
    Accepted {
        count: u64,
        leaves: u64,
        top: Top,
    },
}

// What finish answered, and what it left.
#[derive(Clone, Copy)]
pub struct End {
    pub answer: Result<u64, Refusal>,
    left: Ending,
}

#[tactic(auto, unfolding(crate::specs::Ends::left_by))]
fn left_by(s: State) -> Ending
    ensures { result ≡ left_by s }
{
    match s {
        State::Reading { count, leaves, .. } => Ending::Reading { count, leaves },
        State::Ended { count, leaves, top } => Ending::Ended { count, leaves, top },
        State::Refused {
            count,
            leaves,
            refusal,
        } => Ending::Refused {
            count,
            leaves,
            refusal,
        },
        State::Accepted { count, leaves, top } => Ending::Accepted { count, leaves, top },
    }
}

// What finish answered, and the state that it left.
pub fn end_of(answer: Result<u64, Refusal>, s: State) -> End
    ensures { result ≡ end_of answer s }
{
    End {
        answer,
        left: left_by(s),
    }
}

// What stands for an end that is not known yet: an Option of it would be looked into after each piece of every reading.
pub fn no_end() -> End {
    End {
        answer: Ok(0),
        left: Ending::Reading {
            count: 0,
            leaves: 0,
        },
    }
}

fn same_answer(m: Result<u64, Refusal>, n: Result<u64, Refusal>) -> bool
    ensures { (result ≡ true) ↔ (m ≡ n) }
{
    m == n
}

fn same_left(s: Ending, t: Ending) -> bool
    ensures { (result ≡ true) ↔ (s ≡ t) }
{
    s == t
}

// Of each part apart: of a derived equality of both the check finds no proof.
pub fn same_end(a: End, b: End) -> bool
    ensures { (result ≡ true) ↔ (a ≡ b) }
{
    same_answer(a.answer, b.answer) && same_left(a.left, b.left)
}

// How many bytes were read when feed refused a segment that ends so, the byte at fault among them; none where it did not.
#[tactic(auto, unfolding(crate::specs::Ends::refused_in, basics::specs::Choose::pick))]
pub fn refused_after(end: End) -> Option<u64>
    ensures { result ≡ refused_after end }
{
    match end.left {
        Ending::Refused { count, refusal, .. } if refusal.number != UNFINISHED && 0 < count => {
            Some(count)
        }
        _ => None,
    }
}

// Whether feed has to refuse the k-th byte of a segment that ends so, or has done so before.
#[tactic(auto, unfolding(crate::specs::Ends::reached))]
fn over_by(k: u64, end: End) -> bool
    ensures { result ≡ over_by k end }
{
    matches!(refused_after(end), Some(after) if after <= k)
}

// What feed has to answer once k bytes were fed: the refusal, if the byte at fault was among them, or the count.
#[tactic(auto, unfolding(crate::specs::Ends::asked, basics::specs::Choose::pick))]
fn answer_at(k: u64, end: End) -> Result<u64, Refusal>
    ensures { result ≡ answer_at k end }
{
    match end.left {
        Ending::Refused { refusal, .. } if over_by(k, end) => Err(refusal),
        _ => Ok(k),
    }
}

// Whether feed answers what it has to once k bytes were fed.
pub fn answers_at(k: u64, answer: Result<u64, Refusal>, end: End) -> bool
    ensures { (result ≡ true) ↔ (answer ≡ answer_at k end) }
{
    answer == answer_at(k, end)
}
