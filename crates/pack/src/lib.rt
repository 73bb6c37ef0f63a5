// The state as a lent slice of 64-bit numbers, for callers that keep it outside this code; docs/STATE.md, "The state as numbers".
#![tactic(auto)]

ghost use Rattle.std.specs.Prelude.{◌≡◌};
ghost use Rattle.numbered.specs.Numbers.{numbers_of};
ghost use Rattle.numbered.specs.Unpacked.{pack_of};
ghost use Rattle.pack.specs.Pack.{pack_answer, unpack_answer};

use crate::block::{Block, Numbers};
use machine::Refusal;
use range::in_range;
use state::State;

mod block;
mod boxes;
mod parts;
mod stages;

// How many numbers a state is.
pub const STATE_NUMBERS: usize = 57;

const NO_STATE: Refusal = Refusal {
    number: 2,
    place: 0,
};

// The 57 numbers of a state.
fn numbers_of(s: State) -> [u64; 57]
    ensures { result ≡ numbers_of s }
{
    let mut numbers = Numbers::none();
    s.put(&mut numbers);
    numbers.padded()
}

// A state written into 57 lent numbers; where there are not as many, nothing is written.
pub fn pack(s: State, numbers: &mut [u64]) -> Result<(), Refusal>
    ensures { (result ≡ pack_answer numbers.old) × (numbers.new ≡ pack_of s numbers.old) }
{
    if numbers.len() != STATE_NUMBERS {
        return Err(NO_STATE);
    }
    numbers.copy_from_slice(&numbers_of(s));
    Ok(())
}

// The state that lent numbers are: they read as some state, which has to be inside the ranges and to have just these numbers.
pub fn unpack(numbers: &[u64]) -> Result<State, Refusal>
    ensures { result ≡ unpack_answer numbers.now }
{
    if numbers.len() != STATE_NUMBERS {
        return Err(NO_STATE);
    }
    let s = State::take(numbers);
    if numbers_of(s).as_slice() != numbers || !in_range(s) {
        return Err(NO_STATE);
    }
    Ok(s)
}
