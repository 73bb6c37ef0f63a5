// A lookup over the numbers of a state. Of an accepted state few are not 0: these are tested and taken as they stand, and no other state is read.
ghost use Rattle.std.specs.Prelude.{◌≡◌, length};
ghost use Rattle.numbered.specs.Unpacked.{unpack_of};
ghost use Rattle.lookup.specs.Spots.{Spots};
ghost use Rattle.mazurlot.specs.Calls.{look_from};
ghost use Rattle.mazurlot.specs.Accepted.{zeros_behind, accepted_numbers, refused_with};

use crate::states::{ACCEPTED, USED};
use lookup::look_accepted;
use moment::Request;
use pack::{STATE_NUMBERS, unpack};
use state::Top;

// Refused: the state is not accepted.
const NOT_FINISHED: u64 = 22;

// Whether the places behind those that an accepted state uses are all 0. All are looked at, whatever they hold: that goes faster.
fn zeros_behind(numbers: &[u64]) -> bool
    requires { length numbers.now ≡ 57 }
    ensures { result ≡ zeros_behind numbers.now }
{
    let mut zeros = true;
    for i in USED..STATE_NUMBERS {
        zeros &= 0 == numbers[i];
    }
    zeros
}

// Whether numbers are those of an accepted state, in its ranges or not.
fn accepted_numbers(numbers: &[u64]) -> bool
    ensures { result ≡ accepted_numbers numbers.now }
{
    if numbers.len() != STATE_NUMBERS {
        return false;
    }
    numbers[0] == ACCEPTED && zeros_behind(numbers)
}

// The number that refuses what is no accepted state: 2, then 22. It is no enum's: C gets it (include/mazurlot.h).
fn refused_with(numbers: &[u64]) -> u64
    ensures { result ≡ refused_with (unpack_of numbers.now) }
{
    match unpack(numbers) {
        Ok(_) => NOT_FINISHED,
        Err(x) => x.number,
    }
}

// Where the lookup ends in the list of the state that these numbers are.
pub(crate) fn look(numbers: &[u64], table: &[u64], request: Request) -> Result<usize, u64>
    ensures { Spots table.now (look_from (unpack_of numbers.now) table.now request) result }
{
    if accepted_numbers(numbers) {
        let top = Top {
            id: numbers[3],
            scale: numbers[4],
            start: numbers[5],
            durations: numbers[6],
        };
        return look_accepted(numbers[1], numbers[2], top, table, request);
    }
    Err(refused_with(numbers))
}
