// The states that the library makes itself: a reading before its first byte, and one that has ended. The numbers of the latter are few: the rest
// of the 57 is made 0, and the state itself, which has room for an open reading, is not made.
ghost use Rattle.std.specs.Prelude.{List, ◌++◌, ◌≡◌, ℕ, ◌≤◌, length, replicate};
ghost use Rattle.state.specs.Calls.{start_of};
ghost use Rattle.whole.specs.Views.{ending_out};
ghost use Rattle.mazurlot.specs.Calls.{call, read};
ghost use Rattle.numbered.specs.Numbers.{state_numbers, numbers_of};

use crate::answers::{SHORT_WORK, brand_bytes, say};
use feed::start;
use pack::pack;
use whole::Ending;

// The tags of a refused and of an accepted state.
const REFUSED: u64 = 3;

pub(crate) const ACCEPTED: u64 = 4;

// How many numbers an accepted state uses, and a refused one at most.
pub(crate) const USED: usize = 7;

// About half of the places.
const HALF: usize = 32;

// The numbers of a reading that has ended: seven, and zeros behind them. First the far half is cleared, then the numbers are put, then the
// rest is cleared: each time it is so little that the compiler needs no call for it.
fn put_ended(numbers: &mut [u64], used: [u64; 7])
    requires { length numbers.old ≡ state_numbers }
    ensures { numbers.new ≡ used ++ replicate 50 0 }
{
    numbers[HALF..].fill(0);
    numbers[..USED].copy_from_slice(&used);
    numbers[USED..HALF].fill(0);
}

pub(crate) fn put_start(numbers: &mut [u64], brand: u32)
    requires { length numbers.old ≡ state_numbers }
    ensures { numbers.new ≡ numbers_of (start_of brand) }
{
    let _ = pack(start(brand_bytes(brand)), numbers);
}

// What the whole reader says and leaves where its reading ended so.
pub(crate) fn say_ending(ending: Ending, brand: u32, numbers: &mut [u64], answer: &mut [u64]) -> u64
    requires { (length numbers.old ≡ state_numbers) × (1 ≤ length answer.old) }
    ensures { (work table : List ℕ) →
        call result answer.new numbers.new work table ≡ read (ending_out brand work table ending) answer.old }
{
    match ending {
        Ending::Accepted(count, leaves, top) => {
            let used = [
                ACCEPTED,
                count,
                leaves,
                top.id,
                top.scale,
                top.start,
                top.durations,
            ];
            put_ended(numbers, used);
            say(0, leaves, answer)
        }
        Ending::Refused(count, leaves, x) => {
            put_ended(numbers, [REFUSED, count, leaves, x.number, x.place, 0, 0]);
            say(x.number, x.place, answer)
        }
        Ending::ShortWork => {
            put_start(numbers, brand);
            say(SHORT_WORK, 0, answer)
        }
    }
}
