// The bytes of the number that is being read, taken together: none of them is its last, and the state after them.
#![tactic(auto)]

ghost use Rattle.std.specs.Prelude.{◌≡◌, ◌≤◌, ◌<◌, length};
ghost use Rattle.basics.specs.Bytes.{number_from};
ghost use Rattle.segment.specs.Constants.{limit};
ghost use Rattle.state.specs.Flow.{work_bytes};
ghost use Rattle.state.specs.Numbers.{stage_number, stage_on, work_on, Fits};
ghost use Rattle.state.specs.Ranges.{Within, InRange, spelled_bounds};
ghost use Rattle.number_at_hand.specs.Views.{at_hand_of};
ghost use Rattle.spelling.specs.Together.{taken, together, spelled_on, stored_in, Room};

use header::spelled;
use jump::least;
use number_at_hand::{AtHand, stage_again, stage_number};
use state::{LIMIT, Stage, State};

// A state, and how many bytes of the piece are taken before it.
#[derive(Clone, Copy)]
pub struct Moved {
    pub state: State,
    pub at: usize,
}

// The number that bytes spell after those that spelled `acc`.
pub fn spell_bytes(acc: u64, bytes: &[u8]) -> u64
    requires { Within (spelled_bounds 7 (length bytes.now) acc) }
    ensures { result ≡ number_from acc bytes.now }
{
    let mut r = acc;
    for b in bytes {
        r = spelled(r, *b);
    }
    r
}

// Bytes of a number, stored as read where they are stored. No `copy_from_slice`: it would call memmove, which the library's users need not have.
fn store_bytes(place: Option<u64>, bytes: &[u8], work: &mut [u8])
    requires { Room place (length bytes.now) (length work.old) }
    ensures { work.new ≡ stored_in place work.old bytes.now }
{
    match place {
        None => {}
        Some(place) => {
            let at = place as usize;
            for (k, &b) in bytes.iter().enumerate() {
                work[at + k] = b;
            }
        }
    }
}

// The stage after bytes of its number, none of them the last.
fn stage_on(s: Stage, x: AtHand, bytes: &[u8], work: &mut [u8]) -> Stage
    requires { (x ≡ at_hand_of (stage_number s)) × Fits (stage_number s) × (length bytes.now ≤ x.more) × (work_bytes ≤ length work.old) }
    ensures { (result ≡ stage_on s (length bytes.now) bytes.now) × (work.new ≡ work_on s work.old bytes.now) }
{
    store_bytes(x.place, bytes, work);
    let acc = spell_bytes(x.acc, bytes);
    stage_again(s, x.more - (bytes.len() as u64), acc)
}

// How many of `rest` bytes, with `n` before them, are taken together.
fn taken_together(x: AtHand, rest: u64, n: u64) -> u64
    requires { n ≤ limit }
    ensures { result ≡ together x.more rest n }
{
    least(x.more, least(rest, LIMIT - n))
}

// The bytes of the number at hand are taken together, as far as the piece has them and another byte; none of them is the number's last.
pub fn spell_on(s: State, piece: &[u8], i: usize, work: &mut [u8]) -> Moved
    requires { (work_bytes ≤ length work.old) × InRange s × (i < length piece.now) }
    ensures { (taken result.state result.at work.new ≡ spelled_on s piece.now i work.old) × InRange result.state }
{
    let State::Reading {
        count,
        leaves,
        now,
        last,
        stage,
    } = s
    else {
        return Moved { state: s, at: i };
    };
    let x = stage_number(stage, now);
    // Where none is taken the state goes back as it came: it is not made anew.
    let k = taken_together(x, (piece.len() - i - 1) as u64, count);
    if k == 0 {
        return Moved { state: s, at: i };
    }
    let on = i + (k as usize);
    let next = stage_on(stage, x, &piece[i..on], work);
    Moved {
        state: State::Reading {
            count: count + k,
            leaves,
            now,
            last,
            stage: next,
        },
        at: on,
    }
}
