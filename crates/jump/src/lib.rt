// Skipped bodies, passed at once: where the one at hand ends, and how many of the bytes there pass with it.
#![tactic(auto, unfolding(
// the end of a skipped body, in a list of boxes of any kind
crate::specs::Passes::boxes_skips,
// in those of a `traf` and of a `moof`
state::specs::Jump::traf_skips, state::specs::Jump::traf_body_skips, state::specs::Jump::moof_skips, state::specs::Jump::moof_body_skips,
// and on the levels above
state::specs::Jump::leaf_skips, state::specs::Jump::leaf_body_skips, state::specs::Jump::opening_skips, state::specs::Jump::opening_body_skips,
// and in any stage
state::specs::Jump::gap_skips, state::specs::Jump::skips))]

ghost use Rattle.std.specs.Prelude.{◌≡◌, ℕ};
ghost use Rattle.jump.specs.Passes.{boxes_skips, passes, passed_on, Fitting};
ghost use Rattle.state.specs.Jump.{traf_body_skips, moof_body_skips, leaf_body_skips, leaf_skips, opening_body_skips, gap_skips, skips, least, passing};

use machine::BoxesSo;
use state::{GapBoxes, LIMIT, LeafBody, LeafBoxes, MoofBody, OpeningBody, Stage, State, TrafBody};

// Where the skipped body ends; 0 where none is being skipped, as in the definitions (`state`, specs `Jump`). An Option would be one more case at each
// caller, and the place 0 needs none: all bytes are past it.
trait Skips: Copy {
    ghost skips_of: { Self → ℕ };

    fn skips(self) -> u64
        ensures { result ≡ skips_of self };
}

// A list of boxes, of whatever body: in a header none is being skipped.
impl<A: Copy, B: Skips> Skips for BoxesSo<A, B> {
    ghost skips_of = { boxes_skips B.skips_of };

    fn skips(self) -> u64 {
        match self {
            BoxesSo::Head(..) => 0,
            BoxesSo::Body(_, body) => body.skips(),
        }
    }
}

impl Skips for TrafBody {
    ghost skips_of = { traf_body_skips };

    fn skips(self) -> u64 {
        match self {
            TrafBody::Skip { stop } | TrafBody::Rest { stop, .. } => stop,
            TrafBody::Field { .. } => 0,
        }
    }
}

impl Skips for MoofBody {
    ghost skips_of = { moof_body_skips };

    fn skips(self) -> u64 {
        match self {
            MoofBody::Skip { stop } => stop,
            MoofBody::Traf(_, boxes) => boxes.skips(),
        }
    }
}

impl Skips for LeafBody {
    ghost skips_of = { leaf_body_skips };

    fn skips(self) -> u64 {
        match self {
            LeafBody::Skip { stop } => stop,
            LeafBody::Moof { boxes, .. } => boxes.skips(),
        }
    }
}

impl Skips for OpeningBody {
    ghost skips_of = { opening_body_skips };

    fn skips(self) -> u64 {
        match self {
            OpeningBody::Skip { stop } => stop,
            _ => 0,
        }
    }
}

pub fn leaf_skips(s: LeafBoxes) -> u64
    ensures { result ≡ leaf_skips s }
{
    s.skips()
}

fn gap_skips(s: GapBoxes) -> u64
    ensures { result ≡ gap_skips s }
{
    match s {
        GapBoxes::Head(_) => 0,
        GapBoxes::Body { stop } => stop,
    }
}

fn stage_skips(s: Stage) -> u64
    ensures { result ≡ skips s }
{
    match s {
        Stage::Opening { boxes, .. } => boxes.skips(),
        Stage::Gap { boxes, .. } => gap_skips(boxes),
        Stage::Leaf { boxes, .. } => leaf_skips(boxes),
        Stage::Entry { .. } | Stage::Inner { .. } => 0,
    }
}

// The lesser of two numbers. It stays beside `min`: the theorem `least_once` of docs/PROMISES.md is of it.
#[tactic(auto, unfolding(state::specs::Jump::least, basics::specs::Choose::pick))]
pub fn least(a: u64, b: u64) -> u64
    ensures { result ≡ least a b }
{
    a.min(b)
}

// How many of the bytes at hand pass at once, none of them the last of its body.
#[tactic(auto, unfolding(state::specs::Jump::passing))]
fn passing_bytes(s: Stage, n: u64, rest: u64) -> u64
    ensures { result ≡ passing s n rest }
{
    let stop = least(stage_skips(s), LIMIT);
    least(rest, stop.saturating_sub(n).saturating_sub(1))
}

// Of so many bytes at hand, how many pass at once. After a refusal, which is kept, and after an accepted finish all do.
#[tactic(auto, unfolding(crate::specs::Passes::passes))]
pub fn passing_now(s: State, rest: u64) -> u64
    ensures { result ≡ passes s rest }
{
    match s {
        State::Reading { count, stage, .. } => passing_bytes(stage, count, rest),
        State::Ended { .. } => 0,
        State::Refused { .. } | State::Accepted { .. } => rest,
    }
}

// So many bytes of a skipped body are passed: only the count goes on.
#[tactic(auto, unfolding(crate::specs::Passes::passed_on, crate::specs::Passes::Fitting))]
pub fn pass(s: State, k: u64) -> State
    requires { Fitting s k }
    ensures { result ≡ passed_on s k }
{
    match s {
        State::Reading {
            count,
            leaves,
            now,
            last,
            stage,
        } => State::Reading {
            count: count + k,
            leaves,
            now,
            last,
            stage,
        },
        _ => s,
    }
}
