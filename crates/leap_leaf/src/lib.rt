// The bytes at hand inside a leaf, taken with the leaf's boxes alone: nothing else of a reading changes with them. The byte that ends the
// leaf, and one that is refused, are left to the ordinary path.
#![tactic(auto)]

ghost use Rattle.std.specs.Prelude.{ℕ, suc, ◌+◌, ◌-◌, ◌≤◌, ◌<◌, ◌≡◌, Bool, Some, length, take};
ghost use Rattle.segment.specs.Constants.{limit};
ghost use Rattle.machine.specs.Run.{go};
ghost use Rattle.state.specs.Flow.{Flow};
ghost use Rattle.state.specs.Jump.{least};
ghost use Rattle.state.specs.Leaf.{step_leaf};
ghost use Rattle.state.specs.Numbers.{leaf_number};
ghost use Rattle.state.specs.Ranges.{Within, leaf_bounds};
ghost use Rattle.state.specs.Rows.{no_room};
ghost use Rattle.number_at_hand.specs.Views.{at_hand_of};
ghost use Rattle.law_leap.specs.Over.{over};
ghost use Rattle.leap_leaf.specs.Goes.{From};
ghost use Rattle.leap_leaf.specs.Begun.{head_end, traf_end, traf_with, moof_end, moof_with, leaf_end, leaf_with};

use fields::word_at;
use jump::{leaf_skips, least};
use leaf::leaf_byte;
use machine::{BoxesSo, Head, Step};
use number_at_hand::{AtHand, leaf_again, leaf_number};
use spelling::spell_bytes;
use state::{LeafBody, LeafBoxes, MoofBody, MoofBoxes, Slot, Span, TrafBoxes};

// How many bytes a header has, but where its size has 64 bits.
const SHORT: usize = 8;

// The boxes of a leaf so far, and how many of the bytes at hand are taken.
#[derive(Clone, Copy)]
pub struct LeafOn {
    pub boxes: LeafBoxes,
    pub at: usize,
}

// How many of `rest` bytes pass at once with a body that is skipped up to `stop`, none of them its last; `n` bytes stand before them.
fn passing(stop: u64, n: u64, rest: u64) -> u64
    ensures { result ≡ least rest (stop - suc n) }
{
    least(rest, stop.saturating_sub(n).saturating_sub(1))
}

// The bytes of a skipped body, but for its last.
fn skipped_ahead(on: LeafOn, n: u64, bytes: &[u8]) -> LeafOn
    requires { (n + length bytes.now ≤ limit) × (on.at ≤ length bytes.now) }
    ensures { (id : ℕ) (slot : Slot) (full : Bool) → From id slot full n bytes.now on.boxes on.at result.boxes result.at }
{
    let k = passing(
        leaf_skips(on.boxes),
        n + (on.at as u64),
        (bytes.len() - on.at) as u64,
    );
    LeafOn {
        boxes: on.boxes,
        at: on.at + (k as usize),
    }
}

// The bytes of the number at hand, but for its last.
fn number_ahead(on: LeafOn, x: AtHand, bytes: &[u8]) -> LeafOn
    requires { Within (leaf_bounds on.boxes) × (x ≡ at_hand_of (leaf_number on.boxes)) × (0 < x.more) × (on.at ≤ length bytes.now) }
    ensures { (id : ℕ) (slot : Slot) (full : Bool) (n : ℕ) → From id slot full n bytes.now on.boxes on.at result.boxes result.at }
{
    let k = least(x.more, (bytes.len() - on.at) as u64);
    let at = on.at + (k as usize);
    let acc = spell_bytes(x.acc, &bytes[on.at..at]);
    LeafOn {
        boxes: leaf_again(on.boxes, x.more - k, acc),
        at,
    }
}

// Where the container of a box ends whose first byte is next, at each level. And, by `.._with`, what holds that box's header with another
// one. (By a trait of the bodies these six would be two generic functions and six methods, which is no plainer.)
#[tactic(auto, unfolding(crate::specs::Begun::head_end))]
fn head_end(end: u64, h: Head) -> Option<u64>
    ensures { result ≡ head_end end h }
{
    match h {
        Head::First => Some(end),
        _ => None,
    }
}

#[tactic(auto, unfolding(crate::specs::Begun::traf_end))]
fn traf_end(span: Span, s: TrafBoxes) -> Option<u64>
    ensures { result ≡ traf_end span s }
{
    match s {
        BoxesSo::Head(_, h) => head_end(span.end, h),
        BoxesSo::Body(..) => None,
    }
}

#[tactic(auto, unfolding(crate::specs::Begun::traf_with))]
fn traf_with(s: TrafBoxes, h: Head) -> TrafBoxes
    ensures { result ≡ traf_with s h }
{
    match s {
        BoxesSo::Head(so, _) => BoxesSo::Head(so, h),
        BoxesSo::Body(..) => s,
    }
}

#[tactic(auto, unfolding(crate::specs::Begun::moof_end))]
fn moof_end(end: u64, s: MoofBoxes) -> Option<u64>
    ensures { result ≡ moof_end end s }
{
    match s {
        BoxesSo::Head(_, h) => head_end(end, h),
        BoxesSo::Body(_, MoofBody::Skip { .. }) => None,
        BoxesSo::Body(_, MoofBody::Traf(span, boxes)) => traf_end(span, boxes),
    }
}

#[tactic(auto, unfolding(crate::specs::Begun::moof_with))]
fn moof_with(s: MoofBoxes, h: Head) -> MoofBoxes
    ensures { result ≡ moof_with s h }
{
    match s {
        BoxesSo::Head(seen, _) => BoxesSo::Head(seen, h),
        BoxesSo::Body(_, MoofBody::Skip { .. }) => s,
        BoxesSo::Body(seen, MoofBody::Traf(span, boxes)) => BoxesSo::Body(
            seen,
            MoofBody::Traf(span, traf_with(boxes, h)),
        ),
    }
}

#[tactic(auto, unfolding(crate::specs::Begun::leaf_end))]
fn leaf_end(slot: Slot, s: LeafBoxes) -> Option<u64>
    ensures { result ≡ leaf_end slot s }
{
    match s {
        BoxesSo::Head(_, h) => head_end(slot.end, h),
        BoxesSo::Body(_, LeafBody::Skip { .. }) => None,
        BoxesSo::Body(_, LeafBody::Moof { end, boxes }) => moof_end(end, boxes),
    }
}

#[tactic(auto, unfolding(crate::specs::Begun::leaf_with))]
fn leaf_with(s: LeafBoxes, h: Head) -> LeafBoxes
    ensures { result ≡ leaf_with s h }
{
    match s {
        BoxesSo::Head(so, _) => BoxesSo::Head(so, h),
        BoxesSo::Body(_, LeafBody::Skip { .. }) => s,
        BoxesSo::Body(so, LeafBody::Moof { end, boxes }) => BoxesSo::Body(
            so,
            LeafBody::Moof {
                end,
                boxes: moof_with(boxes, h),
            },
        ),
    }
}

// The first seven bytes of a box's header, where eight are there and its container does not end before them.
fn head_ahead(slot: Slot, on: LeafOn, end: u64, n: u64, bytes: &[u8]) -> LeafOn
    requires { (leaf_end slot on.boxes ≡ Some end) × (n + length bytes.now ≤ limit) × (on.at ≤ length bytes.now) }
    ensures { (id : ℕ) (full : Bool) → From id slot full n bytes.now on.boxes on.at result.boxes result.at }
{
    let i = on.at;
    let pos = n + (i as u64);
    if bytes.len() - i < SHORT || end < pos + (SHORT as u64) {
        return on;
    }
    let size = word_at(bytes, i);
    let acc = word_at(bytes, i + 4) / 256;
    let head = Head::Kind {
        pos,
        size,
        more: 0,
        acc,
    };
    LeafOn {
        boxes: leaf_with(on.boxes, head),
        at: i + 7,
    }
}

// What is taken at once, before a byte by itself: of a header, of a number or of a skipped body, all but the last byte.
fn leaf_ahead(slot: Slot, on: LeafOn, n: u64, bytes: &[u8]) -> LeafOn
    requires { Within (leaf_bounds on.boxes) × (n + length bytes.now ≤ limit) × (on.at ≤ length bytes.now) }
    ensures { (id : ℕ) (full : Bool) → From id slot full n bytes.now on.boxes on.at result.boxes result.at }
{
    if let Some(end) = leaf_end(slot, on.boxes) {
        return head_ahead(slot, on, end, n, bytes);
    }
    let x = leaf_number(on.boxes);
    if x.more != 0 {
        return number_ahead(on, x, bytes);
    }
    skipped_ahead(on, n, bytes)
}

// The bytes at hand, as far as the leaf goes on with them: what is taken at once, and then a byte by itself. `id` is the top index's reference
// ID, `full` says that the leaf table has no room for one more leaf, and `n` bytes stand before them. How many are taken is left open: whatever
// their count, the boxes are what they leave.
pub fn leaf_bytes(id: u64, slot: Slot, full: bool, s: LeafBoxes, n: u64, bytes: &[u8]) -> LeafOn
    requires { Within (leaf_bounds s) × (n + length bytes.now ≤ limit) }
    ensures { (result.at ≤ length bytes.now) × Within (leaf_bounds result.boxes)
        × ((f : Flow) → no_room f.leaves f.table ≡ full → over (step_leaf id slot) s f n (take result.at bytes.now) ≡ go result.boxes f) }
{
    let mut on = LeafOn { boxes: s, at: 0 };
    loop {
        let ahead = leaf_ahead(slot, on, n, bytes);
        let at = ahead.at;
        if at == bytes.len() {
            return ahead;
        }
        let r = leaf_byte(id, slot, full, ahead.boxes, n + (at as u64), bytes[at]);
        let Ok(Step::Going(boxes)) = r else {
            return ahead;
        };
        on = LeafOn { boxes, at: at + 1 };
    }
}
