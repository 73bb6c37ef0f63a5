// A leaf byte by byte: its boxes, a `moof` among them, and the boxes of a `moof`. What flows through a reading stays as it is inside a
// leaf, so that no function here takes it; of the leaf table only whether it has room for one more leaf is told.
#![tactic(auto)]

ghost use Rattle.std.specs.Prelude.{ℕ, ◌+◌, ◌<◌, ◌≡◌, not, ◌&&◌, ◌||◌, [], ◌++◌, eqb, Some, None, Ok, ⊤, refl};
ghost use Rattle.basics.specs.Choose.{pick};
ghost use Rattle.segment.specs.Constants.{limit, styp, sidx, mdat};
ghost use Rattle.machine.specs.Faults.{lowest};
ghost use Rattle.machine.proofs.Kept.{each_none};
ghost use Rattle.flaws.specs.Flaws.{flaw_of, numbered};
ghost use Rattle.flaws.proofs.Flaws.{Beyond};
ghost use Rattle.flaws.proofs.Places.{leaf_beyond};
ghost use Rattle.state.specs.Calls.{flow_of};
ghost use Rattle.state.specs.Flow.{Flow, left};
ghost use Rattle.state.specs.Rows.{no_room, leaf_faults};
ghost use Rattle.state.specs.Leaf.{Passed, lift_traf, lift_moof, moof_boxes, step_moof, moof_next, leaf_now, leaf_lacks, leaf_boxes, step_leaf};
ghost use Rattle.state.specs.Ranges.{Within, moof_body_bounds, leaf_body_bounds, leaf_bounds};
ghost use Rattle.state.specs.Views.{view, view_as};
ghost use Rattle.lists.specs.Listed.{on_from};
ghost use Rattle.leaf.specs.Leaf.{passed_of, RoomIs, lack_of};
ghost use Rattle.leaf.specs.Rooms.{roomy, roomy_is};

use flaws::{MOOF, leaf_kind_flaw, top_flaw};
use lists::{BodyList, BoxList, after_box, beside, list_byte, next_box, skip_to};
use machine::{Header, Refusal, Step};
use state::{LeafBody, LeafBoxes, LeafSo, MoofBody, MoofBoxes, Seen, Slot, Span, TrafBoxes};
use traf::{traf_begin, traf_byte};

// The type `traf`, as the number that its letters spell.
const TRAF: u64 = 1953653094;

// What a `traf` answers, in its `moof`. (`lift_moof` below differs in the body that is made; as one function it would take that as a closure, and
// say in its contract what it says here in one line.)
#[tactic(auto, unfolding(machine::specs::Run::lift))]
fn lift_traf(
    span: Span,
    r: Result<Step<TrafBoxes, Seen>, Refusal>,
) -> Result<Step<MoofBody, Option<Seen>>, Refusal>
    ensures { (f : Flow) → view_as passed_of f result ≡ lift_traf span (view f r) }
{
    match r? {
        Step::Going(boxes) => Ok(Step::Going(MoofBody::Traf(span, boxes))),
        Step::Done(seen) => Ok(Step::Done(Some(seen))),
    }
}

// The boxes of a `moof`, as a list; `id` is the top index's reference ID.
#[derive(Clone, Copy)]
struct MoofList {
    id: u64,
    end: u64,
}

impl BoxList for MoofList {
    type Known = Seen;

    type Body = MoofBody;

    type Gives = Option<Seen>;

    type Whole = Seen;

    ghost Gave = { Passed };

    ghost gave = { passed_of };

    ghost boxes = { λ l. moof_boxes l.id l.end };

    ghost Flows = { λ l f. ⊤ };

    ghost flow = { λ l. flow_of 0 0 0 [] [] };

    fn end(&self) -> u64 {
        self.end
    }

    #[tactic(auto, unfolding(flaws::specs::Flaws::numbered, flaws::specs::Flaws::flaw_of, basics::specs::Choose::pick))]
    fn flaw(&self, _seen: Seen, _h: Header) -> Option<u64> {
        None
    }

    #[tactic(auto, using(lists::proofs::Laws::skipped), unfolding(state::specs::Leaf::begin_moof, basics::specs::Choose::pick))]
    fn begin(
        &self,
        seen: Seen,
        h: Header,
        n: u64,
    ) -> Result<Step<MoofBody, Option<Seen>>, Refusal> {
        let end = h.pos + h.size;
        if h.kind == TRAF {
            let span = Span { pos: h.pos, end };
            return lift_traf(span, traf_begin(span, seen, n));
        }
        Ok(skip_to(end, n, MoofBody::Skip { stop: end }, None))
    }

    #[tactic(auto, unfolding(state::specs::Leaf::seen_now))]
    fn close(&self, seen: Seen, passed: Option<Seen>, n: u64) -> Result<Step<Seen, Seen>, Refusal> {
        let seen = passed.unwrap_or(seen);
        Ok(moof_on(self.end, seen, n))
    }

    #[tactic(auto, unfolding(machine::specs::Faults::lowest))]
    fn beside(&self, _seen: Seen, x: Refusal, _n: u64) -> Refusal {
        x
    }

    ghost flows = { λ l. tt };

    ghost kept = { λ l. refl };

    ghost box_kept = { λ l a. refl };

    ghost beyond = { λ l a h f. each_none (Beyond h.pos) };
}

impl BodyList for MoofList {
    ghost bounds = { moof_body_bounds };

    #[tactic(auto, using(lists::proofs::Laws::skipped), unfolding(state::specs::Leaf::step_moof_body, state::specs::Ranges::moof_body_bounds))]
    fn body(
        &self,
        _seen: Seen,
        s: MoofBody,
        n: u64,
        b: u8,
    ) -> Result<Step<MoofBody, Option<Seen>>, Refusal> {
        match s {
            MoofBody::Skip { stop } => Ok(skip_to(stop, n + 1, s, None)),
            MoofBody::Traf(span, boxes) => lift_traf(span, traf_byte(self.id, span, boxes, n, b)),
        }
    }
}

// The list of a `moof` goes on, or it ends where the `moof` does; nothing can lack in it.
#[tactic(auto, unfolding(state::specs::Leaf::moof_next, lists::specs::Listed::on_from, machine::specs::Faults::unless, basics::specs::Choose::pick))]
fn moof_on(end: u64, seen: Seen, n: u64) -> Step<Seen, Seen>
    ensures { (f : Flow) → view f (Ok result) ≡ on_from (moof_next end seen n) f }
{
    if n == end {
        return Step::Done(seen);
    }
    Step::Going(seen)
}

// What a `moof` answers, in its leaf.
#[tactic(auto, unfolding(machine::specs::Run::lift))]
fn lift_moof(
    end: u64,
    r: Result<Step<MoofBoxes, Seen>, Refusal>,
) -> Result<Step<LeafBody, Option<Seen>>, Refusal>
    ensures { (f : Flow) → view_as passed_of f result ≡ lift_moof end (view f r) }
{
    match r? {
        Step::Going(boxes) => Ok(Step::Going(LeafBody::Moof { end, boxes })),
        Step::Done(seen) => Ok(Step::Done(Some(seen))),
    }
}

// The boxes of a leaf, as a list; `full` says that the leaf table has no room for one more leaf.
#[derive(Clone, Copy)]
struct LeafList {
    id: u64,
    slot: Slot,
    full: bool,
}

impl LeafList {
    // The number of what a leaf lacks at its end: room for its record, a decode time of the reference track.
    #[tactic(auto, unfolding(crate::specs::Leaf::lack_of, basics::specs::Choose::pick))]
    fn lack(&self, so: LeafSo) -> Option<u64>
        ensures { result ≡ lack_of self.now.full so.seen.any }
    {
        match (self.full, so.seen.any) {
            (true, _) => Some(15),
            (false, false) => Some(19),
            (false, true) => None,
        }
    }

    fn span(&self) -> Span
        ensures { result ≡ record { pos = self.now.slot.pos; end = self.now.slot.end } }
    {
        Span {
            pos: self.slot.pos,
            end: self.slot.end,
        }
    }

    // A refusal at a byte inside the leaf: where that byte is its last, what the leaf lacks is shown beside it.
    #[tactic(auto, using(crate::proofs::Laws::lacks_beside), unfolding(basics::specs::Choose::pick, lists::specs::Listed::lower))]
    fn worse_in_leaf(&self, so: LeafSo, x: Refusal, n: u64) -> Refusal
        ensures { (f : Flow) → RoomIs self.now.full f → result ≡ lowest x (pick (eqb n self.now.slot.end) (leaf_lacks self.now.slot so (left f)) []) }
    {
        beside(self.span(), self.lack(so), x, n)
    }
}

// The number that a header shows in a leaf by its type and its place.
#[tactic(auto, unfolding(basics::specs::Choose::pick))]
fn kind_flaw(pos: u64, had: bool, full: bool, h: Header) -> Option<u64>
    ensures { result ≡ pick (eqb h.kind styp) (Some 7) (pick (eqb h.kind sidx || eqb h.kind mdat && not had) (Some 9) (pick (eqb h.pos pos && full) (Some 15) None)) }
{
    leaf_kind_flaw(had, h.kind).or((h.pos == pos && full).then_some(15))
}

// What is known of a leaf after a box.
#[tactic(auto, unfolding(state::specs::Leaf::leaf_now))]
fn leaf_now(so: LeafSo, passed: Option<Seen>) -> LeafSo
    ensures { result ≡ leaf_now so (passed_of passed) }
{
    match passed {
        None => so,
        Some(seen) => LeafSo { moof: true, seen },
    }
}

impl BoxList for LeafList {
    type Known = LeafSo;

    type Body = LeafBody;

    type Gives = Option<Seen>;

    type Whole = Seen;

    ghost Gave = { Passed };

    ghost gave = { passed_of };

    ghost boxes = { λ l. leaf_boxes l.id l.slot };

    ghost Flows = { λ l f. RoomIs l.full f };

    ghost flow = { λ l. roomy l.full };

    fn end(&self) -> u64 {
        self.slot.end
    }

    #[tactic(auto, using(crate::proofs::Laws::leaf_told))]
    fn flaw(&self, so: LeafSo, h: Header) -> Option<u64> {
        top_flaw(h, kind_flaw(self.slot.pos, so.moof, self.full, h))
    }

    #[tactic(auto, using(lists::proofs::Laws::skipped), unfolding(state::specs::Leaf::begin_leaf, basics::specs::Choose::pick))]
    fn begin(
        &self,
        so: LeafSo,
        h: Header,
        n: u64,
    ) -> Result<Step<LeafBody, Option<Seen>>, Refusal> {
        let end = h.pos + h.size;
        if h.kind == MOOF {
            return lift_moof(end, next_box(Ok(moof_on(end, so.seen, n))));
        }
        Ok(skip_to(end, n, LeafBody::Skip { stop: end }, None))
    }

    #[tactic(auto, using(crate::proofs::Laws::faultless))]
    fn close(
        &self,
        so: LeafSo,
        passed: Option<Seen>,
        n: u64,
    ) -> Result<Step<LeafSo, Seen>, Refusal> {
        let so = leaf_now(so, passed);
        after_box(self.span(), self.lack(so), so, so.seen, n)
    }

    fn beside(&self, so: LeafSo, x: Refusal, n: u64) -> Refusal {
        self.worse_in_leaf(so, x, n)
    }

    ghost flows = { λ l. roomy_is l.full };

    ghost kept = { λ l. refl };

    ghost box_kept = { λ l a. refl };

    ghost beyond = { λ l a h f. leaf_beyond l.slot.pos a.moof h f };
}

impl BodyList for LeafList {
    ghost bounds = { leaf_body_bounds };

    #[tactic(auto, using(lists::proofs::Laws::skipped, crate::proofs::Laws::moof_within, crate::proofs::Laws::moof_listed), unfolding(state::specs::Leaf::step_leaf_body, state::specs::Ranges::leaf_body_bounds))]
    fn body(
        &self,
        _so: LeafSo,
        s: LeafBody,
        n: u64,
        b: u8,
    ) -> Result<Step<LeafBody, Option<Seen>>, Refusal> {
        match s {
            LeafBody::Skip { stop } => Ok(skip_to(stop, n + 1, s, None)),
            LeafBody::Moof { end, boxes } => {
                let moof = MoofList { id: self.id, end };
                lift_moof(end, list_byte(&moof, boxes, n, b))
            }
        }
    }
}

// One byte of a leaf; `id` is the top index's reference ID, `full` says that the leaf table has no room for one more leaf, and `n`
// bytes stand before the byte.
#[tactic(auto, using(crate::proofs::Laws::leaf_listed, crate::proofs::Laws::leaf_within))]
pub fn leaf_byte(
    id: u64,
    slot: Slot,
    full: bool,
    s: LeafBoxes,
    n: u64,
    b: u8,
) -> Result<Step<LeafBoxes, Seen>, Refusal>
    requires { Within (leaf_bounds s) × (n < limit) }
    ensures { (f : Flow) → no_room f.leaves f.table ≡ full → view f result ≡ step_leaf id slot s f n b }
{
    list_byte(&LeafList { id, slot, full }, s, n, b)
}
