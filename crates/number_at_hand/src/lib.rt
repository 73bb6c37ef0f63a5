// The number that is being read, whatever the stage: how much of it is read, and the stage with more of it read.
#![tactic(auto, unfolding(
// a number's place, and a list of boxes of any kind
crate::specs::Views::next_place, crate::specs::Views::boxes_number, crate::specs::Views::ReadyBoxes,
// the numbers of a header and of an index
state::specs::Numbers::head_number, state::specs::Numbers::sidx_number,
// of the boxes of a leaf
state::specs::Numbers::traf_number, state::specs::Numbers::traf_body_number, state::specs::Numbers::moof_number, state::specs::Numbers::moof_body_number,
// of the leaf, and of the boxes up to the top index
state::specs::Numbers::leaf_number, state::specs::Numbers::leaf_body_number, state::specs::Numbers::opening_number, state::specs::Numbers::opening_body_number,
// of the gap and of any stage
state::specs::Numbers::gap_number, state::specs::Numbers::inner_number, state::specs::Numbers::stage_number,
// and the ranges of the boxes up to the top index
state::specs::Ranges::opening_bounds, state::specs::Ranges::opening_body_bounds))]

ghost use Rattle.std.specs.Prelude.{◌≡◌, None};
ghost use Rattle.state.specs.Sidx.{Place};
ghost use Rattle.state.specs.Numbers.{Number, head_number, sidx_number, traf_body_number, moof_body_number, leaf_body_number, leaf_number, opening_body_number, gap_number};
ghost use Rattle.state.specs.Numbers.{inner_number, stage_number};
ghost use Rattle.state.specs.Ranges.{Within, sidx_bounds, opening_body_bounds, inner_bounds, stage_bounds};
ghost use Rattle.index.specs.Views.{place_of, Shallow};
ghost use Rattle.number_at_hand.specs.Views.{at_hand_of, boxes_number, ReadyBoxes};

use index::{Where, byte_place};
use levels::depth;
use machine::{BoxesSo, Head};
use state::{
    GapBoxes, InnerBox, LeafBody, LeafBoxes, Levels, MoofBody, OpeningBody, Sidx, Slot, Stage, Top,
    TrafBody,
};

// The number at hand: so many bytes follow its next one, those before it spell `acc`, and its next one is stored at `place`, if they are stored.
#[derive(Clone, Copy)]
pub struct AtHand {
    pub more: u64,
    pub acc: u64,
    pub place: Option<u64>,
}

// No number is being read, or one whose bytes are not stored.
fn unstored(more: u64, acc: u64) -> AtHand
    ensures { result ≡ record { more = more; acc = acc; place = None } }
{
    AtHand {
        more,
        acc,
        place: None,
    }
}

// What holds the number at hand: the number, and what holds it with another `more` and `acc`. The cases of the state have these two as they are, so
// that a struct of both would be taken apart in each.
trait Holds: Copy {
    ghost number_of: { Self → Number Self };

    // what code needs to stay inside its numbers
    ghost Ready: { Self → Type 0 };

    fn number(self) -> AtHand
        requires { Ready self }
        ensures { result ≡ at_hand_of (number_of self) };

    fn again(self, more: u64, acc: u64) -> Self
        ensures { result ≡ (number_of self).again more acc };
}

impl Holds for Head {
    ghost number_of = { head_number };

    ghost Ready = { λ h. Unit {0} };

    fn number(self) -> AtHand {
        match self {
            Head::First => unstored(0, 0),
            Head::Size { more, acc, .. } => unstored(more, acc),
            Head::Kind { more, acc, .. } => unstored(more, acc),
            Head::Large { more, acc, .. } => unstored(more, acc),
        }
    }

    fn again(self, more: u64, acc: u64) -> Head {
        match self {
            Head::First => self,
            Head::Size { pos, .. } => Head::Size { pos, more, acc },
            Head::Kind { pos, size, .. } => Head::Kind {
                pos,
                size,
                more,
                acc,
            },
            Head::Large { pos, kind, .. } => Head::Large {
                pos,
                kind,
                more,
                acc,
            },
        }
    }
}

// A list of boxes, of whatever body.
impl<A: Copy, B: Holds> Holds for BoxesSo<A, B> {
    ghost number_of = { boxes_number B.number_of };

    ghost Ready = { ReadyBoxes B.Ready };

    fn number(self) -> AtHand {
        match self {
            BoxesSo::Head(_, h) => h.number(),
            BoxesSo::Body(_, body) => body.number(),
        }
    }

    fn again(self, more: u64, acc: u64) -> BoxesSo<A, B> {
        match self {
            BoxesSo::Head(known, h) => BoxesSo::Head(known, h.again(more, acc)),
            BoxesSo::Body(known, body) => BoxesSo::Body(known, body.again(more, acc)),
        }
    }
}

impl Holds for TrafBody {
    ghost number_of = { traf_body_number };

    ghost Ready = { λ s. Unit {0} };

    fn number(self) -> AtHand {
        match self {
            TrafBody::Skip { .. } | TrafBody::Rest { .. } => unstored(0, 0),
            TrafBody::Field { more, acc, .. } => unstored(more, acc),
        }
    }

    fn again(self, more: u64, acc: u64) -> TrafBody {
        match self {
            TrafBody::Skip { .. } | TrafBody::Rest { .. } => self,
            TrafBody::Field { part, .. } => TrafBody::Field { part, more, acc },
        }
    }
}

impl Holds for MoofBody {
    ghost number_of = { moof_body_number };

    ghost Ready = { λ s. Unit {0} };

    fn number(self) -> AtHand {
        match self {
            MoofBody::Skip { .. } => unstored(0, 0),
            MoofBody::Traf(_, boxes) => boxes.number(),
        }
    }

    fn again(self, more: u64, acc: u64) -> MoofBody {
        match self {
            MoofBody::Skip { .. } => self,
            MoofBody::Traf(span, boxes) => MoofBody::Traf(span, boxes.again(more, acc)),
        }
    }
}

impl Holds for LeafBody {
    ghost number_of = { leaf_body_number };

    ghost Ready = { λ s. Unit {0} };

    fn number(self) -> AtHand {
        match self {
            LeafBody::Skip { .. } => unstored(0, 0), // a box of a leaf
            LeafBody::Moof { boxes, .. } => boxes.number(),
        }
    }

    fn again(self, more: u64, acc: u64) -> LeafBody {
        match self {
            LeafBody::Skip { .. } => self,
            LeafBody::Moof { end, boxes } => LeafBody::Moof {
                end,
                boxes: boxes.again(more, acc), // those of a `moof`
            },
        }
    }
}

impl Holds for OpeningBody {
    ghost number_of = { opening_body_number };

    ghost Ready = { λ s. Within (opening_body_bounds s) };

    fn number(self) -> AtHand {
        match self {
            OpeningBody::Skip { .. } => unstored(0, 0),
            OpeningBody::Styp { more, acc, .. } => unstored(more, acc),
            OpeningBody::Index(_, i) => sidx_number(Where::Topmost, i),
        }
    }

    fn again(self, more: u64, acc: u64) -> OpeningBody {
        match self {
            OpeningBody::Skip { .. } => self,
            OpeningBody::Styp {
                span,
                part,
                listed,
                ..
            } => OpeningBody::Styp {
                span,
                part,
                listed,
                more,
                acc,
            },
            OpeningBody::Index(span, i) => OpeningBody::Index(span, sidx_again(i, more, acc)),
        }
    }
}

impl Holds for GapBoxes {
    ghost number_of = { gap_number };

    ghost Ready = { λ s. Unit {0} };

    fn number(self) -> AtHand {
        match self {
            GapBoxes::Head(h) => h.number(),
            GapBoxes::Body { .. } => unstored(0, 0),
        }
    }

    fn again(self, more: u64, acc: u64) -> GapBoxes {
        match self {
            GapBoxes::Head(h) => GapBoxes::Head(h.again(more, acc)),
            GapBoxes::Body { .. } => self,
        }
    }
}

pub fn leaf_number(s: LeafBoxes) -> AtHand
    ensures { result ≡ at_hand_of (leaf_number s) }
{
    s.number()
}

pub fn leaf_again(s: LeafBoxes, more: u64, acc: u64) -> LeafBoxes
    ensures { result ≡ (leaf_number s).again more acc }
{
    s.again(more, acc)
}

// The number of an index hangs on where the index stands.
fn sidx_number(p: Where, s: Sidx) -> AtHand
    requires { Shallow p × Within (sidx_bounds s) }
    ensures { result ≡ at_hand_of (sidx_number (place_of p) s) }
{
    match s {
        Sidx::Field { more, acc, .. } => unstored(more, acc),
        Sidx::Entry {
            part,
            sums,
            more,
            acc,
            ..
        } => AtHand {
            more,
            acc,
            place: Some(byte_place(p, part, sums, more)),
        },
    }
}

fn sidx_again(s: Sidx, more: u64, acc: u64) -> Sidx
    ensures { (p : Place) → result ≡ (sidx_number p s).again more acc }
{
    match s {
        Sidx::Field { part, draft, .. } => Sidx::Field {
            part,
            draft,
            more,
            acc,
        },
        Sidx::Entry {
            part,
            draft,
            sums,
            ..
        } => Sidx::Entry {
            part,
            draft,
            sums,
            more,
            acc,
        },
    }
}

fn inner_number(top: Top, ls: Levels, slot: Slot, s: InnerBox) -> AtHand
    requires { Within (inner_bounds ls s) }
    ensures { result ≡ at_hand_of (inner_number top ls slot s) }
{
    match s {
        InnerBox::Head(h) => h.number(),
        InnerBox::Body(_, i) => sidx_number(Where::Under(top, slot, depth(ls)), i),
    }
}

fn inner_again(s: InnerBox, more: u64, acc: u64) -> InnerBox
    ensures { (top : Top) (ls : Levels) (slot : Slot) → result ≡ (inner_number top ls slot s).again more acc }
{
    match s {
        InnerBox::Head(h) => InnerBox::Head(h.again(more, acc)),
        InnerBox::Body(span, i) => InnerBox::Body(span, sidx_again(i, more, acc)),
    }
}

// The number at hand. `now` is asked for only by the contract: the ranges of a stage speak of it.
pub fn stage_number(s: Stage, now: u64) -> AtHand
    requires { Within (stage_bounds s now) }
    ensures { result ≡ at_hand_of (stage_number s) }
{
    match s {
        Stage::Opening { boxes, .. } => boxes.number(),
        Stage::Gap { boxes, .. } => boxes.number(),
        Stage::Entry { .. } => unstored(0, 0),
        Stage::Leaf { boxes, .. } => leaf_number(boxes),
        Stage::Inner {
            top,
            levels,
            slot,
            first,
        } => inner_number(top, levels, slot, first),
    }
}

// The stage with its number read so far that `more` bytes follow the next one and those before it spell `acc`.
pub fn stage_again(s: Stage, more: u64, acc: u64) -> Stage
    ensures { result ≡ (stage_number s).again more acc }
{
    match s {
        Stage::Opening { brand, boxes } => Stage::Opening {
            brand,
            boxes: boxes.again(more, acc),
        },
        Stage::Gap {
            top,
            level,
            end,
            boxes,
        } => Stage::Gap {
            top,
            level,
            end,
            boxes: boxes.again(more, acc),
        },
        Stage::Entry { .. } => s,
        Stage::Leaf {
            top,
            levels,
            slot,
            boxes,
        } => Stage::Leaf {
            top,
            levels,
            slot,
            boxes: leaf_again(boxes, more, acc),
        },
        Stage::Inner {
            top,
            levels,
            slot,
            first,
        } => Stage::Inner {
            top,
            levels,
            slot,
            first: inner_again(first, more, acc),
        },
    }
}
