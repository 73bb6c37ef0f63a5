// The blocks of the boxes that a state can be in.
ghost use Rattle.std.specs.Prelude.{[], ◌∷◌, ◌≡◌, ◌++◌, ◌+◌, ◌≤◌, length};
ghost use Rattle.std.proofs.Common.{arith};
ghost use Rattle.numbered.specs.Numbers.{opening_body_numbers, opening_numbers, gap_numbers, inner_numbers, traf_phase_numbers, traf_so_numbers, traf_part_numbers};
ghost use Rattle.numbered.specs.Numbers.{traf_body_numbers, traf_numbers, moof_body_numbers, moof_numbers, leaf_body_numbers, leaf_so_numbers, leaf_numbers};
ghost use Rattle.numbered.specs.Blocks as defs;
ghost use Rattle.numbered.proofs.Lengths as lengths;

use crate::block::{Block, Numbers, put_padded};
use machine::{BoxesSo, Head};
use state::{
    GapBoxes, InnerBox, LeafBody, LeafBoxes, LeafSo, MoofBody, MoofBoxes, OpeningBody,
    OpeningBoxes, Seen, Sidx, Span, StypPart, TrafBody, TrafBoxes, TrafPart, TrafPhase, TrafSo,
};

#[tactic(auto, using(crate::proofs::Laws::puts), unfolding(numbered::specs::Numbers::opening_body_numbers, numbered::specs::Blocks::of_three, basics::specs::Choose::pick))]
impl Block for OpeningBody {
    const MOST: usize = 16;

    ghost MOST = { 16 };

    ghost numbers = { opening_body_numbers };

    ghost value = { defs.opening_body_of };

    ghost fits = { lengths.opening_body_length };

    fn put(self, to: &mut Numbers) {
        match self {
            OpeningBody::Skip { stop } => to.put(&[1, stop]),
            OpeningBody::Styp {
                span,
                part,
                listed,
                more,
                acc,
            } => {
                to.put(&[2]);
                span.put(to);
                part.put(to);
                to.put(&[u64::from(listed), more, acc]);
            }
            OpeningBody::Index(span, s) => {
                to.put(&[3]);
                span.put(to);
                s.put(to);
            }
        }
    }

    fn take(from: &[u64]) -> OpeningBody {
        let span = Span::take(&from[1..]);
        match from[0] {
            1 => OpeningBody::Skip { stop: from[1] },
            2 => OpeningBody::Styp {
                span,
                part: StypPart::take(&from[3..]),
                listed: from[4] == 1,
                more: from[5],
                acc: from[6],
            },
            _ => OpeningBody::Index(span, Sidx::take(&from[3..])),
        }
    }
}

#[tactic(auto, using(crate::proofs::Laws::puts), unfolding(numbered::specs::Numbers::opening_numbers, numbered::specs::Blocks::of_two, basics::specs::Choose::pick))]
impl Block for OpeningBoxes {
    const MOST: usize = 18;

    ghost MOST = { 18 };

    ghost numbers = { opening_numbers };

    ghost value = { defs.opening_of };

    ghost fits = { lengths.opening_length };

    fn put(self, to: &mut Numbers) {
        match self {
            BoxesSo::Head(typed, h) => {
                to.put(&[1, u64::from(typed)]);
                h.put(to);
            }
            BoxesSo::Body(typed, body) => {
                to.put(&[2, u64::from(typed)]);
                body.put(to);
            }
        }
    }

    fn take(from: &[u64]) -> OpeningBoxes {
        let typed = from[1] == 1;
        match from[0] {
            1 => BoxesSo::Head(typed, Head::take(&from[2..])),
            _ => BoxesSo::Body(typed, OpeningBody::take(&from[2..])),
        }
    }
}

#[tactic(auto, using(crate::proofs::Laws::puts), unfolding(numbered::specs::Numbers::gap_numbers, numbered::specs::Blocks::of_two, basics::specs::Choose::pick))]
impl Block for GapBoxes {
    const MOST: usize = 6;

    ghost MOST = { 6 };

    ghost numbers = { gap_numbers };

    ghost value = { defs.gap_of };

    ghost fits = { lengths.gap_length };

    fn put(self, to: &mut Numbers) {
        match self {
            GapBoxes::Head(h) => {
                to.put(&[1]);
                h.put(to);
            }
            GapBoxes::Body { stop } => to.put(&[2, stop]),
        }
    }

    fn take(from: &[u64]) -> GapBoxes {
        match from[0] {
            1 => GapBoxes::Head(Head::take(&from[1..])),
            _ => GapBoxes::Body { stop: from[1] },
        }
    }
}

#[tactic(auto, using(crate::proofs::Laws::puts), unfolding(numbered::specs::Numbers::inner_numbers, numbered::specs::Blocks::of_two, basics::specs::Choose::pick))]
impl Block for InnerBox {
    const MOST: usize = 16;

    ghost MOST = { 16 };

    ghost numbers = { inner_numbers };

    ghost value = { defs.inner_of };

    ghost fits = { lengths.inner_length };

    fn put(self, to: &mut Numbers) {
        match self {
            InnerBox::Head(h) => {
                to.put(&[1]);
                h.put(to);
            }
            InnerBox::Body(span, s) => {
                to.put(&[2]);
                span.put(to);
                s.put(to);
            }
        }
    }

    fn take(from: &[u64]) -> InnerBox {
        match from[0] {
            1 => InnerBox::Head(Head::take(&from[1..])),
            _ => InnerBox::Body(Span::take(&from[1..]), Sidx::take(&from[3..])),
        }
    }
}

#[tactic(auto, using(crate::proofs::Laws::puts), unfolding(numbered::specs::Numbers::traf_phase_numbers, numbered::specs::Blocks::of_three, basics::specs::Choose::pick))]
impl Block for TrafPhase {
    const MOST: usize = 2;

    ghost MOST = { 2 };

    ghost numbers = { traf_phase_numbers };

    ghost value = { defs.traf_phase_of };

    ghost fits = { lengths.phase_length };

    fn put(self, to: &mut Numbers) {
        match self {
            TrafPhase::Fresh => to.put(&[1]),
            TrafPhase::Headed { reference } => to.put(&[2, u64::from(reference)]),
            TrafPhase::Timed => to.put(&[3]),
        }
    }

    fn take(from: &[u64]) -> TrafPhase {
        match from[0] {
            1 => TrafPhase::Fresh,
            2 => TrafPhase::Headed {
                reference: from[1] == 1,
            },
            _ => TrafPhase::Timed,
        }
    }
}

#[tactic(auto, using(crate::proofs::Laws::puts))]
impl Block for TrafSo {
    const MOST: usize = 5;

    ghost MOST = { 5 };

    ghost numbers = { traf_so_numbers };

    ghost value = { defs.traf_so_of };

    ghost fits = { λ so. Prim.omega (arith, lengths.so_length so) };

    fn put(self, to: &mut Numbers) {
        put_padded(self.track, to);
        self.seen.put(to);
    }

    fn take(from: &[u64]) -> TrafSo {
        TrafSo {
            track: TrafPhase::take(from),
            seen: Seen::take(&from[2..]),
        }
    }
}

#[tactic(auto, using(crate::proofs::Laws::puts), unfolding(numbered::specs::Numbers::traf_part_numbers, numbered::specs::Blocks::of_five, basics::specs::Choose::pick))]
impl Block for TrafPart {
    const MOST: usize = 3;

    ghost MOST = { 3 };

    ghost numbers = { traf_part_numbers };

    ghost value = { defs.traf_part_of };

    ghost fits = { lengths.part_length };

    fn put(self, to: &mut Numbers) {
        match self {
            TrafPart::HeadFlags { end } => to.put(&[1, end]),
            TrafPart::TrackId { end } => to.put(&[2, end]),
            TrafPart::Version { pos, end } => to.put(&[3, pos, end]),
            TrafPart::TimeFlags { pos, wide } => to.put(&[4, pos, u64::from(wide)]),
            TrafPart::Time { pos } => to.put(&[5, pos]),
        }
    }

    fn take(from: &[u64]) -> TrafPart {
        match from[0] {
            1 => TrafPart::HeadFlags { end: from[1] },
            2 => TrafPart::TrackId { end: from[1] },
            3 => TrafPart::Version {
                pos: from[1],
                end: from[2],
            },
            4 => TrafPart::TimeFlags {
                pos: from[1],
                wide: from[2] == 1,
            },
            _ => TrafPart::Time { pos: from[1] },
        }
    }
}

#[tactic(auto, using(crate::proofs::Laws::puts), unfolding(numbered::specs::Numbers::traf_body_numbers, numbered::specs::Blocks::of_three, basics::specs::Choose::pick))]
impl Block for TrafBody {
    const MOST: usize = 6;

    ghost MOST = { 6 };

    ghost numbers = { traf_body_numbers };

    ghost value = { defs.traf_body_of };

    ghost fits = { lengths.traf_body_length };

    fn put(self, to: &mut Numbers) {
        match self {
            TrafBody::Skip { stop } => to.put(&[1, stop]),
            TrafBody::Rest { stop, reference } => to.put(&[2, stop, u64::from(reference)]),
            TrafBody::Field { part, more, acc } => {
                to.put(&[3]);
                put_padded(part, to);
                to.put(&[more, acc]);
            }
        }
    }

    fn take(from: &[u64]) -> TrafBody {
        match from[0] {
            1 => TrafBody::Skip { stop: from[1] },
            2 => TrafBody::Rest {
                stop: from[1],
                reference: from[2] == 1,
            },
            _ => TrafBody::Field {
                part: TrafPart::take(&from[1..]),
                more: from[4],
                acc: from[5],
            },
        }
    }
}

#[tactic(auto, using(crate::proofs::Laws::puts), unfolding(numbered::specs::Numbers::traf_numbers, numbered::specs::Blocks::of_two, basics::specs::Choose::pick))]
impl Block for TrafBoxes {
    const MOST: usize = 12;

    ghost MOST = { 12 };

    ghost numbers = { traf_numbers };

    ghost value = { defs.traf_of };

    ghost fits = { lengths.traf_length };

    fn put(self, to: &mut Numbers) {
        match self {
            BoxesSo::Head(so, h) => {
                to.put(&[1]);
                so.put(to);
                h.put(to);
            }
            BoxesSo::Body(so, body) => {
                to.put(&[2]);
                so.put(to);
                body.put(to);
            }
        }
    }

    fn take(from: &[u64]) -> TrafBoxes {
        let so = TrafSo::take(&from[1..]);
        match from[0] {
            1 => BoxesSo::Head(so, Head::take(&from[6..])),
            _ => BoxesSo::Body(so, TrafBody::take(&from[6..])),
        }
    }
}

#[tactic(auto, using(crate::proofs::Laws::puts), unfolding(numbered::specs::Numbers::moof_body_numbers, numbered::specs::Blocks::of_two, basics::specs::Choose::pick))]
impl Block for MoofBody {
    const MOST: usize = 15;

    ghost MOST = { 15 };

    ghost numbers = { moof_body_numbers };

    ghost value = { defs.moof_body_of };

    ghost fits = { lengths.moof_body_length };

    fn put(self, to: &mut Numbers) {
        match self {
            MoofBody::Skip { stop } => to.put(&[1, stop]),
            MoofBody::Traf(span, t) => {
                to.put(&[2]);
                span.put(to);
                t.put(to);
            }
        }
    }

    fn take(from: &[u64]) -> MoofBody {
        match from[0] {
            1 => MoofBody::Skip { stop: from[1] },
            _ => MoofBody::Traf(Span::take(&from[1..]), TrafBoxes::take(&from[3..])),
        }
    }
}

#[tactic(auto, using(crate::proofs::Laws::puts), unfolding(numbered::specs::Numbers::moof_numbers, numbered::specs::Blocks::of_two, basics::specs::Choose::pick))]
impl Block for MoofBoxes {
    const MOST: usize = 19;

    ghost MOST = { 19 };

    ghost numbers = { moof_numbers };

    ghost value = { defs.moof_of };

    ghost fits = { lengths.moof_length };

    fn put(self, to: &mut Numbers) {
        match self {
            BoxesSo::Head(seen, h) => {
                to.put(&[1]);
                seen.put(to);
                h.put(to);
            }
            BoxesSo::Body(seen, body) => {
                to.put(&[2]);
                seen.put(to);
                body.put(to);
            }
        }
    }

    fn take(from: &[u64]) -> MoofBoxes {
        let seen = Seen::take(&from[1..]);
        match from[0] {
            1 => BoxesSo::Head(seen, Head::take(&from[4..])),
            _ => BoxesSo::Body(seen, MoofBody::take(&from[4..])),
        }
    }
}

#[tactic(auto, using(crate::proofs::Laws::puts), unfolding(numbered::specs::Numbers::leaf_body_numbers, numbered::specs::Blocks::of_two, basics::specs::Choose::pick))]
impl Block for LeafBody {
    const MOST: usize = 21;

    ghost MOST = { 21 };

    ghost numbers = { leaf_body_numbers };

    ghost value = { defs.leaf_body_of };

    ghost fits = { lengths.leaf_body_length };

    fn put(self, to: &mut Numbers) {
        match self {
            LeafBody::Skip { stop } => to.put(&[1, stop]),
            LeafBody::Moof { end, boxes } => {
                to.put(&[2, end]);
                boxes.put(to);
            }
        }
    }

    fn take(from: &[u64]) -> LeafBody {
        match from[0] {
            1 => LeafBody::Skip { stop: from[1] },
            _ => LeafBody::Moof {
                end: from[1],
                boxes: MoofBoxes::take(&from[2..]),
            },
        }
    }
}

#[tactic(auto, using(crate::proofs::Laws::puts))]
impl Block for LeafSo {
    const MOST: usize = 4;

    ghost MOST = { 4 };

    ghost numbers = { leaf_so_numbers };

    ghost value = { defs.leaf_so_of };

    ghost fits = { λ _. Prim.omega arith };

    fn put(self, to: &mut Numbers) {
        to.put(&[u64::from(self.moof)]);
        self.seen.put(to);
    }

    fn take(from: &[u64]) -> LeafSo {
        LeafSo {
            moof: from[0] == 1,
            seen: Seen::take(&from[1..]),
        }
    }
}

#[tactic(auto, using(crate::proofs::Laws::puts), unfolding(numbered::specs::Numbers::leaf_numbers, numbered::specs::Blocks::of_two, basics::specs::Choose::pick))]
impl Block for LeafBoxes {
    const MOST: usize = 26;

    ghost MOST = { 26 };

    ghost numbers = { leaf_numbers };

    ghost value = { defs.leaf_of };

    ghost fits = { lengths.leaf_length };

    fn put(self, to: &mut Numbers) {
        match self {
            BoxesSo::Head(so, h) => {
                to.put(&[1]);
                so.put(to);
                h.put(to);
            }
            BoxesSo::Body(so, body) => {
                to.put(&[2]);
                so.put(to);
                body.put(to);
            }
        }
    }

    fn take(from: &[u64]) -> LeafBoxes {
        let so = LeafSo::take(&from[1..]);
        match from[0] {
            1 => BoxesSo::Head(so, Head::take(&from[5..])),
            _ => BoxesSo::Body(so, LeafBody::take(&from[5..])),
        }
    }
}
