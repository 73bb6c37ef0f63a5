// The blocks that others are made of, and an index.
ghost use Rattle.std.specs.Prelude.{[], ◌∷◌, ◌≡◌, ◌++◌, ◌+◌, ◌≤◌, length};
ghost use Rattle.std.proofs.Common.{arith};
ghost use Rattle.numbered.specs.Numbers.{span_numbers, seen_numbers, top_numbers, level_numbers, slot_numbers, draft_numbers};
ghost use Rattle.numbered.specs.Numbers.{sums_numbers, levels_numbers, head_numbers, index_part_number, entry_part_number, styp_part_number, sidx_numbers};
ghost use Rattle.numbered.specs.Blocks as defs;
ghost use Rattle.numbered.proofs.Lengths as lengths;

use crate::block::{Block, Numbers};
use machine::{Head, Refusal};
use state::{
    Draft, EntryPart, IndexPart, Level, Levels, Seen, Sidx, Slot, Span, StypPart, Sums, Top,
};

impl Block for Span {
    const MOST: usize = 2;

    ghost MOST = { 2 };

    ghost numbers = { span_numbers };

    ghost value = { defs.span_of };

    ghost fits = { λ _. Prim.omega arith };

    fn put(self, to: &mut Numbers) {
        to.put(&[self.pos, self.end]);
    }

    fn take(from: &[u64]) -> Span {
        Span {
            pos: from[0],
            end: from[1],
        }
    }
}

#[tactic(auto, using(crate::proofs::Laws::puts))]
impl Block for Seen {
    const MOST: usize = 3;

    ghost MOST = { 3 };

    ghost numbers = { seen_numbers };

    ghost value = { defs.seen_of };

    ghost fits = { λ _. Prim.omega arith };

    fn put(self, to: &mut Numbers) {
        to.put(&[u64::from(self.any), self.first, self.last]);
    }

    fn take(from: &[u64]) -> Seen {
        Seen {
            any: from[0] == 1,
            first: from[1],
            last: from[2],
        }
    }
}

impl Block for Top {
    const MOST: usize = 4;

    ghost MOST = { 4 };

    ghost numbers = { top_numbers };

    ghost value = { defs.top_of };

    ghost fits = { λ _. Prim.omega arith };

    fn put(self, to: &mut Numbers) {
        to.put(&[self.id, self.scale, self.start, self.durations]);
    }

    fn take(from: &[u64]) -> Top {
        Top {
            id: from[0],
            scale: from[1],
            start: from[2],
            durations: from[3],
        }
    }
}

impl Block for Level {
    const MOST: usize = 4;

    ghost MOST = { 4 };

    ghost numbers = { level_numbers };

    ghost value = { defs.level_of };

    ghost fits = { λ _. Prim.omega arith };

    fn put(self, to: &mut Numbers) {
        to.put(&[self.next, self.count, self.end, self.until]);
    }

    fn take(from: &[u64]) -> Level {
        Level {
            next: from[0],
            count: from[1],
            end: from[2],
            until: from[3],
        }
    }
}

impl Block for Slot {
    const MOST: usize = 4;

    ghost MOST = { 4 };

    ghost numbers = { slot_numbers };

    ghost value = { defs.slot_of };

    ghost fits = { λ _. Prim.omega arith };

    fn put(self, to: &mut Numbers) {
        to.put(&[self.pos, self.end, self.until, self.sap]);
    }

    fn take(from: &[u64]) -> Slot {
        Slot {
            pos: from[0],
            end: from[1],
            until: from[2],
            sap: from[3],
        }
    }
}

#[tactic(auto, using(crate::proofs::Laws::puts))]
impl Block for Draft {
    const MOST: usize = 5;

    ghost MOST = { 5 };

    ghost numbers = { draft_numbers };

    ghost value = { defs.draft_of };

    ghost fits = { λ _. Prim.omega arith };

    fn put(self, to: &mut Numbers) {
        to.put(&[
            u64::from(self.wide),
            self.id,
            self.scale,
            self.time,
            self.offset,
        ]);
    }

    fn take(from: &[u64]) -> Draft {
        Draft {
            wide: from[0] == 1,
            id: from[1],
            scale: from[2],
            time: from[3],
            offset: from[4],
        }
    }
}

impl Block for Sums {
    const MOST: usize = 4;

    ghost MOST = { 4 };

    ghost numbers = { sums_numbers };

    ghost value = { defs.sums_of };

    ghost fits = { λ _. Prim.omega arith };

    fn put(self, to: &mut Numbers) {
        to.put(&[self.next, self.count, self.sizes, self.durations]);
    }

    fn take(from: &[u64]) -> Sums {
        Sums {
            next: from[0],
            count: from[1],
            sizes: from[2],
            durations: from[3],
        }
    }
}

impl Block for Refusal {
    const MOST: usize = 2;

    ghost MOST = { 2 };

    ghost numbers = { λ x. x.number ∷ x.place ∷ [] };

    ghost value = { defs.refusal_of };

    ghost fits = { λ _. Prim.omega arith };

    fn put(self, to: &mut Numbers) {
        to.put(&[self.number, self.place]);
    }

    fn take(from: &[u64]) -> Refusal {
        Refusal {
            number: from[0],
            place: from[1],
        }
    }
}

#[tactic(auto, using(crate::proofs::Laws::puts), unfolding(numbered::specs::Numbers::levels_numbers, numbered::specs::Blocks::of_four, basics::specs::Choose::pick))]
impl Block for Levels {
    const MOST: usize = 17;

    ghost MOST = { 17 };

    ghost numbers = { levels_numbers };

    ghost value = { defs.levels_of };

    ghost fits = { lengths.levels_length };

    fn put(self, to: &mut Numbers) {
        match self {
            Levels::One(a) => {
                to.put(&[1]);
                a.put(to);
            }
            Levels::Two(a, b) => {
                to.put(&[2]);
                a.put(to);
                b.put(to);
            }
            Levels::Three(a, b, c) => {
                to.put(&[3]);
                a.put(to);
                b.put(to);
                c.put(to);
            }
            Levels::Four(a, b, c, d) => {
                to.put(&[4]);
                a.put(to);
                b.put(to);
                c.put(to);
                d.put(to);
            }
        }
    }

    fn take(from: &[u64]) -> Levels {
        let a = Level::take(&from[1..]);
        let b = Level::take(&from[5..]);
        let c = Level::take(&from[9..]);
        let d = Level::take(&from[13..]);
        match from[0] {
            1 => Levels::One(a),
            2 => Levels::Two(a, b),
            3 => Levels::Three(a, b, c),
            _ => Levels::Four(a, b, c, d),
        }
    }
}

#[tactic(auto, using(crate::proofs::Laws::puts), unfolding(numbered::specs::Numbers::head_numbers, numbered::specs::Blocks::of_four, basics::specs::Choose::pick))]
impl Block for Head {
    const MOST: usize = 5;

    ghost MOST = { 5 };

    ghost numbers = { head_numbers };

    ghost value = { defs.head_of };

    ghost fits = { lengths.head_length };

    fn put(self, to: &mut Numbers) {
        match self {
            Head::First => to.put(&[1]),
            Head::Size { pos, more, acc } => to.put(&[2, pos, more, acc]),
            Head::Kind {
                pos,
                size,
                more,
                acc,
            } => to.put(&[3, pos, size, more, acc]),
            Head::Large {
                pos,
                kind,
                more,
                acc,
            } => to.put(&[4, pos, kind, more, acc]),
        }
    }

    fn take(from: &[u64]) -> Head {
        match from[0] {
            1 => Head::First,
            2 => Head::Size {
                pos: from[1],
                more: from[2],
                acc: from[3],
            },
            3 => Head::Kind {
                pos: from[1],
                size: from[2],
                more: from[3],
                acc: from[4],
            },
            _ => Head::Large {
                pos: from[1],
                kind: from[2],
                more: from[3],
                acc: from[4],
            },
        }
    }
}

#[tactic(auto, using(crate::proofs::Laws::puts), unfolding(numbered::specs::Numbers::index_part_number, numbered::specs::Blocks::of_five, basics::specs::Choose::pick))]
impl Block for IndexPart {
    const MOST: usize = 1;

    ghost MOST = { 1 };

    ghost numbers = { λ p. index_part_number p ∷ [] };

    ghost value = { λ ns. defs.index_part_of (defs.at ns 0) };

    ghost fits = { λ _. Prim.omega arith };

    fn put(self, to: &mut Numbers) {
        to.put(&[match self {
            IndexPart::Version => 1,
            IndexPart::Flags => 2,
            IndexPart::Id => 3,
            IndexPart::Scale => 4,
            IndexPart::Time => 5,
            IndexPart::Offset => 6,
            IndexPart::Reserved => 7,
            IndexPart::Count => 8,
        }]);
    }

    fn take(from: &[u64]) -> IndexPart {
        match from[0] {
            1 => IndexPart::Version,
            2 => IndexPart::Flags,
            3 => IndexPart::Id,
            4 => IndexPart::Scale,
            5 => IndexPart::Time,
            6 => IndexPart::Offset,
            7 => IndexPart::Reserved,
            _ => IndexPart::Count,
        }
    }
}

#[tactic(auto, using(crate::proofs::Laws::puts), unfolding(numbered::specs::Numbers::entry_part_number, numbered::specs::Blocks::of_three, basics::specs::Choose::pick))]
impl Block for EntryPart {
    const MOST: usize = 1;

    ghost MOST = { 1 };

    ghost numbers = { λ p. entry_part_number p ∷ [] };

    ghost value = { λ ns. defs.entry_part_of (defs.at ns 0) };

    ghost fits = { λ _. Prim.omega arith };

    fn put(self, to: &mut Numbers) {
        to.put(&[match self {
            EntryPart::Size => 1,
            EntryPart::Duration => 2,
            EntryPart::Sap => 3,
        }]);
    }

    fn take(from: &[u64]) -> EntryPart {
        match from[0] {
            1 => EntryPart::Size,
            2 => EntryPart::Duration,
            _ => EntryPart::Sap,
        }
    }
}

#[tactic(auto, using(crate::proofs::Laws::puts), unfolding(numbered::specs::Numbers::styp_part_number, numbered::specs::Blocks::of_three, basics::specs::Choose::pick))]
impl Block for StypPart {
    const MOST: usize = 1;

    ghost MOST = { 1 };

    ghost numbers = { λ p. styp_part_number p ∷ [] };

    ghost value = { λ ns. defs.styp_part_of (defs.at ns 0) };

    ghost fits = { λ _. Prim.omega arith };

    fn put(self, to: &mut Numbers) {
        to.put(&[match self {
            StypPart::Major => 1,
            StypPart::Minor => 2,
            StypPart::Brand => 3,
        }]);
    }

    fn take(from: &[u64]) -> StypPart {
        match from[0] {
            1 => StypPart::Major,
            2 => StypPart::Minor,
            _ => StypPart::Brand,
        }
    }
}

#[tactic(auto, using(crate::proofs::Laws::puts), unfolding(numbered::specs::Numbers::sidx_numbers, numbered::specs::Blocks::of_two, basics::specs::Choose::pick))]
impl Block for Sidx {
    const MOST: usize = 13;

    ghost MOST = { 13 };

    ghost numbers = { sidx_numbers };

    ghost value = { defs.sidx_of };

    ghost fits = { lengths.sidx_length };

    fn put(self, to: &mut Numbers) {
        match self {
            Sidx::Field {
                part,
                draft,
                more,
                acc,
            } => {
                to.put(&[1]);
                part.put(to);
                draft.put(to);
                to.put(&[more, acc]);
            }
            Sidx::Entry {
                part,
                draft,
                sums,
                more,
                acc,
            } => {
                to.put(&[2]);
                part.put(to);
                draft.put(to);
                sums.put(to);
                to.put(&[more, acc]);
            }
        }
    }

    fn take(from: &[u64]) -> Sidx {
        let draft = Draft::take(&from[2..]);
        match from[0] {
            1 => Sidx::Field {
                part: IndexPart::take(&from[1..]),
                draft,
                more: from[7],
                acc: from[8],
            },
            _ => Sidx::Entry {
                part: EntryPart::take(&from[1..]),
                draft,
                sums: Sums::take(&from[7..]),
                more: from[11],
                acc: from[12],
            },
        }
    }
}
