// The blocks of a stage and of the state.
ghost use Rattle.std.specs.Prelude.{[], ◌∷◌, ◌≡◌, ◌++◌, ◌+◌, ◌≤◌, length};
ghost use Rattle.std.proofs.Common.{arith};
ghost use Rattle.numbered.specs.Numbers.{nested_numbers, stage_numbers, used_numbers};
ghost use Rattle.numbered.specs.Blocks as defs;
ghost use Rattle.numbered.proofs.Lengths as lengths;

use crate::block::{Block, Numbers, put_padded};
use machine::Refusal;
use state::{GapBoxes, InnerBox, LeafBoxes, Level, Levels, OpeningBoxes, Slot, Stage, State, Top};

#[tactic(auto, using(crate::proofs::Laws::puts), unfolding(numbered::specs::Numbers::stage_numbers, numbered::specs::Blocks::of_three, basics::specs::Choose::pick))]
impl Block for Stage {
    const MOST: usize = 52;

    ghost MOST = { 52 };

    ghost numbers = { stage_numbers };

    ghost value = { defs.stage_of };

    ghost fits = { lengths.stage_length };

    fn put(self, to: &mut Numbers) {
        match self {
            Stage::Opening { brand, boxes } => {
                to.put(&[1, brand]);
                boxes.put(to);
            }
            Stage::Gap {
                top,
                level,
                end,
                boxes,
            } => {
                to.put(&[2]);
                top.put(to);
                level.put(to);
                to.put(&[end]);
                boxes.put(to);
            }
            Stage::Entry { top, levels } => put_nested(3, top, levels, to),
            Stage::Leaf {
                top,
                levels,
                slot,
                boxes,
            } => {
                put_nested(4, top, levels, to);
                slot.put(to);
                boxes.put(to);
            }
            Stage::Inner {
                top,
                levels,
                slot,
                first,
            } => {
                put_nested(5, top, levels, to);
                slot.put(to);
                first.put(to);
            }
        }
    }

    fn take(from: &[u64]) -> Stage {
        match from[0] {
            1 => Stage::Opening {
                brand: from[1],
                boxes: OpeningBoxes::take(&from[2..]),
            },
            2 => Stage::Gap {
                top: Top::take(&from[1..]),
                level: Level::take(&from[5..]),
                end: from[9],
                boxes: GapBoxes::take(&from[10..]),
            },
            _ => nested_stage(from),
        }
    }
}

// A tag and what all stages after the gap hold.
#[tactic(auto, using(crate::proofs::Laws::puts))]
fn put_nested(tag: u64, top: Top, levels: Levels, to: &mut Numbers)
    requires { length to.old + 22 ≤ 57 }
    ensures numbers { to.new ≡ to.old ++ (tag ∷ nested_numbers top levels) }
    ensures long { length to.new ≡ length to.old + 22 }
{
    to.put(&[tag]);
    top.put(to);
    put_padded(levels, to);
}

fn nested_stage(from: &[u64]) -> Stage
    requires { 52 ≤ length from.now }
    ensures { result ≡ defs.nested_stage_of from.now }
{
    let top = Top::take(&from[1..]);
    let levels = Levels::take(&from[5..]);
    let slot = Slot::take(&from[22..]);
    match from[0] {
        3 => Stage::Entry { top, levels },
        4 => Stage::Leaf {
            top,
            levels,
            slot,
            boxes: LeafBoxes::take(&from[26..]),
        },
        _ => Stage::Inner {
            top,
            levels,
            slot,
            first: InnerBox::take(&from[26..]),
        },
    }
}

#[tactic(auto, using(crate::proofs::Laws::puts), unfolding(numbered::specs::Numbers::used_numbers, numbered::specs::Blocks::of_four, basics::specs::Choose::pick))]
impl Block for State {
    const MOST: usize = 57;

    ghost MOST = { 57 };

    ghost numbers = { used_numbers };

    ghost value = { defs.state_of };

    ghost fits = { lengths.used_length };

    fn put(self, to: &mut Numbers) {
        match self {
            State::Reading {
                count,
                leaves,
                now,
                last,
                stage,
            } => {
                to.put(&[1, count, leaves, now, last]);
                stage.put(to);
            }
            State::Ended { count, leaves, top } => {
                to.put(&[2, count, leaves]);
                top.put(to);
            }
            State::Refused {
                count,
                leaves,
                refusal,
            } => {
                to.put(&[3, count, leaves]);
                refusal.put(to);
            }
            State::Accepted { count, leaves, top } => {
                to.put(&[4, count, leaves]);
                top.put(to);
            }
        }
    }

    fn take(from: &[u64]) -> State {
        let count = from[1];
        let leaves = from[2];
        match from[0] {
            1 => State::Reading {
                count,
                leaves,
                now: from[3],
                last: from[4],
                stage: Stage::take(&from[5..]),
            },
            2 => State::Ended {
                count,
                leaves,
                top: Top::take(&from[3..]),
            },
            3 => State::Refused {
                count,
                leaves,
                refusal: Refusal::take(&from[3..]),
            },
            _ => State::Accepted {
                count,
                leaves,
                top: Top::take(&from[3..]),
            },
        }
    }
}
