// What follows a byte in the opening, in the gap, in a leaf and in the first box of an index entry: the stage that the reading is in next.
#![tactic(auto)]

ghost use Rattle.std.specs.Prelude.{◌≡◌, List, ℕ, ◌≤◌, Ok};
ghost use Rattle.table.specs.Table.{most_records};
ghost use Rattle.state.specs.Stages as defs;
ghost use Rattle.state.specs.Views.{view, view_as};
ghost use Rattle.inner.specs.Views.{view_inner};
ghost use Rattle.next_stage.specs.Views.{flowing, view_stage};
ghost use Rattle.next_stage.specs.Arms.{lift_opening, Ends, EndsIn, lift_gap, RoomFor, table_after};

use machine::{Head, Refusal, Step};
use state::{
    GapBoxes, IndexRead, InnerBox, LeafBoxes, Level, Levels, OpeningBoxes, Seen, Slot, Stage, Top,
};
use table::Record;

// The numbers that flow through a reading: leaves listed, when the next entry starts, the last decode time.
#[derive(Clone, Copy)]
pub struct Running {
    pub leaves: u64,
    pub now: u64,
    pub last: u64,
}

// What a byte that is taken makes of a stage: it goes on, or the material ends; with the numbers that flow on.
pub type StageStep = Step<(Stage, Running), (Top, Running)>;

// What follows a leaf, an index or the gap: the indexes that still have an entry to come, or the end of the material.
#[tactic(auto, unfolding(state::specs::Stages::onward))]
fn follow(top: Top, ls: Levels, r: Running) -> StageStep
    ensures { (leaves : ℕ) (work table : List ℕ) → view_stage leaves work table (Ok result) ≡ defs.follow top ls (flowing r work table) }
{
    match levels::still_open(ls) {
        Some(levels) => Step::Going((Stage::Entry { top, levels }, r)),
        None => Step::Done((top, r)),
    }
}

// The top index ends at byte `n`: the gap follows, or the material.
fn index_ends(x: IndexRead, r: Running, n: u64) -> StageStep
    requires { Ends n x }
    ensures { (leaves : ℕ) (work table : List ℕ) → view_stage leaves work table (Ok result) ≡ defs.index_ends x (flowing r work table) n }
{
    let top = Top {
        id: x.id,
        scale: x.scale,
        start: x.time,
        durations: x.durations,
    };
    let start = n + x.offset;
    let level = Level {
        next: 0,
        count: x.count,
        end: start + x.sizes,
        until: x.time + x.durations,
    };
    let begun = Running {
        leaves: r.leaves,
        now: x.time,
        last: r.last,
    };
    if x.offset == 0 {
        return follow(top, Levels::One(level), begun);
    }
    let boxes = GapBoxes::Head(Head::First);
    let gap = Stage::Gap {
        top,
        level,
        end: start,
        boxes,
    };
    Step::Going((gap, begun))
}

// What the boxes up to the top index answer, with `n` bytes up to the one at hand.
#[tactic(auto, unfolding(machine::specs::Run::lift))]
pub fn opening_after(
    brand: u64,
    r: Running,
    q: Result<Step<OpeningBoxes, IndexRead>, Refusal>,
    n: u64,
) -> Result<StageStep, Refusal>
    requires { EndsIn n q }
    ensures { (work table : List ℕ) → view_stage r.leaves work table result ≡ lift_opening brand n (view (flowing r work table) q) }
{
    match q? {
        Step::Going(boxes) => Ok(Step::Going((Stage::Opening { brand, boxes }, r))),
        Step::Done(x) => Ok(index_ends(x, r, n)),
    }
}

// What the gap answers.
#[tactic(auto, unfolding(machine::specs::Run::lift))]
pub fn gap_after(
    top: Top,
    level: Level,
    end: u64,
    r: Running,
    q: Result<Step<GapBoxes, ()>, Refusal>,
) -> Result<StageStep, Refusal>
    ensures { (work table : List ℕ) → view_stage r.leaves work table result ≡ lift_gap top level end (view (flowing r work table) q) }
{
    match q? {
        Step::Going(boxes) => {
            let gap = Stage::Gap {
                top,
                level,
                end,
                boxes,
            };
            Ok(Step::Going((gap, r)))
        }
        Step::Done(()) => Ok(follow(top, Levels::One(level), r)),
    }
}

// The record of a leaf in its slot that starts at `at`, with its first decode time.
fn leaf_record(slot: Slot, at: u64, first: u64) -> Record
    ensures { result ≡ defs.leaf_record slot at first }
{
    Record {
        position: slot.pos,
        size: slot.end.saturating_sub(slot.pos),
        start: at,
        duration: slot.until.saturating_sub(at),
        sap: slot.sap,
        time: first,
    }
}

// The record of a leaf that is done.
#[tactic(auto, unfolding(crate::specs::Arms::table_after))]
pub fn record_after(
    leaves: u64,
    slot: Slot,
    at: u64,
    q: Result<Step<LeafBoxes, Seen>, Refusal>,
    table: &mut [u64],
)
    requires { RoomFor leaves q table.old }
    ensures { table.new ≡ table_after leaves slot at q table.old }
{
    if let Ok(Step::Done(seen)) = q {
        records::put_record(table, leaves, leaf_record(slot, at, seen.first));
    }
}

// What a leaf answers: where it is done, it is listed, and the time line goes on to its end.
#[tactic(auto, unfolding(machine::specs::Run::lift, crate::specs::Arms::table_after, state::specs::Flow::listed))]
pub fn leaf_after(
    top: Top,
    levels: Levels,
    slot: Slot,
    r: Running,
    q: Result<Step<LeafBoxes, Seen>, Refusal>,
) -> Result<StageStep, Refusal>
    requires { r.leaves ≤ most_records }
    ensures { (work table : List ℕ) →
        view_stage r.leaves work (table_after r.leaves slot r.now q table) result
        ≡ defs.lift_leaf top levels slot (view (flowing r work table) q) }
{
    match q? {
        Step::Going(boxes) => {
            let leaf = Stage::Leaf {
                top,
                levels,
                slot,
                boxes,
            };
            Ok(Step::Going((leaf, r)))
        }
        Step::Done(seen) => {
            let listed = Running {
                leaves: r.leaves + 1,
                now: slot.until,
                last: seen.last,
            };
            Ok(follow(top, levels, listed))
        }
    }
}

// What the first box of an index entry answers: after an inner index its entries follow.
#[tactic(auto, using(crate::proofs::Laws::wrap_box), unfolding(machine::specs::Run::lift))]
pub fn inner_after(
    top: Top,
    levels: Levels,
    slot: Slot,
    r: Running,
    q: Result<Step<InnerBox, IndexRead>, Refusal>,
) -> Result<StageStep, Refusal>
    ensures { (work table : List ℕ) → view_stage r.leaves work table result ≡ defs.lift_inner top levels slot (view_inner (flowing r work table) q) }
{
    match q? {
        Step::Going(first) => {
            let inner = Stage::Inner {
                top,
                levels,
                slot,
                first,
            };
            Ok(Step::Going((inner, r)))
        }
        Step::Done(x) => {
            let level = Level {
                next: 0,
                count: x.count,
                end: slot.end,
                until: slot.until,
            };
            Ok(follow(top, levels::push(levels, level), r))
        }
    }
}
