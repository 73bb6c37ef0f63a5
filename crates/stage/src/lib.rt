// One byte of a segment, whatever stage the reading is in.
#![tactic(auto)]

ghost use Rattle.std.specs.Prelude.{◌≡◌, List, ℕ, ◌≤◌, ◌<◌, length};
ghost use Rattle.segment.specs.Constants.{limit};
ghost use Rattle.state.specs.Flow.{work_bytes};
ghost use Rattle.table.specs.Table.{most_records};
ghost use Rattle.state.specs.declared.Stage.TheVariants as stages;
ghost use Rattle.state.specs.Ranges.{Within, opening_bounds, gap_bounds, leaf_bounds, levels_bounds, inner_bounds, stage_bounds};
ghost use Rattle.state.specs.Levels.{inmost};
ghost use Rattle.state.specs.Stages as defs;
ghost use Rattle.next_stage.specs.Views.{flowing, view_stage};

use machine::{BoxesSo, Head, Refusal};
use next_stage::{
    Running, StageStep, gap_after, inner_after, leaf_after, opening_after, record_after,
};
use state::{
    GapBoxes, InnerBox, LeafBoxes, LeafSo, Level, Levels, OpeningBoxes, Seen, Slot, Stage, Top,
};

// A byte up to the end of the top index.
fn opening_stage(
    brand: u64,
    s: OpeningBoxes,
    r: Running,
    n: u64,
    b: u8,
    work: &mut [u8],
) -> Result<StageStep, Refusal>
    requires { (n < limit) × (work_bytes ≤ length work.old) × Within (opening_bounds s) }
    ensures { (table : List ℕ) →
        view_stage r.leaves work.new table result
        ≡ defs.step_stage (stages.Opening brand s) (flowing r work.old table) n b }
{
    let q = opening::opening_byte(brand, s, n, b, work);
    opening_after(brand, r, q, n + 1)
}

// A byte of the gap.
fn gap_stage(
    top: Top,
    level: Level,
    end: u64,
    s: GapBoxes,
    r: Running,
    n: u64,
    b: u8,
) -> Result<StageStep, Refusal>
    requires { (n < limit) × Within (gap_bounds s) }
    ensures { (work table : List ℕ) →
        view_stage r.leaves work table result ≡ defs.step_stage (stages.Gap top level end s) (flowing r work table) n b }
{
    let q = opening::gap_byte(end, s, n, b);
    gap_after(top, level, end, r, q)
}

// A byte of a leaf.
fn leaf_stage(
    top: Top,
    ls: Levels,
    slot: Slot,
    s: LeafBoxes,
    r: Running,
    n: u64,
    b: u8,
    table: &mut [u64],
) -> Result<StageStep, Refusal>
    requires { (n < limit) × (r.leaves ≤ most_records) × Within (leaf_bounds s) }
    ensures { (work : List ℕ) →
        view_stage r.leaves work table.new result
        ≡ defs.step_stage (stages.Leaf top ls slot s) (flowing r work table.old) n b }
{
    let full = records::no_room(r.leaves, table.len());
    let q = leaf::leaf_byte(top.id, slot, full, s, n, b);
    record_after(r.leaves, slot, r.now, q, table);
    leaf_after(top, ls, slot, r, q)
}

// A byte of the first box of an index entry.
fn inner_stage(
    top: Top,
    ls: Levels,
    slot: Slot,
    s: InnerBox,
    r: Running,
    n: u64,
    b: u8,
    work: &mut [u8],
) -> Result<StageStep, Refusal>
    requires { (n < limit) × (work_bytes ≤ length work.old) × (r.now ≤ slot.until) × Within (inner_bounds ls s) }
    ensures { (table : List ℕ) →
        view_stage r.leaves work.new table result
        ≡ defs.step_stage (stages.Inner top ls slot s) (flowing r work.old table) n b }
{
    let around = levels::depth(ls);
    let q = inner::inner_byte(top, slot, around, s, r.now, n, b, work);
    inner_after(top, ls, slot, r, q)
}

// The first byte of an entry whose place is known: an inner index, or a leaf.
fn slot_byte(
    top: Top,
    ls: Levels,
    inner: bool,
    slot: Slot,
    r: Running,
    n: u64,
    b: u8,
    work: &mut [u8],
    table: &mut [u64],
) -> Result<StageStep, Refusal>
    requires { (n < limit) × (work_bytes ≤ length work.old) × (r.leaves ≤ most_records) × (r.now ≤ slot.until) }
    ensures { view_stage r.leaves work.new table.new result
        ≡ defs.step_slot top ls inner slot (flowing r work.old table.old) n b }
{
    if inner {
        return inner_stage(top, ls, slot, InnerBox::Head(Head::First), r, n, b, work);
    }
    let seen = Seen {
        any: false,
        first: 0,
        last: r.last,
    };
    let so = LeafSo { moof: false, seen };
    leaf_stage(
        top,
        ls,
        slot,
        BoxesSo::Head(so, Head::First),
        r,
        n,
        b,
        table,
    )
}

// The first byte of an entry, which is read back from the work area: what it says must be what its index stored.
fn entry_stage(
    top: Top,
    ls: Levels,
    r: Running,
    n: u64,
    b: u8,
    work: &mut [u8],
    table: &mut [u64],
) -> Result<StageStep, Refusal>
    requires { (n < limit) × (work_bytes ≤ length work.old) × (r.leaves ≤ most_records) × Within (levels_bounds ls) × ((inmost ls).next < (inmost ls).count)
        × (r.now ≤ (inmost ls).until) }
    ensures { view_stage r.leaves work.new table.new result
        ≡ defs.step_stage (stages.Entry top ls) (flowing r work.old table.old) n b }
{
    let Some((inner, slot)) = levels::read_back(work, ls, r.now, n) else {
        return Err(Refusal {
            number: 12,
            place: n,
        });
    };
    let taken = levels::took_entry(ls);
    slot_byte(top, taken, inner, slot, r, n, b, work, table)
}

// A byte of the segment; `n` bytes came before it.
pub fn stage_byte(
    s: Stage,
    r: Running,
    n: u64,
    b: u8,
    work: &mut [u8],
    table: &mut [u64],
) -> Result<StageStep, Refusal>
    requires { (n < limit) × (work_bytes ≤ length work.old) × (r.leaves ≤ most_records) × Within (stage_bounds s r.now) }
    ensures { view_stage r.leaves work.new table.new result
        ≡ defs.step_stage s (flowing r work.old table.old) n b }
{
    match s {
        Stage::Opening { brand, boxes } => opening_stage(brand, boxes, r, n, b, work),
        Stage::Gap {
            top,
            level,
            end,
            boxes,
        } => gap_stage(top, level, end, boxes, r, n, b),
        Stage::Entry { top, levels } => entry_stage(top, levels, r, n, b, work, table),
        Stage::Leaf {
            top,
            levels,
            slot,
            boxes,
        } => leaf_stage(top, levels, slot, boxes, r, n, b, table),
        Stage::Inner {
            top,
            levels,
            slot,
            first,
        } => inner_stage(top, levels, slot, first, r, n, b, work),
    }
}
