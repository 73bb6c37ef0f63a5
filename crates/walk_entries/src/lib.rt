// The entries of an index and all that they cover, level by level: a leaf, or an inner index and its entries. The bytes lent stand at the
// place `base` of the segment; places count from the segment's first byte.
#![tactic(auto)]

ghost use Rattle.std.specs.Prelude.{◌≡◌, true, false, List, ℕ, ◌+◌, ◌-◌, ◌*◌, ◌≤◌, ◌<◌, length};
ghost use Rattle.segment.specs.Constants.{limit, most_entries};
ghost use Rattle.state.specs.Flow.{work_bytes, level_bytes};
ghost use Rattle.state.specs.Levels as defs;
ghost use Rattle.levels.specs.Views.{read_of};
ghost use Rattle.segment.specs.Constants.{entry_bytes};
ghost use Rattle.descent.specs.Whole.{UnderD, slot_d, entry_part_d};
ghost use Rattle.walk_entries.specs.Views.{HaltLow, placed_of, Asks, SlotAsks, Heads};
ghost use Rattle.walk_entries.specs.Views.{Carried, depth_at, below_d, entries_d, inner_body_at, reading_at};

use fields::{Halt, Stop, stop_at};
use flaws::{inner_kind_flaw, top_flaw};
use index::Where;
use levels::{entry_answer, entry_at};
use machine::Header;
use reader::quick_head;
use records::{no_room, put_record};
use state::{ENTRY_BYTES, LEVEL_BYTES, Level, Slot, Top};
use table::Record;
use walk_index::index_walk;
use walk_leaf::{full_leaf, leaf_walk};

// The most levels of indexes, with the top one.
const LEVELS: u64 = 4;

// How far a walk has come: the place, the time, the leaves listed and the last decode time of the reference track in them.
#[derive(Clone, Copy)]
pub struct Reached {
    pub n: u64,
    pub now: u64,
    pub leaves: u64,
    pub last: u64,
}

// Why entries lead no further: the bytes end after so many leaves, or a fault shows.
#[derive(Clone, Copy)]
pub enum Broken {
    Ended(u64),
    Bad(Stop),
}

// Why a header, a leaf or an index was not read, at its place in the segment, after so many leaves.
// Its three callers take a `match`, not `map_err` with `?` (tried, in `leaf_entry`): the proof did not close, since the contract inferred for
// a closure around this call does not give its answer as an equation.
fn placed(base: u64, leaves: u64, x: Halt) -> Broken
    requires { (base ≤ limit) × HaltLow x }
    ensures { result ≡ placed_of base leaves x }
{
    match x {
        Halt::Ended => Broken::Ended(leaves),
        Halt::Bad(x) => Broken::Bad(Stop {
            number: x.number,
            place: base + x.place,
            count: base + x.count,
            leaves,
        }),
    }
}

// The next entry of an index, read back from its level's part of the work area.
fn read_back(work: &[u8], left: u64, l: Level, so: Reached) -> Option<(bool, Slot)>
    requires { (1 ≤ left) × (left ≤ 4) × (l.next < l.count) × (l.count ≤ most_entries) × (so.now ≤ l.until) × (so.n ≤ limit) × (work_bytes ≤ length work.now) }
    ensures { result ≡ read_of l (defs.entry_at work.now (level_bytes * (depth_at left - 1) + entry_bytes * l.next)) so.now so.n }
{
    let i = (LEVEL_BYTES * (LEVELS - left) + ENTRY_BYTES * l.next) as usize;
    entry_answer(l, entry_at(work, i), so.now, so.n)
}

// A leaf entry: its boxes, and its record.
fn leaf_entry(
    id: u64,
    slot: Slot,
    bytes: &[u8],
    base: u64,
    so: Reached,
    table: &mut [u64],
) -> Result<Reached, Broken>
    requires { SlotAsks base bytes.now slot so }
    ensures { (top : Top) (depth : ℕ) (inner : UnderD) (work : List ℕ) → top.id ≡ id →
        Carried base bytes.now slot.end slot.until work table.old work table.new result
        (reading_at (slot_d inner top depth false slot) base bytes.now so work table.old) }
{
    let at = (slot.pos - base) as usize;
    let end = (slot.end - base) as usize;
    if no_room(so.leaves, table.len()) {
        return Err(placed(base, so.leaves, full_leaf(bytes, at, end)));
    }
    match leaf_walk(id, bytes, at, end, so.last) {
        Err(x) => Err(placed(base, so.leaves, x)),
        Ok(seen) => {
            put_record(
                table,
                so.leaves,
                Record {
                    position: slot.pos,
                    size: slot.end - slot.pos,
                    start: so.now,
                    duration: slot.until - so.now,
                    sap: slot.sap,
                    time: seen.first,
                },
            );
            Ok(Reached {
                n: slot.end,
                now: slot.until,
                leaves: so.leaves + 1,
                last: seen.last,
            })
        }
    }
}

// The body of an inner index, which fills its entry, and, with one level less, all that it indexes.
#[cycle(entry_walk_inner_body_inner_entry_under)]
fn inner_body(
    left: u64,
    top: Top,
    slot: Slot,
    h: Header,
    bytes: &[u8],
    base: u64,
    so: Reached,
    work: &mut [u8],
    table: &mut [u64],
) -> Result<Reached, Broken>
    requires { SlotAsks base bytes.now slot so × (2 ≤ left) × (left ≤ 4) × (work_bytes ≤ length work.old) × Heads base bytes.now slot h }
    ensures { Carried base bytes.now slot.end slot.until work.old table.old work.new table.new result
        (inner_body_at left top slot base bytes.now h so work.old table.old) }
{
    let end = (h.pos + h.size) as usize;
    let index = index_walk(
        Where::Under(top, slot, 5 - left),
        so.now,
        bytes,
        base,
        h.pos as usize,
        (h.pos + h.head) as usize,
        end,
        work,
    );
    match index {
        Err(x) => Err(placed(base, so.leaves, x)),
        Ok(x) => {
            let inside = Reached {
                n: base + (end as u64),
                now: so.now,
                leaves: so.leaves,
                last: so.last,
            };
            let l = Level {
                next: 0,
                count: x.count,
                end: slot.end,
                until: slot.until,
            };
            under(left - 1, top, l, bytes, base, inside, work, table)
        }
    }
}

// An index entry: its first box is an inner index.
#[cycle(entry_walk_inner_body_inner_entry_under)]
fn inner_entry(
    left: u64,
    top: Top,
    slot: Slot,
    bytes: &[u8],
    base: u64,
    so: Reached,
    work: &mut [u8],
    table: &mut [u64],
) -> Result<Reached, Broken>
    requires { SlotAsks base bytes.now slot so × (1 ≤ left) × (left ≤ 4) × (work_bytes ≤ length work.old) }
    ensures { Carried base bytes.now slot.end slot.until work.old table.old work.new table.new result
        (reading_at (slot_d (below_d left top) top (depth_at left) true slot) base bytes.now so work.old table.old) }
{
    let at = (slot.pos - base) as usize;
    let end = (slot.end - base) as usize;
    match quick_head(bytes, at, end) {
        Err(x) => Err(placed(base, so.leaves, x)),
        Ok(h) => match top_flaw(h, inner_kind_flaw(5 - left, h.kind)) {
            Some(flaw) => {
                let stop = stop_at(flaw, at, at + (h.head as usize));
                Err(placed(base, so.leaves, Halt::Bad(stop)))
            }
            None => inner_body(left, top, slot, h, bytes, base, so, work, table),
        },
    }
}

// One entry: it is read back when its first byte is there.
#[cycle(entry_walk_inner_body_inner_entry_under)]
fn entry_walk(
    left: u64,
    top: Top,
    l: Level,
    bytes: &[u8],
    base: u64,
    so: Reached,
    work: &mut [u8],
    table: &mut [u64],
) -> Result<Reached, Broken>
    requires { Asks left l base bytes.now work.old so × (l.next < l.count) }
    ensures { Carried base bytes.now l.end l.until work.old table.old work.new table.new result
        (reading_at (entry_part_d (below_d left top) top (depth_at left) l) base bytes.now so work.old table.old) }
{
    if so.n == base + (bytes.len() as u64) {
        return Err(Broken::Ended(so.leaves));
    }
    let Some((inner, slot)) = read_back(work, left, l, so) else {
        return Err(Broken::Bad(Stop {
            number: 12,
            place: so.n,
            count: so.n + 1,
            leaves: so.leaves,
        }));
    };
    if inner {
        return inner_entry(left, top, slot, bytes, base, so, work, table);
    }
    leaf_entry(top.id, slot, bytes, base, so, table)
}

// The entries of an index that are to come, with so many levels left, its own among them.
#[cycle(entry_walk_inner_body_inner_entry_under)]
pub fn under(
    left: u64,
    top: Top,
    level: Level,
    bytes: &[u8],
    base: u64,
    from: Reached,
    work: &mut [u8],
    table: &mut [u64],
) -> Result<Reached, Broken>
    requires { Asks left level base bytes.now work.old from }
    ensures { Carried base bytes.now level.end level.until work.old table.old work.new table.new result
        (reading_at (entries_d left top level) base bytes.now from work.old table.old) }
{
    let mut l = level;
    let mut so = from;
    while l.next < l.count {
        so = entry_walk(left, top, l, bytes, base, so, work, table)?;
        l.next += 1;
    }
    Ok(so)
}
