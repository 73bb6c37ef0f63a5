// Entries read back from the work area, and the indexes that stand open: what the stages of a reading share.
#![tactic(auto, unfolding(
// the open indexes
basics::specs::Choose::pick, state::specs::Levels::inmost, state::specs::Levels::depth, state::specs::Levels::push, crate::specs::Views::around,
// an entry that is taken
state::specs::Levels::took_entry))]

ghost use Rattle.std.specs.Prelude.{◌≡◌, ◌+◌, ◌-◌, ◌*◌, ◌<◌, ◌≤◌, length};
ghost use Rattle.segment.specs.Constants.{limit, most_entries, time_limit, type_bit};
ghost use Rattle.state.specs.Flow.{work_bytes};
ghost use Rattle.state.specs.Levels as defs;
ghost use Rattle.state.specs.Ranges.{Within, levels_bounds};
ghost use Rattle.levels.specs.Views.{around, open_of, read_of};

use fields::word_at;
use state::{ENTRY_BYTES, LEVEL_BYTES, Level, Levels, Slot, StoredEntry, TYPE_BIT};

// The entry that stands in the work area from a place on.
pub fn entry_at(work: &[u8], i: usize) -> StoredEntry
    requires { i + 12 ≤ length work.now }
    ensures { result ≡ defs.entry_at work.now i }
{
    let first = word_at(work, i);
    let duration = word_at(work, i + 4);
    let sap = word_at(work, i + 8);
    StoredEntry {
        inner: TYPE_BIT <= first,
        size: first % TYPE_BIT,
        duration,
        sap,
    }
}

// The innermost open index. `Levels` is no array with a count beside it: the definitions (`state`, specs `Levels`) and the packed state go by its four cases.
pub fn inmost(ls: Levels) -> Level
    ensures { result ≡ defs.inmost ls }
{
    match ls {
        Levels::One(a) => a,
        Levels::Two(_, b) => b,
        Levels::Three(_, _, c) => c,
        Levels::Four(_, _, _, d) => d,
    }
}

// How many indexes stand open.
pub fn depth(ls: Levels) -> u64
    ensures { result ≡ defs.depth ls }
{
    match ls {
        Levels::One(_) => 1,
        Levels::Two(..) => 2,
        Levels::Three(..) => 3,
        Levels::Four(..) => 4,
    }
}

// Where the next entry of the innermost index is stored.
fn entry_place(ls: Levels) -> u64
    requires { Within (levels_bounds ls) }
    ensures { result ≡ defs.entry_place ls }
{
    let around = depth(ls) - 1;
    let l = inmost(ls);
    LEVEL_BYTES * around + ENTRY_BYTES * l.next
}

// The next entry of the innermost index, read back.
fn next_entry(work: &[u8], ls: Levels) -> StoredEntry
    requires { (work_bytes ≤ length work.now) × Within (levels_bounds ls) × ((defs.inmost ls).next < (defs.inmost ls).count) }
    ensures { result ≡ defs.entry_at work.now (defs.entry_place ls) }
{
    let place = entry_place(ls) as usize;
    entry_at(work, place)
}

fn took(l: Level) -> Level
    requires { l.next ≤ most_entries }
    ensures { result ≡ defs.took l }
{
    Level {
        next: l.next + 1,
        ..l
    }
}

// The innermost index's next entry is taken.
pub fn took_entry(ls: Levels) -> Levels
    requires { Within (levels_bounds ls) }
    ensures { result ≡ defs.took_entry ls }
{
    match ls {
        Levels::One(a) => Levels::One(took(a)),
        Levels::Two(a, b) => Levels::Two(a, took(b)),
        Levels::Three(a, b, c) => Levels::Three(a, b, took(c)),
        Levels::Four(a, b, c, d) => Levels::Four(a, b, c, took(d)),
    }
}

// One more index stands open; on level 5 there is none.
pub fn push(ls: Levels, l: Level) -> Levels
    ensures { result ≡ defs.push ls l }
{
    match ls {
        Levels::One(a) => Levels::Two(a, l),
        Levels::Two(a, b) => Levels::Three(a, b, l),
        Levels::Three(a, b, c) => Levels::Four(a, b, c, l),
        Levels::Four(..) => ls,
    }
}

// The indexes around the innermost one.
fn around(ls: Levels) -> Option<Levels>
    ensures { result ≡ around ls }
{
    match ls {
        Levels::One(_) => None,
        Levels::Two(a, _) => Some(Levels::One(a)),
        Levels::Three(a, b, _) => Some(Levels::Two(a, b)),
        Levels::Four(a, b, c, _) => Some(Levels::Three(a, b, c)),
    }
}

// An index has no entry left.
fn passed_all(l: Level) -> bool
    ensures { result ≡ defs.passed_all l }
{
    l.next == l.count
}

// The indexes that still have an entry to come: those that have none left are closed, from the innermost on.
pub fn still_open(ls: Levels) -> Option<Levels>
    ensures { open_of result ≡ defs.still_open ls }
{
    let mut open = ls;
    while passed_all(inmost(open)) {
        open = around(open)?;
    }
    Some(open)
}

// Whether an entry read back at byte `n`, when the time line stands at `at`, cannot be what its index stored. When it ends is a sum
// that may pass a word's range, so that its duration is compared with the time that remains.
#[tactic(auto, using(crate::proofs::Sums::altered_tests), unfolding(basics::specs::Choose::pick))]
fn altered(l: Level, e: StoredEntry, at: u64, n: u64) -> bool
    requires { (l.next < l.count) × (at ≤ l.until) × (n ≤ limit) × (e.size < type_bit) }
    ensures { result ≡ defs.altered l e at n }
{
    let time = l.until - at;
    let end = n + e.size;
    if e.size == 0 || time < e.duration {
        return true;
    }
    if l.next + 1 == l.count {
        return end != l.end || e.duration != time;
    }
    l.end <= end
}

// Where an entry stands, and when it ends.
fn slot_of(e: StoredEntry, at: u64, n: u64) -> Slot
    requires { (n + e.size < time_limit) × (at + e.duration < time_limit) }
    ensures { result ≡ defs.slot_of e at n }
{
    Slot {
        pos: n,
        end: n + e.size,
        until: at + e.duration,
        sap: e.sap,
    }
}

// What an entry read back at byte `n`, when the time line stands at `at`, comes to: whether it is an index entry, and where it stands;
// none where it was altered between calls.
pub fn entry_answer(l: Level, e: StoredEntry, at: u64, n: u64) -> Option<(bool, Slot)>
    requires { (l.next < l.count) × (at ≤ l.until) × (n ≤ limit) × (e.size < type_bit) }
    ensures { result ≡ read_of l e at n }
{
    if altered(l, e, at, n) {
        return None;
    }
    Some((e.inner, slot_of(e, at, n)))
}

// The next entry of the innermost index, read back at byte `n`, when the time line stands at `at`.
pub fn read_back(work: &[u8], ls: Levels, at: u64, n: u64) -> Option<(bool, Slot)>
    requires { (work_bytes ≤ length work.now) × Within (levels_bounds ls) × ((defs.inmost ls).next < (defs.inmost ls).count) × (at ≤ (defs.inmost ls).until) × (n ≤ limit) }
    ensures { result ≡ read_of (defs.inmost ls) (defs.entry_at work.now (defs.entry_place ls)) at n }
{
    let e = next_entry(work, ls);
    entry_answer(inmost(ls), e, at, n)
}
