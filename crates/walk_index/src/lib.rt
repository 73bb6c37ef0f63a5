// An index box by structure, the top one or an inner one: its numbers, then its entries, each byte of which is stored as read.
// Positions count from the first byte lent, which stands at the place `base` of the segment.
#![tactic(auto)]

ghost use Rattle.std.specs.Prelude.{◌≡◌, Bool, ◌&&◌, not, ℕ, suc, ◌+◌, ◌-◌, ◌%◌, ◌<◌, ◌≤◌, eqb, leb, length, take, drop, Err};
ghost use Rattle.basics.specs.Put.{put_all};
ghost use Rattle.segment.specs.Constants.{limit, type_bit, entry_bytes};
ghost use Rattle.machine.specs.Run.{field_d, plain};
ghost use Rattle.state.specs.Flow.{Flow, left, work_bytes};
ghost use Rattle.state.specs.Sidx.{Place, wide_more};
ghost use Rattle.index.specs.Views.{place_of, Shallow, Timely};
ghost use Rattle.descent.specs.Sidx.{reserved_d, time_d, flags_d, sidx_d};
ghost use Rattle.fields.specs.Answers.{number_at};
ghost use Rattle.fields.specs.Onward.{from};
ghost use Rattle.walk_index.specs.Parts.{span_at, wanted_of, draft, fields_d, FieldsFixed, word_bytes, EntryWalked, PartWalked, AddedWalked};
ghost use Rattle.walk_index.specs.Views.{IndexWalked};

use fields::{Halt, stop_at, word_at};
use index::{Where, no_count, sums_flaw, too_short};
use reader::{read_field, read_sized};
use state::{ENTRY_BYTES, IndexRead, LEVEL_BYTES, TYPE_BIT};

// What is read of an index before its entries, and the position where these start.
#[derive(Clone, Copy)]
struct Fields {
    pub id: u64,
    pub scale: u64,
    pub time: u64,
    pub offset: u64,
    pub count: u64,
    pub from: u64,
}

// The sums of an index's entries.
#[derive(Clone, Copy)]
struct Added {
    pub sizes: u64,
    pub durations: u64,
}

// What the numbers of an index have to be: whether it is an inner one, its parent's reference ID and timescale; and its level's part of
// the work area. No `Option` for `id` and `scale`: `differs` tests four numbers alike where `inner` holds, and the start time and the
// first offset that it wants are not the parent's.
#[derive(Clone, Copy)]
struct Wanted {
    pub inner: bool,
    pub id: u64,
    pub scale: u64,
    pub part: u64,
}

// What an index has to be where it stands.
fn wanted_at(p: Where) -> Wanted
    requires { Shallow p }
    ensures { result ≡ wanted_of (place_of p) }
{
    match p {
        Where::Topmost => Wanted {
            inner: false,
            id: 0,
            scale: 0,
            part: 0,
        },
        Where::Under(top, _, depth) => Wanted {
            inner: true,
            id: top.id,
            scale: top.scale,
            part: LEVEL_BYTES * depth,
        },
    }
}

// Whether a number of an inner index is not the one that it has to be; that of the top index may be any.
fn differs(inner: bool, v: u64, want: u64) -> bool
    ensures { result ≡ (inner && not (eqb v want)) }
{
    inner && v != want
}

// The count, which the entries follow up to the end of the box.
fn read_count(
    id: u64,
    scale: u64,
    time: u64,
    offset: u64,
    bytes: &[u8],
    pos: usize,
    at: usize,
    end: usize,
) -> Result<Fields, Halt>
    requires { (at ≤ end + 30) × (end ≤ limit) × (pos ≤ end) }
    ensures { ((p : Place) (wide : Bool) (base : ℕ) (f : Flow) (a : ℕ) → a + 2 ≡ at → a ≤ length bytes.now →
        fields_d p (span_at base pos end) wide base bytes.now f result
        ≡ from left base bytes.now f (field_d left plain (reserved_d p (span_at base pos end) (draft wide id scale time offset)) 2 0) a)
        × FieldsFixed bytes.now end result }
{
    let (count, next) = read_field(bytes, at, 2).ok_or(Halt::Ended)?;
    if end as u64 != (next as u64) + ENTRY_BYTES * count {
        return Err(Halt::Bad(stop_at(6, pos, next)));
    }
    if no_count(count) {
        return Err(Halt::Bad(stop_at(11, pos, next)));
    }
    Ok(Fields {
        id,
        scale,
        time,
        offset,
        count,
        from: next as u64,
    })
}

// Start time and first offset. An inner index starts at the time `when`, and its first offset is 0.
fn read_times(
    id: u64,
    scale: u64,
    inner: bool,
    when: u64,
    big: bool,
    bytes: &[u8],
    pos: usize,
    at: usize,
    end: usize,
) -> Result<Fields, Halt>
    requires { (at ≤ end + 12) × (end ≤ limit) × (pos ≤ end) × (at ≤ length bytes.now) }
    ensures { ((p : Place) (base : ℕ) (f : Flow) → (wanted_of p).inner ≡ inner → f.now ≡ when →
        fields_d p (span_at base pos end) big base bytes.now f result
        ≡ from left base bytes.now f (field_d left plain (time_d p (span_at base pos end) (draft big id scale 0 0)) (suc (wide_more big)) 0) at)
        × FieldsFixed bytes.now end result }
{
    let (time, next) = read_sized(big, bytes, at).ok_or(Halt::Ended)?;
    if differs(inner, time, when) {
        return Err(Halt::Bad(stop_at(12, pos, next)));
    }
    let (offset, last) = read_sized(big, bytes, next).ok_or(Halt::Ended)?;
    if differs(inner, offset, 0) {
        return Err(Halt::Bad(stop_at(12, pos, last)));
    }
    read_count(id, scale, time, offset, bytes, pos, last + 2, end)
}

// Reference ID and timescale.
fn read_ids(
    w: Wanted,
    when: u64,
    big: bool,
    bytes: &[u8],
    pos: usize,
    at: usize,
    end: usize,
) -> Result<Fields, Halt>
    requires { (at ≤ end + 4) × (end ≤ limit) × (pos ≤ end) }
    ensures { ((p : Place) (base : ℕ) (f : Flow) (a : ℕ) → wanted_of p ≡ w → f.now ≡ when → a + 3 ≡ at → a ≤ length bytes.now →
        fields_d p (span_at base pos end) big base bytes.now f result
        ≡ from left base bytes.now f (field_d left plain (flags_d p (span_at base pos end) (draft big 0 0 0 0)) 3 0) a)
        × FieldsFixed bytes.now end result }
{
    let (id, next) = read_field(bytes, at, 4).ok_or(Halt::Ended)?;
    if differs(w.inner, id, w.id) {
        return Err(Halt::Bad(stop_at(12, pos, next)));
    }
    let (scale, last) = read_field(bytes, next, 4).ok_or(Halt::Ended)?;
    if scale == 0 {
        return Err(Halt::Bad(stop_at(11, pos, last)));
    }
    if differs(w.inner, scale, w.scale) {
        return Err(Halt::Bad(stop_at(12, pos, last)));
    }
    read_times(id, scale, w.inner, when, big, bytes, pos, last, end)
}

// The numbers of the index at `pos` before its entries, from `at` on.
fn read_fields(
    w: Wanted,
    when: u64,
    bytes: &[u8],
    pos: usize,
    at: usize,
    end: usize,
) -> Result<Fields, Halt>
    requires { (pos ≤ at) × (at ≤ end) × (end ≤ limit) × (at ≤ length bytes.now) }
    ensures { ((p : Place) (base : ℕ) (f : Flow) → wanted_of p ≡ w → f.now ≡ when →
        fields_d p (span_at base pos end) (eqb (number_at 1 bytes.now at) 1) base bytes.now f result
        ≡ from left base bytes.now f (sidx_d p (span_at base pos end)) at)
        × FieldsFixed bytes.now end result }
{
    let (version, next) = read_field(bytes, at, 1).ok_or(Halt::Ended)?;
    if too_short(end as u64, version, next as u64) {
        return Err(Halt::Bad(stop_at(6, pos, next)));
    }
    if 1 < version {
        return Err(Halt::Bad(stop_at(10, pos, next)));
    }
    read_ids(w, when, version == 1, bytes, pos, next + 3, end)
}

// A word's four bytes, stored.
fn store_word(work: &mut [u8], i: usize, v: u64)
    requires { i + 4 ≤ length work.old }
    ensures { work.new ≡ put_all work.old i (word_bytes v) }
{
    work[i] = (v / 16777216 % 256) as u8;
    work[i + 1] = (v / 65536 % 256) as u8;
    work[i + 2] = (v / 256 % 256) as u8;
    work[i + 3] = (v % 256) as u8;
}

// Four bytes, stored as read. As a word, so that they are loaded and stored at once.
fn copy_word(work: &mut [u8], i: usize, bytes: &[u8], j: usize)
    requires { (i + 4 ≤ length work.old) × (j + 4 ≤ length bytes.now) }
    ensures { work.new ≡ put_all work.old i (take 4 (drop j bytes.now)) }
{
    store_word(work, i, word_at(bytes, j));
}

// Eight bytes, stored as read: both words are loaded first, so that all are loaded and stored at once.
fn copy_two(work: &mut [u8], i: usize, bytes: &[u8], j: usize)
    requires { (i + 8 ≤ length work.old) × (j + 8 ≤ length bytes.now) }
    ensures { work.new
        ≡ put_all (put_all work.old i (take 4 (drop j bytes.now))) (i + 4) (take 4 (drop (j + 4) bytes.now)) }
{
    let v = word_at(bytes, j);
    let w = word_at(bytes, j + 4);
    store_word(work, i, v);
    store_word(work, i + 4, w);
}

// The bytes that there are, stored as read. No `copy_from_slice`: it would call memmove, which the library's users need not have.
fn store_rest(work: &mut [u8], i: usize, bytes: &[u8], j: usize)
    requires { (j ≤ length bytes.now) × (i + length bytes.now ≤ length work.old + j) }
    ensures { work.new ≡ put_all work.old i (drop j bytes.now) }
{
    for (k, &b) in bytes[j..].iter().enumerate() {
        work[i + k] = b;
    }
}

// Whether an entry whose first word is there has size 0.
fn no_size(bytes: &[u8], j: usize) -> bool
    requires { j ≤ limit }
    ensures { result ≡ (leb (j + 4) (length bytes.now) && eqb (number_at 4 bytes.now j % type_bit) 0) }
{
    j + 4 <= bytes.len() && word_at(bytes, j) % TYPE_BIT == 0
}

// An entry that is not whole: its size is 0, or the bytes end; what there is of it is stored.
fn part_entry(work: &mut [u8], i: usize, bytes: &[u8], pos: usize, j: usize) -> Halt
    requires { (j ≤ length bytes.now) × (length bytes.now < j + 12) × (j ≤ limit) × (i + 12 ≤ length work.old) }
    ensures { (end : ℕ) → j + 12 ≤ end → pos ≤ end → PartWalked bytes.now pos i j end work.old work.new (Err result) }
{
    if no_size(bytes, j) {
        copy_word(work, i, bytes, j);
        return Halt::Bad(stop_at(11, pos, j + 4));
    }
    store_rest(work, i, bytes, j);
    Halt::Ended
}

// An entry whose twelve bytes are there: its size and its duration, or none where its size is 0. Its words are read again after they were stored: so each is loaded and stored at once.
fn read_entry(work: &mut [u8], i: usize, bytes: &[u8], j: usize) -> Option<(u64, u64)>
    requires { (i + 12 ≤ length work.old) × (j + 12 ≤ length bytes.now) }
    ensures { EntryWalked bytes.now i j work.old work.new result }
{
    copy_word(work, i, bytes, j);
    let word = word_at(bytes, j);
    if word == 0 || word == TYPE_BIT {
        return None;
    }
    copy_two(work, i + 4, bytes, j + 4);
    Some((word % TYPE_BIT, word_at(bytes, j + 4)))
}

// The entries from `from` to `end`, each byte stored as read, from `part` on in the work area.
fn read_entries(
    bytes: &[u8],
    pos: usize,
    from: usize,
    end: usize,
    work: &mut [u8],
    part: usize,
) -> Result<Added, Halt>
    requires { (from ≤ end) × ((end - from) % entry_bytes ≡ 0) × (end ≤ limit) × (pos ≤ end) × (from ≤ length bytes.now) × (part + (end - from) ≤ length work.old) }
    ensures { AddedWalked bytes.now pos from end part work.old work.new result }
{
    let mut sizes: u64 = 0;
    let mut durations: u64 = 0;
    let mut i = part;
    let mut j = from;
    let have = end.min(bytes.len());
    while j + 12 <= have {
        let taken = read_entry(work, i, bytes, j);
        let Some((size, duration)) = taken else {
            return Err(Halt::Bad(stop_at(11, pos, j + 4)));
        };
        sizes += size;
        durations += duration;
        i += 12;
        j += 12;
    }
    if j < end {
        return Err(part_entry(work, i, bytes, pos, j));
    }
    Ok(Added { sizes, durations })
}

// The index box from `pos` to `end`, whose body starts at `at`, when the time line stands at `when`.
pub fn index_walk(
    p: Where,
    when: u64,
    bytes: &[u8],
    base: u64,
    pos: usize,
    at: usize,
    end: usize,
    work: &mut [u8],
) -> Result<IndexRead, Halt>
    requires { Shallow p × Timely p when × (pos ≤ at) × (at ≤ end) × (base + end ≤ limit) × (at ≤ length bytes.now) × (work_bytes ≤ length work.old) }
    ensures { IndexWalked p when base bytes.now pos at end work.old work.new result }
{
    let w = wanted_at(p);
    let f = read_fields(w, when, bytes, pos, at, end)?;
    let a = read_entries(bytes, pos, f.from as usize, end, work, w.part as usize)?;
    let x = IndexRead {
        id: f.id,
        scale: f.scale,
        time: f.time,
        offset: f.offset,
        count: f.count,
        sizes: a.sizes,
        durations: a.durations,
    };
    match sums_flaw(p, x, when, base + (end as u64)) {
        Some(flaw) => Err(Halt::Bad(stop_at(flaw, pos, end))),
        None => Ok(x),
    }
}
