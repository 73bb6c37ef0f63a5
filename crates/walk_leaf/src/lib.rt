// A leaf by structure: a list of boxes, in which a `moof` is a list of boxes, in which a `traf` is one. Positions count from the first
// byte lent, which may stand anywhere in the segment. No body that is skipped is looked at.
#![tactic(auto)]

ghost use Rattle.std.specs.Prelude.{◌≡◌, true, false, ◌||◌, ℕ, ◌+◌, ◌≤◌, ◌<◌, eqb, length, Err};
ghost use Rattle.segment.specs.Constants.{limit, tfhd, tfdt};
ghost use Rattle.machine.specs.Heads.{box_end};
ghost use Rattle.state.specs.Rows.{traf_faults};
ghost use Rattle.state.specs.Traf.{reference, tfdt_version_faults};
ghost use Rattle.fields.specs.Answers.{farthest};
ghost use Rattle.fields.specs.Onward.{placed};
ghost use Rattle.flaws.specs.Flaws.{flaw_of, numbered};
ghost use Rattle.walk_leaf.specs.Views.{LeafWalked};
ghost use Rattle.walk_leaf.specs.Walks.{seen_at, Headed, TrackWalked, TimeWalked, is_timed, flaw_stop, TrafWalked};
ghost use Rattle.walk_leaf.specs.Walks.{nest_kind, ListWalked, BoxWalked, LeafBoxWalked, leaf_flaw, LeafListed};

use fields::{Halt, Stop, stop_at};
use flaws::{MOOF, TFDT, TFHD, leaf_kind_flaw, top_flaw, traf_flaw};
use machine::Header;
use reader::{quick_head, read_field, read_head, read_sized, skip_to};
use state::{LeafSo, Seen, TrafPhase, TrafSo};

// The type `traf`, as the number that its letters spell.
const TRAF: u64 = 1953653094;

// A container's body is a list of boxes, and a box may be a container: in a leaf a `moof` is, and in that a `traf`.
#[derive(Clone, Copy)]
enum Nest {
    Moof,
    Traf,
}

impl Nest {
    // Its type, as the number that its letters spell.
    #[tactic(auto, unfolding(crate::specs::Walks::nest_kind))]
    fn kind(self) -> u64
        ensures { result ≡ nest_kind self }
    {
        match self {
            Nest::Moof => MOOF,
            Nest::Traf => TRAF,
        }
    }
}

// A `tfhd`: version and flags, track ID; the rest is ignored. Whether the whole box is there is asked first: the compiler then drops the
// field's own test, since the field lies inside the box.
fn tfhd_box(id: u64, bytes: &[u8], at: usize, h: Header, so: TrafSo) -> Result<TrafSo, Halt>
    requires { Headed bytes.now at h × (h.kind ≡ tfhd) × (h.head + 8 ≤ h.size) }
    ensures { TrackWalked bytes.now id at h so result }
{
    skip_to(bytes, at + (h.size as usize))?;
    let (v, _) = read_field(bytes, at + (h.head as usize) + 4, 4).ok_or(Halt::Ended)?;
    Ok(TrafSo {
        track: TrafPhase::Headed { reference: v == id },
        seen: so.seen,
    })
}

// The number that the version of a `tfdt` shows.
#[tactic(auto, using(crate::proofs::Tracks::flaw_told), unfolding(basics::specs::Choose::pick))]
fn version_flaw(h: Header, v: u64) -> Option<u64>
    requires { h.head ≤ h.size }
    ensures { (base : ℕ) → result ≡ numbered (flaw_of (tfdt_version_faults (base + h.pos) (box_end (placed base h)) v (base + (h.pos + h.head + 1)))) }
{
    let body = h.size - h.head;
    match v {
        0 if body == 8 => None,
        1 if body == 12 => None,
        0 | 1 => Some(6),
        _ => Some(10),
    }
}

// The decode times of the reference track, with one more.
#[tactic(auto, unfolding(basics::specs::Choose::pick))]
fn seen_at(seen: Seen, v: u64) -> Seen
    ensures { result ≡ seen_at seen v }
{
    Seen {
        any: true,
        first: if seen.any { seen.first } else { v },
        last: v,
    }
}

// Whether a `traf` is of the reference track.
#[tactic(auto, unfolding(state::specs::Traf::reference))]
fn is_reference(track: TrafPhase) -> bool
    ensures { result ≡ reference track }
{
    matches!(track, TrafPhase::Headed { reference: true })
}

// A decode time: it counts where it is the reference track's, and must not fall.
fn time_box(at: usize, end: usize, so: TrafSo, v: u64) -> Result<TrafSo, Halt>
    requires { at ≤ end }
    ensures { TimeWalked at end so v result }
{
    let mut seen = so.seen;
    if is_reference(so.track) {
        if v < seen.last {
            return Err(Halt::Bad(stop_at(18, at, end)));
        }
        seen = seen_at(seen, v);
    }
    Ok(TrafSo {
        track: TrafPhase::Timed,
        seen,
    })
}

// A `tfdt`: version, flags, decode time.
fn tfdt_read(bytes: &[u8], at: usize, h: Header, so: TrafSo) -> Result<TrafSo, Halt>
    requires { Headed bytes.now at h × (h.kind ≡ tfdt) × (h.head + 8 ≤ h.size) }
    ensures { (id : ℕ) → TrackWalked bytes.now id at h so result }
{
    let (version, next) = read_field(bytes, at + (h.head as usize), 1).ok_or(Halt::Ended)?;
    if let Some(flaw) = version_flaw(h, version) {
        return Err(Halt::Bad(stop_at(flaw, at, next)));
    }
    let (v, end) = read_sized(version == 1, bytes, next + 3).ok_or(Halt::Ended)?;
    time_box(at, end, so, v)
}

// The same, read at one of two places: where the whole box is there, the compiler drops the tests whether its fields are.
fn tfdt_box(bytes: &[u8], at: usize, h: Header, so: TrafSo) -> Result<TrafSo, Halt>
    requires { Headed bytes.now at h × (h.kind ≡ tfdt) × (h.head + 8 ≤ h.size) }
    ensures { (id : ℕ) → TrackWalked bytes.now id at h so result }
{
    if at + (h.size as usize) <= bytes.len() {
        return tfdt_read(bytes, at, h, so);
    }
    let all = bytes;
    tfdt_read(all, at, h, so)
}

// A box of a `traf`.
fn track_box(id: u64, bytes: &[u8], at: usize, h: Header, so: TrafSo) -> Result<TrafSo, Halt>
    requires { Headed bytes.now at h × (flaw_of (traf_faults so.track h) ≡ 0) }
    ensures { TrackWalked bytes.now id at h so result }
{
    if h.kind == TFHD {
        return tfhd_box(id, bytes, at, h, so);
    }
    if h.kind == TFDT {
        return tfdt_box(bytes, at, h, so);
    }
    skip_to(bytes, at + (h.size as usize))?;
    Ok(so)
}

// Whether a `traf` has had its decode time.
#[tactic(auto, unfolding(crate::specs::Walks::is_timed))]
fn is_timed(track: TrafPhase) -> bool
    ensures { result ≡ is_timed track }
{
    matches!(track, TrafPhase::Timed)
}

// What a flaw of a header in the `traf` at `pos` comes to. 16 goes before 17, where a `tfad` ends a `traf` that lacks its decode time.
#[tactic(auto, unfolding(basics::specs::Choose::pick, crate::specs::Walks::flaw_stop))]
fn flaw_stop(flaw: u64, track: TrafPhase, pos: usize, at: usize, end: usize, h: Header) -> Stop
    requires { at + h.head ≤ farthest }
    ensures { result ≡ flaw_stop flaw track pos at end (at + h.head) }
{
    let next = at + (h.head as usize);
    if flaw == 17 && next == end && !is_timed(track) {
        return stop_at(16, pos, next);
    }
    stop_at(flaw, at, next)
}

// Whether a `traf` looks into boxes of a type.
fn is_known(kind: u64) -> bool
    ensures { result ≡ (eqb kind tfhd || eqb kind tfdt) }
{
    kind == TFHD || kind == TFDT
}

// The boxes of the `traf` at `pos`. Its list and a leaf's have loops of their own, and are not `list_walk`'s: what is known between two boxes
// differs (`TrafSo`, `LeafSo`, `Seen`), and a header shows other numbers.
fn traf_list(
    id: u64,
    bytes: &[u8],
    pos: usize,
    from: usize,
    end: usize,
    seen: Seen,
) -> Result<Seen, Halt>
    requires { (pos ≤ from) × (from ≤ end) × (end ≤ limit) × (from ≤ length bytes.now) }
    ensures { TrafWalked bytes.now id pos from end seen result }
{
    let mut at = from;
    let mut so = TrafSo {
        track: TrafPhase::Fresh,
        seen,
    };
    // No `for`: each box says where the next one begins.
    while at < end {
        let h = quick_head(bytes, at, end)?;
        if let Some(flaw) = traf_flaw(so.track, h) {
            return Err(Halt::Bad(flaw_stop(flaw, so.track, pos, at, end, h)));
        }
        // Any other box is skipped here, so that what is known of the `traf` stays where it is. Tried with `track_box` alone, which skips it
        // too: each box then puts it together again, and 256 leaves take 4,600 instructions more.
        if is_known(h.kind) {
            so = track_box(id, bytes, at, h, so)?;
        } else {
            skip_to(bytes, at + (h.size as usize))?;
        }
        at += h.size as usize;
    }
    if !is_timed(so.track) {
        return Err(Halt::Bad(stop_at(16, pos, end)));
    }
    Ok(so.seen)
}

// The boxes of a container. A `traf` has a loop of its own, since what it holds is looked at; of the boxes of a `moof` only a `traf` is.
#[cycle(box_walk_list_walk)]
fn list_walk(
    list: Nest,
    id: u64,
    bytes: &[u8],
    pos: usize,
    from: usize,
    end: usize,
    known: Seen,
) -> Result<Seen, Halt>
    requires { (pos ≤ from) × (from ≤ end) × (end ≤ limit) × (from ≤ length bytes.now) }
    ensures { ListWalked bytes.now list id pos from end known result }
{
    match list {
        Nest::Traf => traf_list(id, bytes, pos, from, end, known),
        Nest::Moof => {
            let mut at = from;
            let mut seen = known;
            // No `for`: each box says where the next one begins.
            while at < end {
                let h = quick_head(bytes, at, end)?;
                seen = box_walk(Nest::Traf, id, bytes, at, h, seen)?;
                at += h.size as usize;
            }
            Ok(seen)
        }
    }
}

// A box of a leaf, or of a `moof`: it is a list of boxes itself where its type is that of `list`, and is skipped else. Tried with `skip_to`
// and `?`: it is then too long to be inlined, and 256 leaves take 68,000 instructions more.
#[cycle(box_walk_list_walk)]
#[inline]
fn box_walk(
    list: Nest,
    id: u64,
    bytes: &[u8],
    at: usize,
    h: Header,
    seen: Seen,
) -> Result<Seen, Halt>
    requires { Headed bytes.now at h }
    ensures { BoxWalked bytes.now list id at h seen result }
{
    let end = at + (h.size as usize);
    if h.kind == list.kind() {
        return list_walk(list, id, bytes, at, at + (h.head as usize), end, seen);
    }
    if bytes.len() < end {
        return Err(Halt::Ended);
    }
    Ok(seen)
}

// A box of a leaf: a `moof` shows the decode times that it holds, and that the leaf has had it.
fn leaf_box(id: u64, bytes: &[u8], at: usize, h: Header, so: LeafSo) -> Result<LeafSo, Halt>
    requires { Headed bytes.now at h }
    ensures { LeafBoxWalked bytes.now id at h so result }
{
    let seen = box_walk(Nest::Moof, id, bytes, at, h, so.seen)?;
    Ok(LeafSo {
        moof: so.moof || h.kind == MOOF,
        seen,
    })
}

// The number that a header shows in a leaf by its length and its type.
fn leaf_flaw(had: bool, h: Header) -> Option<u64>
    ensures { result ≡ numbered (leaf_flaw had h) }
{
    top_flaw(h, leaf_kind_flaw(had, h.kind))
}

// The boxes of a leaf.
fn leaf_list(id: u64, bytes: &[u8], from: usize, end: usize, known: LeafSo) -> Result<LeafSo, Halt>
    requires { (from < end) × (end ≤ limit) × (from ≤ length bytes.now) }
    ensures { LeafListed bytes.now id from end known result }
{
    let mut at = from;
    let mut so = known;
    // No `for`: each box says where the next one begins.
    while at < end {
        let h = quick_head(bytes, at, end)?;
        if let Some(flaw) = leaf_flaw(so.moof, h) {
            return Err(Halt::Bad(stop_at(flaw, at, at + (h.head as usize))));
        }
        so = leaf_box(id, bytes, at, h, so)?;
        at += h.size as usize;
    }
    Ok(so)
}

// The leaf from `at` to `end` where the table has no room for it, which is not read: 15 at H of its first box, if that shows no lower
// number.
pub fn full_leaf(bytes: &[u8], at: usize, end: usize) -> Halt
    requires { (at < end) × (end ≤ limit) × (at ≤ length bytes.now) }
    ensures { (id last : ℕ) → LeafWalked bytes.now true id at end last (Err result) }
{
    match read_head(bytes, at, end) {
        Ok(h) => {
            let flaw = leaf_flaw(false, h).unwrap_or(15);
            Halt::Bad(stop_at(flaw, at, at + (h.head as usize)))
        }
        Err(x) => x,
    }
}

// The leaf from `at` to `end` where the table has room for it; `last` is the last decode time before it.
pub fn leaf_walk(id: u64, bytes: &[u8], at: usize, end: usize, last: u64) -> Result<Seen, Halt>
    requires { (at < end) × (end ≤ limit) × (at ≤ length bytes.now) }
    ensures { LeafWalked bytes.now false id at end last result }
{
    let known = LeafSo {
        moof: false,
        seen: Seen {
            any: false,
            first: 0,
            last,
        },
    };
    let so = leaf_list(id, bytes, at, end, known)?;
    if !so.seen.any {
        return Err(Halt::Bad(stop_at(19, at, end)));
    }
    Ok(so.seen)
}
