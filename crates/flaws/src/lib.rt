// The lowest number that a box's header shows where the box stands: by its size, its length and its type; none where it shows no fault.
#![tactic(auto)]

ghost use Rattle.std.specs.Prelude.{◌≡◌, ◌++◌, not, ◌&&◌, ◌||◌, eqb, leb, Some, None};
ghost use Rattle.std.specs.Option.{option_or};
ghost use Rattle.basics.specs.Choose.{pick};
ghost use Rattle.segment.specs.Constants.{levels, styp, sidx, moof, mdat};
ghost use Rattle.machine.specs.Heads.{size_faults};
ghost use Rattle.state.specs.Rows.{body_length, top_lengths, traf_faults};
ghost use Rattle.flaws.specs.Flaws.{flaw_of, numbered, span_or};

use machine::{Header, Refusal};
use state::{Span, TrafPhase};

// The types of boxes at a segment's top level, as the numbers that their letters spell.
pub const STYP: u64 = 1937013104;

pub const SIDX: u64 = 1936286840;

pub const MOOF: u64 = 1836019558;

pub const MDAT: u64 = 1835295092;

// The types of the boxes that a `traf` knows.
pub const TFHD: u64 = 1952868452;

pub const TFDT: u64 = 1952867444;

const TFAD: u64 = 1952866660;

// The most levels of indexes, with the top one.
const LEVELS: u64 = 4;

// The lowest number that a header's size shows. A 64-bit size may be any, so that no end is computed.
#[tactic(auto, using(crate::proofs::Flaws::size_tests), unfolding(basics::specs::Choose::pick, crate::specs::Flaws::numbered))]
pub fn size_flaw(end: u64, h: Header) -> Option<u64>
    ensures { result ≡ numbered (flaw_of (size_faults end h)) }
{
    if h.size < h.head {
        return Some(4);
    }
    if end < h.pos || end - h.pos < h.size {
        return Some(5);
    }
    None
}

// How long a box's body is: 0 where its size is under its header's.
fn body_length(h: Header) -> u64
    ensures { result ≡ body_length h }
{
    h.size.saturating_sub(h.head)
}

// 6 where a `styp` or a `sidx` has no length that it may have.
#[tactic(auto, using(crate::proofs::Flaws::length_tests), unfolding(basics::specs::Choose::pick, crate::specs::Flaws::numbered))]
fn length_flaw(h: Header) -> Option<u64>
    ensures { result ≡ numbered (flaw_of (top_lengths h)) }
{
    let long = body_length(h);
    match h.kind {
        STYP if long < 8 || long % 4 != 0 => Some(6),
        SIDX if long < 24 => Some(6),
        _ => None,
    }
}

// The lowest number that a header shows by its length at the top level, and else `other`, what its type shows.
pub fn top_flaw(h: Header, other: Option<u64>) -> Option<u64>
    ensures { result ≡ option_or (numbered (flaw_of (top_lengths h))) other }
{
    length_flaw(h).or(other)
}

// The lowest number that a header shows: by its size, by its length, and else `other`, what its type shows.
#[tactic(auto, using(crate::proofs::Numbered::size_or_length))]
pub fn header_flaw(end: u64, h: Header, other: Option<u64>) -> Option<u64>
    ensures { result ≡ option_or (numbered (flaw_of (size_faults end h ++ top_lengths h))) other }
{
    size_flaw(end, h).or(top_flaw(h, other))
}

// The box that a header begins, where the header shows no number; else it is refused with the lowest one at its first byte.
pub fn box_span(end: u64, h: Header, other: Option<u64>) -> Result<Span, Refusal>
    ensures { result ≡ span_or (option_or (numbered (flaw_of (size_faults end h ++ top_lengths h))) other) h }
{
    match header_flaw(end, h, other) {
        Some(number) => Err(Refusal {
            number,
            place: h.pos,
        }),
        None => Ok(Span {
            pos: h.pos,
            end: h.pos + h.size,
        }),
    }
}

// The number that a type shows up to the top index: the first box is a `styp`, and no other is.
#[tactic(auto, unfolding(basics::specs::Choose::pick))]
pub fn opening_kind_flaw(branded: bool, kind: u64) -> Option<u64>
    ensures { result ≡ pick (pick branded (eqb kind styp) (not (eqb kind styp))) (Some 7) (pick (eqb kind moof || eqb kind mdat) (Some 9) None) }
{
    if branded == (kind == STYP) {
        return Some(7);
    }
    match kind {
        MOOF | MDAT => Some(9),
        _ => None,
    }
}

// The number that a type shows in the gap.
#[tactic(auto, unfolding(basics::specs::Choose::pick))]
pub fn gap_kind_flaw(kind: u64) -> Option<u64>
    ensures { result ≡ pick (eqb kind styp) (Some 7) (pick (eqb kind moof || eqb kind mdat || eqb kind sidx) (Some 9) None) }
{
    match kind {
        STYP => Some(7),
        MOOF | MDAT => Some(9),
        SIDX => Some(9), // a second index, in the gap
        _ => None,
    }
}

// The number that a type shows in a leaf; `had` says that the leaf has had its `moof`.
#[tactic(auto, unfolding(basics::specs::Choose::pick))]
pub fn leaf_kind_flaw(had: bool, kind: u64) -> Option<u64>
    ensures { result ≡ pick (eqb kind styp) (Some 7) (pick (eqb kind sidx || eqb kind mdat && not had) (Some 9) None) }
{
    match kind {
        STYP => Some(7),
        SIDX => Some(9), // an index in a leaf
        MDAT if !had => Some(9),
        _ => None,
    }
}

// The number that the type of an entry's first box shows; `depth` indexes stand open around it.
#[tactic(auto, unfolding(basics::specs::Choose::pick))]
pub fn inner_kind_flaw(depth: u64, kind: u64) -> Option<u64>
    ensures { result ≡ pick (eqb kind styp) (Some 7) (pick (not (eqb kind sidx)) (Some 9) (pick (eqb kind sidx && leb levels depth) (Some 13) None)) }
{
    match kind {
        STYP => Some(7), // lower than any other box's 9
        SIDX if LEVELS <= depth => Some(13),
        SIDX => None,
        _ => Some(9),
    }
}

// The lowest number that a header shows in a `traf` beyond its size; `track` says how far the `traf` has come. The arms of one type stand
// together, and each asks for the body's length itself: so no test is made twice.
#[tactic(auto, using(crate::proofs::Places::traf_flaws), unfolding(basics::specs::Choose::pick, crate::specs::Flaws::numbered, state::specs::Rows::fresh, state::specs::Rows::headed_track, state::specs::Rows::body_length))]
pub fn traf_flaw(track: TrafPhase, h: Header) -> Option<u64>
    ensures { result ≡ numbered (flaw_of (traf_faults track h)) }
{
    match (h.kind, track) {
        (TFHD, _) if body_length(h) < 8 => Some(6),
        (TFHD, TrafPhase::Fresh) => None,
        (TFHD, _) => Some(16),
        (TFDT, _) if body_length(h) < 8 => Some(6),
        (TFDT, TrafPhase::Headed { .. }) => None,
        (TFDT, _) => Some(16),
        (TFAD, _) => Some(17),
        _ => None,
    }
}
