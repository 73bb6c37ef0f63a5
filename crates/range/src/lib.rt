// Whether the numbers of a state are in their ranges: a state comes from outside, and each call looks before it goes by it. `&` and not `&&`
// joins the tests: all are made, with no branch between them.
#![tactic(auto)]

ghost use Rattle.std.specs.Prelude.{◌≡◌, List, [], ◌∷◌, ◌++◌, ℕ, ◌+◌, ◌^◌, ◌<◌};
ghost use Rattle.segment.specs.Constants.{time_limit};
ghost use Rattle.table.specs.Table.{most_records};
ghost use Rattle.state.specs.Levels.{inmost};
ghost use Rattle.state.specs.Sidx.{wide_more};
ghost use Rattle.state.specs.declared.Levels.{Levels};
ghost use Rattle.state.specs.declared.LeafSo.{LeafSo};
ghost use Rattle.range.specs.Listed.{boxes_bounds};
ghost use Rattle.state.specs.Ranges.{Bound, at_most, below, within, spelled_bounds, head_bounds, traf_most, traf_body_bounds, moof_body_bounds};
ghost use Rattle.state.specs.Ranges.{leaf_body_bounds, index_most, scale_least, draft_bounds, sizes_read, durations_read, sums_bounds};
ghost use Rattle.state.specs.Ranges.{sidx_bounds, opening_body_bounds, gap_bounds, top_bounds, level_bounds, levels_bounds};
ghost use Rattle.state.specs.Ranges.{slot_bounds, inner_bounds, stage_bounds, in_range};

use machine::{BoxesSo, Head, Refusal};
use state::{
    Draft, EntryPart, GapBoxes, IndexPart, InnerBox, LAST_TIME, LIMIT, LeafBody, Level, Levels,
    MOST_ENTRIES, MoofBody, OpeningBody, Sidx, Slot, Stage, State, Sums, TYPE_BIT, Top, TrafBody,
    TrafPart,
};
use table::MOST_RECORDS;

// Numbers of 32 bits are below this.
const WORD: u64 = 4294967296;

// The sum is tested by a difference, since it may not fit.
fn sum_fits(a: u64, b: u64) -> bool
    ensures { result ≡ within (below (a + b) time_limit ∷ []) }
{
    b <= LAST_TIME - a
}

// A table and not `pow`, which is a loop: each call tests some numbers so.
fn power(k: u64) -> u64
    requires { k < 8 }
    ensures { result ≡ 256 ^ k }
{
    match k {
        0 => 1,
        1 => 256,
        2 => 65536,
        3 => 16777216,
        4 => 4294967296,
        5 => 1099511627776,
        6 => 281474976710656,
        _ => 72057594037927936,
    }
}

// A number that is being read: what its bytes spell so far.
fn spelling_fits(most: u64, more: u64, acc: u64) -> bool
    requires { most < 8 }
    ensures { result ≡ within (spelled_bounds most more acc) }
{
    more <= most && acc < power(most - more)
}

fn head_number_fits(pos: u64, most: u64, more: u64, acc: u64) -> bool
    requires { most < 8 }
    ensures { result ≡ within (at_most pos 268435456 ∷ spelled_bounds most more acc) }
{
    (pos <= LIMIT) & spelling_fits(most, more, acc)
}

fn head_fits(h: Head) -> bool
    ensures { result ≡ within (head_bounds h) }
{
    match h {
        Head::First => true,
        Head::Size { pos, more, acc } => head_number_fits(pos, 3, more, acc),
        Head::Kind { pos, more, acc, .. } => head_number_fits(pos, 3, more, acc),
        Head::Large { pos, more, acc, .. } => head_number_fits(pos, 7, more, acc),
    }
}

#[tactic(auto, unfolding(state::specs::Ranges::traf_most))]
fn traf_most(p: TrafPart) -> u64
    ensures { result ≡ traf_most p }
{
    match p {
        TrafPart::HeadFlags { .. } | TrafPart::TrackId { .. } => 3,
        TrafPart::Version { .. } => 0,
        TrafPart::TimeFlags { .. } => 2,
        TrafPart::Time { .. } => 7,
    }
}

// What has numbers of its own: whether they are in their ranges.
trait Fits {
    ghost bounds: { Self → List Bound };

    fn fits(self) -> bool
        ensures { result ≡ within (bounds self) };
}

// A list of boxes, whatever the body of a box in it is.
#[tactic(auto, unfolding(crate::specs::Listed::boxes_bounds))]
fn boxes_fit<A: Copy, B: Fits>(s: BoxesSo<A, B>) -> bool
    ensures { result ≡ within (boxes_bounds B.bounds s) }
{
    match s {
        BoxesSo::Head(_, h) => head_fits(h),
        BoxesSo::Body(_, b) => b.fits(),
    }
}

#[tactic(auto, using(crate::proofs::Joined::all_of_none), unfolding(state::specs::Ranges::traf_body_bounds))]
impl Fits for TrafBody {
    ghost bounds = { traf_body_bounds };

    fn fits(self) -> bool {
        match self {
            TrafBody::Skip { .. } | TrafBody::Rest { .. } => true,
            TrafBody::Field { part, more, acc } => spelling_fits(traf_most(part), more, acc),
        }
    }
}

#[tactic(auto, using(crate::proofs::Joined::all_of_none, crate::proofs::Listed::traf_listed), unfolding(state::specs::Ranges::moof_body_bounds))]
impl Fits for MoofBody {
    ghost bounds = { moof_body_bounds };

    fn fits(self) -> bool {
        match self {
            MoofBody::Skip { .. } => true,
            MoofBody::Traf(_, boxes) => boxes_fit(boxes),
        }
    }
}

#[tactic(auto, using(crate::proofs::Joined::all_of_none, crate::proofs::Listed::moof_listed), unfolding(state::specs::Ranges::leaf_body_bounds))]
impl Fits for LeafBody {
    ghost bounds = { leaf_body_bounds };

    fn fits(self) -> bool {
        match self {
            LeafBody::Skip { .. } => true,
            LeafBody::Moof { boxes, .. } => boxes_fit(boxes),
        }
    }
}

#[tactic(auto, unfolding(state::specs::Sidx::wide_more))]
fn wide_most(wide: bool) -> u64
    ensures { result ≡ wide_more wide }
{
    if wide { 7 } else { 3 }
}

#[tactic(auto, unfolding(state::specs::Ranges::index_most))]
fn index_most(p: IndexPart, wide: bool) -> u64
    ensures { result ≡ index_most p wide }
{
    match p {
        IndexPart::Version => 0,
        IndexPart::Flags => 2,
        IndexPart::Id | IndexPart::Scale => 3,
        IndexPart::Time | IndexPart::Offset => wide_most(wide),
        IndexPart::Reserved | IndexPart::Count => 1,
    }
}

#[tactic(auto, unfolding(state::specs::Ranges::scale_least))]
fn scale_least(p: IndexPart) -> u64
    ensures { result ≡ scale_least p }
{
    match p {
        IndexPart::Version | IndexPart::Flags | IndexPart::Id | IndexPart::Scale => 0,
        IndexPart::Time | IndexPart::Offset | IndexPart::Reserved | IndexPart::Count => 1,
    }
}

fn draft_fits(least: u64, d: Draft) -> bool
    ensures { result ≡ within (draft_bounds least d) }
{
    (d.id < WORD) & (least <= d.scale) & (d.scale < WORD)
}

// The entries whose size is in the sum.
#[tactic(auto, unfolding(state::specs::Ranges::sizes_read))]
fn sizes_summed(e: EntryPart, next: u64) -> u64
    requires { next < 1024 }
    ensures { result ≡ sizes_read e next }
{
    match e {
        EntryPart::Size => next,
        EntryPart::Duration | EntryPart::Sap => next + 1,
    }
}

// The entries whose duration is in the sum.
#[tactic(auto, unfolding(state::specs::Ranges::durations_read))]
fn durations_summed(e: EntryPart, next: u64) -> u64
    requires { next < 1024 }
    ensures { result ≡ durations_read e next }
{
    match e {
        EntryPart::Size | EntryPart::Duration => next,
        EntryPart::Sap => next + 1,
    }
}

// The counts first, so that the products fit.
fn sums_fit(e: EntryPart, s: Sums) -> bool
    ensures { result ≡ within (sums_bounds e s) }
{
    if s.count <= s.next {
        return false;
    }
    if MOST_ENTRIES < s.count {
        return false;
    }
    let sizes = sizes_summed(e, s.next);
    let durations = durations_summed(e, s.next);
    (s.sizes <= TYPE_BIT * sizes) & (s.durations <= WORD * durations)
}

fn sidx_fits(s: Sidx) -> bool
    ensures { result ≡ within (sidx_bounds s) }
{
    match s {
        Sidx::Field {
            part,
            draft,
            more,
            acc,
        } => {
            let most = index_most(part, draft.wide);
            let least = scale_least(part);
            draft_fits(least, draft) & spelling_fits(most, more, acc)
        }
        Sidx::Entry {
            part,
            draft,
            sums,
            more,
            acc,
        } => draft_fits(1, draft) & sums_fit(part, sums) & spelling_fits(3, more, acc),
    }
}

#[tactic(auto, using(crate::proofs::Joined::all_of_none), unfolding(state::specs::Ranges::opening_body_bounds))]
impl Fits for OpeningBody {
    ghost bounds = { opening_body_bounds };

    fn fits(self) -> bool {
        match self {
            OpeningBody::Skip { .. } => true,
            OpeningBody::Styp { more, acc, .. } => spelling_fits(3, more, acc),
            OpeningBody::Index(_, i) => sidx_fits(i),
        }
    }
}

fn gap_fits(s: GapBoxes) -> bool
    ensures { result ≡ within (gap_bounds s) }
{
    match s {
        GapBoxes::Head(h) => head_fits(h),
        GapBoxes::Body { .. } => true,
    }
}

fn top_fits(t: Top) -> bool
    ensures { result ≡ within (top_bounds t) }
{
    (t.id < WORD) & (1 <= t.scale) & (t.scale < WORD) & sum_fits(t.start, t.durations)
}

fn level_fits(l: Level) -> bool
    ensures { result ≡ within (level_bounds l) }
{
    (l.next <= l.count) & (l.count <= MOST_ENTRIES)
}

fn two_fit(a: Level, b: Level) -> bool
    ensures { result ≡ within (levels_bounds (Levels.Two a b)) }
{
    level_fits(a) & level_fits(b) & (b.until <= a.until)
}

fn three_fit(a: Level, b: Level, c: Level) -> bool
    ensures { result ≡ within (levels_bounds (Levels.Three a b c)) }
{
    let untils = (b.until <= a.until) & (c.until <= b.until);
    level_fits(a) & level_fits(b) & level_fits(c) & untils
}

fn four_fit(a: Level, b: Level, c: Level, d: Level) -> bool
    ensures { result ≡ within (levels_bounds (Levels.Four a b c d)) }
{
    let untils = (b.until <= a.until) & (c.until <= b.until) & (d.until <= c.until);
    level_fits(a) & level_fits(b) & level_fits(c) & level_fits(d) & untils
}

fn levels_fit(ls: Levels) -> bool
    ensures { result ≡ within (levels_bounds ls) }
{
    match ls {
        Levels::One(a) => level_fits(a),
        Levels::Two(a, b) => two_fit(a, b),
        Levels::Three(a, b, c) => three_fit(a, b, c),
        Levels::Four(a, b, c, d) => four_fit(a, b, c, d),
    }
}

fn slot_fits(ls: Levels, s: Slot, at: u64) -> bool
    ensures { result ≡ within (slot_bounds ls s at) }
{
    let inner = levels::inmost(ls);
    (s.pos <= s.end) & (at <= s.until) & (s.until <= inner.until)
}

fn inner_fits(ls: Levels, b: InnerBox) -> bool
    ensures { result ≡ within (inner_bounds ls b) }
{
    match b {
        InnerBox::Head(h) => head_fits(h),
        InnerBox::Body(_, s) => (levels::depth(ls) < 4) & sidx_fits(s),
    }
}

fn gap_stage_fits(t: Top, l: Level, boxes: GapBoxes, at: u64) -> bool
    ensures { result ≡ within (top_bounds t ++ (level_bounds l ++ (at_most at l.until ∷ gap_bounds boxes))) }
{
    top_fits(t) & level_fits(l) & (at <= l.until) & gap_fits(boxes)
}

fn next_entry_fits(ls: Levels, at: u64) -> bool
    ensures { result ≡ within (below (inmost ls).next (inmost ls).count ∷ at_most at (inmost ls).until ∷ []) }
{
    let inner = levels::inmost(ls);
    (inner.next < inner.count) & (at <= inner.until)
}

// What the top index says, and the indexes that stand open.
fn nested_fits(t: Top, ls: Levels) -> bool
    ensures { result ≡ within (top_bounds t ++ levels_bounds ls) }
{
    top_fits(t) & levels_fit(ls)
}

fn stage_fits(s: Stage, at: u64) -> bool
    ensures { result ≡ within (stage_bounds s at) }
{
    match s {
        Stage::Opening { boxes, .. } => boxes_fit(boxes),
        Stage::Gap {
            top,
            level,
            boxes,
            ..
        } => gap_stage_fits(top, level, boxes, at),
        Stage::Entry { top, levels } => nested_fits(top, levels) & next_entry_fits(levels, at),
        Stage::Leaf {
            top,
            levels,
            slot,
            boxes,
        } => nested_fits(top, levels) & slot_fits(levels, slot, at) & boxes_fit(boxes),
        Stage::Inner {
            top,
            levels,
            slot,
            first,
        } => nested_fits(top, levels) & slot_fits(levels, slot, at) & inner_fits(levels, first),
    }
}

fn counts_fit(most: u64, count: u64, leaves: u64) -> bool
    ensures { result ≡ within (at_most count most ∷ at_most leaves most_records ∷ []) }
{
    (count <= most) & (leaves <= MOST_RECORDS)
}

fn refused_fits(count: u64, leaves: u64, x: Refusal) -> bool
    ensures { result ≡ in_range (State.Refused count leaves x) }
{
    counts_fit(LIMIT + 1, count, leaves) & (3 <= x.number) & (x.number <= 21)
}

// Whether each number of an accepted state is in its range.
pub fn accepted_in_range(count: u64, leaves: u64, top: Top) -> bool
    ensures { result ≡ in_range (State.Accepted count leaves top) }
{
    counts_fit(LIMIT, count, leaves) & top_fits(top)
}

// Whether each number is in its range of a state that skips a body of a leaf; what was read of the leaf has none.
pub fn skip_in_range(
    count: u64,
    leaves: u64,
    now: u64,
    top: Top,
    levels: Levels,
    slot: Slot,
) -> bool
    ensures { (last stop : ℕ) (so : LeafSo) →
        result ≡ in_range (State.Reading count leaves now last (Stage.Leaf top levels slot (BoxesSo.Body so (LeafBody.Skip stop)))) }
{
    counts_fit(LIMIT, count, leaves) & nested_fits(top, levels) & slot_fits(levels, slot, now)
}

// Whether each number of a state is in its range.
pub fn in_range(s: State) -> bool
    ensures { result ≡ in_range s }
{
    match s {
        State::Reading {
            count,
            leaves,
            now,
            stage,
            ..
        } => counts_fit(LIMIT, count, leaves) & stage_fits(stage, now),
        State::Ended { count, leaves, top } => counts_fit(LIMIT, count, leaves) & top_fits(top),
        State::Accepted { count, leaves, top } => accepted_in_range(count, leaves, top),
        State::Refused {
            count,
            leaves,
            refusal,
        } => refused_fits(count, leaves, refusal),
    }
}
