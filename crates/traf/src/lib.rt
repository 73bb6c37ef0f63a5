// The boxes of a `traf`, byte by byte. What flows through a reading stays as it is inside a `traf`, so that no function here takes it.
#![tactic(auto)]

ghost use Rattle.std.specs.Prelude.{ℕ, ◌+◌, ◌<◌, ◌≤◌, ◌≡◌, [], ⊤, refl, Ok, Err};
ghost use Rattle.segment.specs.Constants.{limit};
ghost use Rattle.machine.specs.Faults.{unless};
ghost use Rattle.machine.specs.Run.{go};
ghost use Rattle.flaws.proofs.Places.{traf_beyond};
ghost use Rattle.state.specs.Calls.{flow_of};
ghost use Rattle.state.specs.Flow.{Flow};
ghost use Rattle.state.specs.Traf.{Gave, traf_ends, step_traf_body, saw, traf_now, fall_faults, traf_boxes, step_traf, begin_traf_boxes};
ghost use Rattle.state.specs.Ranges.{Within, traf_body_bounds, traf_bounds};
ghost use Rattle.state.specs.Views.{view, view_as};
ghost use Rattle.state.specs.declared.TrafBody.TheVariants as body;
ghost use Rattle.state.specs.declared.TrafPart.TheVariants as part;
ghost use Rattle.traf.specs.Views.{gave_of, lack_of};

use flaws::{TFDT, TFHD, traf_flaw};
use header::spelled;
use lists::{BodyList, BoxList, after_box, beside, list_byte, next_box, skip_to};
use machine::{Header, Refusal, Step};
use state::{Seen, Span, TrafBody, TrafBoxes, TrafPart, TrafPhase, TrafSo};

// What a box of a `traf` gives: nothing; whether its track is the reference track; or whether it is, its place and its decode time.
#[derive(Clone, Copy)]
pub enum Given {
    Nothing,
    Headed(bool),
    Timed(bool, u64, u64),
}

// A number begins of which `more` bytes follow its first.
fn number(part: TrafPart, more: u64) -> Result<Step<TrafBody, Given>, Refusal>
    ensures { (f : Flow) → view_as gave_of f result ≡ go (body.Field part more 0) f }
{
    Ok(Step::Going(TrafBody::Field { part, more, acc: 0 }))
}

// The version of a `tfdt`, its byte the n-th: it says how long the box is.
#[tactic(auto, unfolding(state::specs::Traf::traf_ends, state::specs::Traf::tfdt_version_faults, machine::specs::Faults::unless, machine::specs::Faults::shows, machine::specs::Faults::lowest))]
fn version_end(pos: u64, end: u64, v: u64, n: u64) -> Result<Step<TrafBody, Given>, Refusal>
    requires { n ≤ limit }
    ensures { (id : ℕ) (t : TrafPhase) (f : Flow) → view_as gave_of f result ≡ traf_ends id t (part.Version pos end) v f n }
{
    if 1 < v {
        return Err(Refusal {
            number: 10,
            place: pos,
        });
    }
    let wide = v == 1;
    if end != n + (if wide { 11 } else { 7 }) {
        return Err(Refusal {
            number: 6,
            place: pos,
        });
    }
    number(TrafPart::TimeFlags { pos, wide }, 2)
}

// A number of a `tfhd` or a `tfdt` is read; `id` is the top index's reference ID.
#[tactic(auto, using(lists::proofs::Laws::skipped), unfolding(state::specs::Traf::traf_ends, state::specs::Traf::reference))]
fn field_end(
    id: u64,
    t: TrafPhase,
    p: TrafPart,
    v: u64,
    n: u64,
) -> Result<Step<TrafBody, Given>, Refusal>
    requires { n ≤ limit }
    ensures { (f : Flow) → view_as gave_of f result ≡ traf_ends id t p v f n }
{
    match p {
        TrafPart::HeadFlags { end } => number(TrafPart::TrackId { end }, 3),
        TrafPart::TrackId { end: stop } => {
            let reference = v == id;
            Ok(skip_to(
                stop,
                n,
                TrafBody::Rest { stop, reference },
                Given::Headed(reference),
            ))
        }
        TrafPart::Version { pos, end } => version_end(pos, end, v, n),
        TrafPart::TimeFlags { pos, wide: true } => number(TrafPart::Time { pos }, 7),
        TrafPart::TimeFlags { pos, wide: false } => number(TrafPart::Time { pos }, 3),
        TrafPart::Time { pos } => {
            let reference = matches!(t, TrafPhase::Headed { reference: true });
            Ok(Step::Done(Given::Timed(reference, pos, v)))
        }
    }
}

// One byte of a number.
#[tactic(auto, using(crate::proofs::Laws::field_small), unfolding(state::specs::Traf::step_traf_body))]
fn field_byte(
    id: u64,
    t: TrafPhase,
    p: TrafPart,
    more: u64,
    acc: u64,
    n: u64,
    b: u8,
) -> Result<Step<TrafBody, Given>, Refusal>
    requires n_lt_limit { n < limit }
    requires within { Within (traf_body_bounds (body.Field p more acc)) }
    ensures { (f : Flow) → view_as gave_of f result ≡ step_traf_body id t (body.Field p more acc) f n b }
{
    let v = spelled(acc, b);
    if more == 0 {
        return field_end(id, t, p, v, n + 1);
    }
    Ok(Step::Going(TrafBody::Field {
        part: p,
        more: more - 1,
        acc: v,
    }))
}

// One more decode time, which counts where it is the reference track's.
#[tactic(auto, unfolding(state::specs::Traf::saw, basics::specs::Choose::pick))]
fn with_time(s: Seen, reference: bool, v: u64) -> Seen
    ensures { result ≡ saw s reference v }
{
    if !reference {
        return s;
    }
    Seen {
        any: true,
        first: if s.any { s.first } else { v },
        last: v,
    }
}

// What is known of a `traf` after a box. A decode time of the reference track may not fall.
#[tactic(auto, unfolding(state::specs::Traf::traf_now, state::specs::Traf::fall_faults, machine::specs::Faults::shows, machine::specs::Faults::lowest, machine::specs::Faults::unless))]
fn known_after(so: TrafSo, g: Given) -> Result<TrafSo, Refusal>
    ensures { result ≡ unless (fall_faults so.seen.last (gave_of g)) Err (Ok (traf_now so (gave_of g))) }
{
    let seen = so.seen;
    match g {
        Given::Nothing => Ok(so),
        Given::Headed(reference) => Ok(TrafSo {
            track: TrafPhase::Headed { reference },
            seen,
        }),
        Given::Timed(true, place, v) if v < seen.last => Err(Refusal { number: 18, place }),
        Given::Timed(reference, _, v) => Ok(TrafSo {
            track: TrafPhase::Timed,
            seen: with_time(seen, reference, v),
        }),
    }
}

// The number of what a `traf` lacks at its end.
#[tactic(auto, unfolding(crate::specs::Views::lack_of))]
fn lack(t: TrafPhase) -> Option<u64>
    ensures { result ≡ lack_of t }
{
    match t {
        TrafPhase::Timed => None,
        _ => Some(16),
    }
}

// The boxes of a `traf`, as a list; `id` is the top index's reference ID.
#[derive(Clone, Copy)]
struct TrafList {
    id: u64,
    span: Span,
}

impl BoxList for TrafList {
    type Known = TrafSo;

    type Body = TrafBody;

    type Gives = Given;

    type Whole = Seen;

    ghost Gave = { Gave };

    ghost gave = { gave_of };

    ghost boxes = { λ l. traf_boxes l.id l.span };

    ghost Flows = { λ l f. ⊤ };

    ghost flow = { λ l. flow_of 0 0 0 [] [] };

    fn end(&self) -> u64 {
        self.span.end
    }

    fn flaw(&self, so: TrafSo, h: Header) -> Option<u64> {
        traf_flaw(so.track, h)
    }

    #[tactic(auto, using(lists::proofs::Laws::skipped), unfolding(state::specs::Traf::begin_traf, basics::specs::Choose::pick))]
    fn begin(&self, _so: TrafSo, h: Header, n: u64) -> Result<Step<TrafBody, Given>, Refusal> {
        let pos = h.pos;
        let end = pos + h.size;
        match h.kind {
            TFHD => number(TrafPart::HeadFlags { end }, 3),
            TFDT => number(TrafPart::Version { pos, end }, 0),
            _ => Ok(skip_to(end, n, TrafBody::Skip { stop: end }, Given::Nothing)),
        }
    }

    #[tactic(auto, using(crate::proofs::Laws::falling, crate::proofs::Laws::clear, crate::proofs::Laws::faultless))]
    fn close(&self, so: TrafSo, g: Given, n: u64) -> Result<Step<TrafSo, Seen>, Refusal> {
        let so = known_after(so, g)?;
        after_box(self.span, lack(so.track), so, so.seen, n)
    }

    #[tactic(auto, using(crate::proofs::Laws::lacks_beside))]
    fn beside(&self, so: TrafSo, x: Refusal, n: u64) -> Refusal {
        beside(self.span, lack(so.track), x, n)
    }

    ghost flows = { λ l. tt };

    ghost kept = { λ l. refl };

    ghost box_kept = { λ l a. refl };

    ghost beyond = { λ l a h f. traf_beyond a.track h };
}

impl BodyList for TrafList {
    ghost bounds = { traf_body_bounds };

    #[tactic(auto, using(lists::proofs::Laws::skipped), unfolding(state::specs::Traf::step_traf_body))]
    fn body(
        &self,
        so: TrafSo,
        s: TrafBody,
        n: u64,
        b: u8,
    ) -> Result<Step<TrafBody, Given>, Refusal> {
        match s {
            TrafBody::Skip { stop } => Ok(skip_to(stop, n + 1, s, Given::Nothing)),
            TrafBody::Rest { stop, reference } => Ok(skip_to(
                stop,
                n + 1,
                s,
                Given::Headed(reference),
            )),
            TrafBody::Field { part, more, acc } => field_byte(
                self.id, so.track, part, more, acc, n, b,
            ),
        }
    }
}

// One byte of the boxes of a `traf`; `id` is the top index's reference ID, and `n` bytes stand before the byte.
#[tactic(auto, using(crate::proofs::Laws::listed, crate::proofs::Laws::list_within))]
pub fn traf_byte(
    id: u64,
    span: Span,
    s: TrafBoxes,
    n: u64,
    b: u8,
) -> Result<Step<TrafBoxes, Seen>, Refusal>
    requires { Within (traf_bounds s) × (n < limit) }
    ensures { (f : Flow) → view f result ≡ step_traf id span s f n b }
{
    list_byte(&TrafList { id, span }, s, n, b)
}

// A `traf` begins after its header, and may end at once; `n` bytes up to the header's last.
pub fn traf_begin(span: Span, seen: Seen, n: u64) -> Result<Step<TrafBoxes, Seen>, Refusal>
    ensures { (id : ℕ) (f : Flow) → view f result ≡ begin_traf_boxes id span seen f n }
{
    let so = TrafSo {
        track: TrafPhase::Fresh,
        seen,
    };
    next_box(after_box(span, lack(so.track), so, seen, n))
}
