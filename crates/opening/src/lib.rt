// The boxes up to the top index and the boxes of the gap, one byte at a time.
#![tactic(auto, unfolding(
// the faults of a list, and what a list makes of a box
basics::specs::Choose::pick, machine::specs::Faults::shows, machine::specs::Faults::lowest, machine::specs::Faults::unless, machine::specs::Run::lift,
// what follows a box, and what a body makes of a byte
machine::specs::Lists::go_on, state::specs::Stages::gap_next, state::specs::Opening::brands_from,
// the numbers of a `styp`
state::specs::Opening::styp_ends))]

ghost use Rattle.std.specs.Prelude.{◌≡◌, List, [], ℕ, ◌+◌, ◌<◌, ◌≤◌, length, Ok, ⊤, refl};
ghost use Rattle.segment.specs.Constants.{limit};
ghost use Rattle.state.specs.Flow.{Flow, work_bytes};
ghost use Rattle.state.specs.Opening.{OpeningGave, brands_from, styp_ends, step_opening_body, opening, step_opening};
ghost use Rattle.state.specs.Stages.{skip_gap, gap_boxes, wrap_gap, step_gap};
ghost use Rattle.state.specs.Ranges.{Within, opening_body_bounds, opening_bounds, gap_bounds};
ghost use Rattle.state.specs.Calls.{flow_of};
ghost use Rattle.state.specs.Views.{view, view_as};
ghost use Rattle.header.specs.Views.{after_header};
ghost use Rattle.flaws.proofs.Places.{opening_beyond};
ghost use Rattle.opening.specs.Views.{body_gap, given};

use flaws::{SIDX, STYP, box_span, gap_kind_flaw, opening_kind_flaw, top_flaw};
use index::Where;
use lists::{BoxList, after_body, after_head, skip_to};
use machine::{BoxesSo, Head, Header, Refusal, Step};
use state::{GapBoxes, IndexRead, LIMIT, OpeningBody, OpeningBoxes, Span, StypPart};

// What a byte makes of the gap: it goes on, or the gap is over. (It is no `BoxList`: a stage holds it as `GapBoxes`, which is no `BoxesSo`, and
// turning one into the other and back is longer than what stands here.)
type GapAnswer = Result<Step<GapBoxes, ()>, Refusal>;

// A body in the gap, which is skipped up to `stop`; the gap may be over with it. `m` bytes up to the last one read.
fn gap_skip(end: u64, stop: u64, m: u64) -> GapAnswer
    ensures { (f : Flow) → view f result ≡ body_gap end m (skip_gap stop f m) }
{
    if m < stop {
        return Ok(Step::Going(GapBoxes::Body { stop }));
    }
    if m == end {
        return Ok(Step::Done(()));
    }
    Ok(Step::Going(GapBoxes::Head(Head::First)))
}

// A header in the gap is read.
fn gap_headed(end: u64, h: Header, m: u64) -> GapAnswer
    ensures { (f : Flow) → view f result ≡ after_header (gap_boxes end) wrap_gap tt m h f }
{
    let span = box_span(end, h, gap_kind_flaw(h.kind))?;
    gap_skip(end, span.end, m)
}

// One byte of the gap, which ends at `end`; `n` bytes stand before it.
pub fn gap_byte(end: u64, s: GapBoxes, n: u64, b: u8) -> Result<Step<GapBoxes, ()>, Refusal>
    requires { Within (gap_bounds s) × (n < limit) }
    ensures { (f : Flow) → view f result ≡ step_gap end s f n b }
{
    match s {
        GapBoxes::Head(h) => match header::head_byte(end, h, n, b)? {
            Step::Going(h) => Ok(Step::Going(GapBoxes::Head(h))),
            Step::Done(h) => gap_headed(end, h, n + 1),
        },
        GapBoxes::Body { stop } => gap_skip(end, stop, n + 1),
    }
}

// A box up to the top index gives the index, where it is that; else nothing.
type Gives = Option<IndexRead>;

// What a byte of a body makes of it: it goes on, or it is over.
type BodyAnswer = Result<Step<OpeningBody, Gives>, Refusal>;

// A `styp` that is being read: the brand wanted, the box, and whether it has listed the brand so far.
#[derive(Clone, Copy)]
struct Styp {
    brand: u64,
    span: Span,
    listed: bool,
}

impl Styp {
    // A number of it goes on, or the next one begins.
    fn number(self, part: StypPart, more: u64, acc: u64) -> BodyAnswer
        ensures { result ≡ Ok (Step.Going (OpeningBody.Styp self.span part self.listed more acc)) }
    {
        Ok(Step::Going(OpeningBody::Styp {
            span: self.span,
            part,
            listed: self.listed,
            more,
            acc,
        }))
    }

    // A compatible brand follows, or the box ends and must have listed the brand wanted.
    fn brands_from(self, m: u64) -> BodyAnswer
        ensures { (f : Flow) → view_as given f result ≡ brands_from self.span self.listed f m }
    {
        if m != self.span.end {
            return self.number(StypPart::Brand, 3, 0);
        }
        if self.listed {
            return Ok(Step::Done(None));
        }
        Err(Refusal {
            number: 8,
            place: self.span.pos,
        })
    }

    // A number of it is read.
    fn ends(self, part: StypPart, v: u64, m: u64) -> BodyAnswer
        ensures { (f : Flow) → view_as given f result ≡ styp_ends self.brand self.span part self.listed v f m }
    {
        match part {
            StypPart::Major => self.number(StypPart::Minor, 3, 0),
            StypPart::Minor => self.brands_from(m),
            StypPart::Brand => {
                let listed = self.listed || v == self.brand;
                Styp { listed, ..self }.brands_from(m)
            }
        }
    }

    // One byte of a number of it.
    fn byte(self, part: StypPart, more: u64, acc: u64, n: u64, b: u8) -> BodyAnswer
        requires { (acc < 72057594037927936) × (n < limit) }
        ensures { (f : Flow) → view_as given f result ≡ step_opening_body self.brand (OpeningBody.Styp self.span part self.listed more acc) f n b }
    {
        let v = header::spelled(acc, b);
        if more == 0 {
            return self.ends(part, v, n + 1);
        }
        self.number(part, more - 1, v)
    }
}

// The boxes up to the top index, as a list; `brand` is the brand wanted. Its bodies store bytes in the work area, so that it is no `BodyList`.
#[derive(Clone, Copy)]
struct OpeningList {
    brand: u64,
}

impl BoxList for OpeningList {
    type Known = bool;

    type Body = OpeningBody;

    type Gives = Gives;

    type Whole = IndexRead;

    ghost Gave = { OpeningGave };

    ghost gave = { given };

    ghost boxes = { λ l. opening l.brand };

    ghost Flows = { λ l f. ⊤ };

    ghost flow = { λ l. flow_of 0 0 0 [] [] };

    fn end(&self) -> u64 {
        LIMIT
    }

    #[tactic(auto, using(crate::proofs::OpeningSteps::opening_told))]
    fn flaw(&self, branded: bool, h: Header) -> Option<u64> {
        top_flaw(h, opening_kind_flaw(branded, h.kind))
    }

    #[tactic(auto, using(lists::proofs::Laws::skipped), unfolding(state::specs::Opening::begin_opening, basics::specs::Choose::pick))]
    fn begin(&self, _branded: bool, h: Header, n: u64) -> BodyAnswer {
        let span = Span {
            pos: h.pos,
            end: h.pos + h.size,
        };
        let stop = span.end;
        match h.kind {
            STYP => Ok(Step::Going(OpeningBody::Styp {
                span,
                part: StypPart::Major,
                listed: false,
                more: 3,
                acc: 0,
            })),
            SIDX => Ok(Step::Going(OpeningBody::Index(span, index::index_begin()))),
            _ => Ok(skip_to(stop, n, OpeningBody::Skip { stop }, None)),
        }
    }

    // After a `styp` or a skipped box others follow; the top index ends the list.
    #[tactic(auto, unfolding(state::specs::Opening::close_opening, lists::specs::Listed::on_from, machine::specs::Faults::unless))]
    fn close(&self, _branded: bool, g: Gives, _n: u64) -> Result<Step<bool, IndexRead>, Refusal> {
        match g {
            None => Ok(Step::Going(true)),
            Some(x) => Ok(Step::Done(x)),
        }
    }

    #[tactic(auto, unfolding(machine::specs::Faults::lowest))]
    fn beside(&self, _branded: bool, x: Refusal, _n: u64) -> Refusal {
        x
    }

    ghost flows = { λ l. tt };

    ghost kept = { λ l. refl };

    ghost box_kept = { λ l a. refl };

    ghost beyond = { λ l a h f. opening_beyond a h };
}

// One byte of a body. The top index does not look at the time at which an entry starts, so that any will do.
fn body_byte(brand: u64, s: OpeningBody, n: u64, b: u8, work: &mut [u8]) -> BodyAnswer
    requires { Within (opening_body_bounds s) × (n < limit) × (work_bytes ≤ length work.old) }
    ensures { (leaves at last : ℕ) (table : List ℕ) →
        view_as given (flow_of leaves at last work.new table) result
        ≡ step_opening_body brand s (flow_of leaves at last work.old table) n b }
{
    match s {
        OpeningBody::Skip { stop } => Ok(skip_to(stop, n + 1, s, None)),
        OpeningBody::Styp {
            span,
            part,
            listed,
            more,
            acc,
        } => {
            let styp = Styp {
                brand,
                span,
                listed,
            };
            styp.byte(part, more, acc, n, b)
        }
        OpeningBody::Index(span, i) => {
            match index::index_byte(Where::Topmost, span, i, 0, n, b, work)? {
                Step::Going(i) => Ok(Step::Going(OpeningBody::Index(span, i))),
                Step::Done(x) => Ok(Step::Done(Some(x))),
            }
        }
    }
}

// One byte up to the end of the top index; `n` bytes stand before it.
pub fn opening_byte(
    brand: u64,
    s: OpeningBoxes,
    n: u64,
    b: u8,
    work: &mut [u8],
) -> Result<Step<OpeningBoxes, IndexRead>, Refusal>
    requires { Within (opening_bounds s) × (n < limit) × (work_bytes ≤ length work.old) }
    ensures { (leaves at last : ℕ) (table : List ℕ) →
        view (flow_of leaves at last work.new table) result
        ≡ step_opening brand s (flow_of leaves at last work.old table) n b }
{
    let list = OpeningList { brand };
    match s {
        BoxesSo::Head(branded, h) => {
            after_head(&list, branded, header::head_byte(LIMIT, h, n, b), n + 1)
        }
        BoxesSo::Body(branded, body) => {
            after_body(&list, branded, body_byte(brand, body, n, b, work), n + 1)
        }
    }
}
