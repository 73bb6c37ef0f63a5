// One byte of a list of boxes, whatever list it is.
#![tactic(auto)]

ghost use Rattle.std.specs.Prelude.{ℕ, ◌+◌, ◌<◌, ◌≤◌, ◌≡◌, List, eqb, leb, Ok};
ghost use Rattle.basics.specs.Choose.{pick};
ghost use Rattle.segment.specs.Constants.{limit, time_limit};
ghost use Rattle.machine.specs.Faults.{lowest};
ghost use Rattle.machine.specs.Lists.{Boxes};
ghost use Rattle.machine.specs.declared.Header.{Header};
ghost use Rattle.machine.specs.Run.{done, bad, lift};
ghost use Rattle.machine.proofs.Kept.{Each};
ghost use Rattle.flaws.specs.Flaws.{flaw_of, numbered};
ghost use Rattle.flaws.proofs.Flaws.{Beyond};
ghost use Rattle.state.specs.Flow.{Flow, Left, left};
ghost use Rattle.state.specs.Ranges.{Bound, Within};
ghost use Rattle.state.specs.Views.{view, view_as};
ghost use Rattle.header.specs.Views.{after_body, after_header, after_head};
ghost use Rattle.lists.specs.Listed.{lower, ended, boxed, next_head, on_from, list_bounds, step_list};

use flaws::size_flaw;
use header::{head_byte, refused_head};
use machine::{BoxesSo, Head, Header, Refusal, Step};
use state::Span;

// A list of boxes: what is known of it between two boxes, the body of a box, what a box gives, and what the list gives where it is over. How it
// reads a byte of a body stands in `BodyList`, where its bodies store nothing.
pub trait BoxList {
    type Known: Copy;

    type Body: Copy;

    type Gives: Copy;

    type Whole: Copy;

    // The list, as the definition has it; what of all that flows it speaks of, and something that flows so.
    ghost Gave: { Type 0 };

    ghost gave: { Self.Gives → Gave };

    ghost boxes: { Self → Boxes Self.Known Self.Body Gave Self.Whole Flow Left };

    ghost Flows: { Self → Flow → Type 0 };

    ghost flow: { Self → Flow };

    // Where the list ends.
    fn end(&self) -> u64
        ensures { (a : Self.Known) → result ≡ ((boxes self.now).box a).end };

    // The lowest number that the header of a box shows beyond its size.
    fn flaw(&self, so: Self::Known, h: Header) -> Option<u64>
        ensures { (f : Flow) → Flows self.now f → result ≡ numbered (flaw_of (((boxes self.now).box so).shown h f)) };

    // The header of a box is read, and shows no fault: its body begins.
    fn begin(
        &self,
        so: Self::Known,
        h: Header,
        n: u64,
    ) -> Result<Step<Self::Body, Self::Gives>, Refusal>
        requires { h.pos + h.size < time_limit }
        ensures { (f : Flow) → Flows self.now f → view_as gave f result ≡ ((boxes self.now).box so).begin h f n };

    // A box ends with what it gives: the list goes on, or it is over.
    fn close(
        &self,
        so: Self::Known,
        g: Self::Gives,
        n: u64,
    ) -> Result<Step<Self::Known, Self::Whole>, Refusal>
        ensures { (f : Flow) → Flows self.now f → view f result ≡ on_from ((boxes self.now).close so (gave g) f n) f };

    // A refusal at a byte inside the list, and what the list itself shows beside it.
    fn beside(&self, so: Self::Known, x: Refusal, n: u64) -> Refusal
        ensures { (f : Flow) → Flows self.now f → result ≡ lowest x ((boxes self.now).beside so (left f) n) };

    ghost flows: { (l : Self) → Flows l (flow l) };

    ghost kept: { (l : Self) → (boxes l).kept ≡ left };

    ghost box_kept: { (l : Self) (a : Self.Known) → ((boxes l).box a).left ≡ left };

    ghost beyond: { (l : Self) (a : Self.Known) (h : Header) (f : Flow) → Each (Beyond h.pos) (((boxes l).box a).shown h f) };
}

// A list of boxes whose bodies answer a byte with nothing stored.
pub trait BodyList: BoxList {
    ghost bounds: { Self.Body → List Bound };

    // One byte of the body of a box.
    fn body(
        &self,
        so: Self::Known,
        s: Self::Body,
        n: u64,
        b: u8,
    ) -> Result<Step<Self::Body, Self::Gives>, Refusal>
        requires { Within (bounds s) × (n < limit) }
        ensures { (f : Flow) → Self.Flows self.now f → view_as Self.gave f result ≡ ((Self.boxes self.now).box so).body s f n b };
}

// A body that is skipped is over where `n` reaches its end, with what it gives.
#[tactic(auto, unfolding(basics::specs::Choose::pick))]
pub fn skip_to<S: Copy, R: Copy>(stop: u64, n: u64, skip: S, gives: R) -> Step<S, R>
    ensures { result ≡ pick (leb stop n) (Step.Done gives) (Step.Going skip) }
{
    if stop <= n {
        return Step::Done(gives);
    }
    Step::Going(skip)
}

// A refusal at a byte inside a list: where that byte is the list's last, what the list lacks is shown beside it.
#[tactic(auto, unfolding(basics::specs::Choose::pick, crate::specs::Listed::lower))]
pub fn beside(list: Span, lack: Option<u64>, x: Refusal, n: u64) -> Refusal
    ensures { result ≡ pick (eqb n list.end) (lower lack list.pos x) x }
{
    match lack {
        Some(number) if n == list.end && number < x.number => Refusal {
            number,
            place: list.pos,
        },
        _ => x,
    }
}

// After a box that shows no fault: the list goes on, or it ends, and then nothing may lack.
#[tactic(auto, unfolding(basics::specs::Choose::pick, crate::specs::Listed::ended))]
pub fn after_box<A: Copy, R: Copy>(
    list: Span,
    lack: Option<u64>,
    so: A,
    whole: R,
    n: u64,
) -> Result<Step<A, R>, Refusal>
    ensures { result ≡ pick (eqb n list.end) (ended lack list.pos (Step.Done whole)) (Ok (Step.Going so)) }
{
    if n != list.end {
        return Ok(Step::Going(so));
    }
    match lack {
        Some(number) => Err(Refusal {
            number,
            place: list.pos,
        }),
        None => Ok(Step::Done(whole)),
    }
}

// The list goes on with the header of its next box, or it is over.
#[tactic(auto, unfolding(machine::specs::Run::lift))]
pub fn next_box<A: Copy, B: Copy, R: Copy>(
    r: Result<Step<A, R>, Refusal>,
) -> Result<Step<BoxesSo<A, B>, R>, Refusal>
    ensures { (f : Flow) → view f result ≡ lift next_head done bad (view f r) }
{
    match r? {
        Step::Going(so) => Ok(Step::Going(BoxesSo::Head(so, Head::First))),
        Step::Done(whole) => Ok(Step::Done(whole)),
    }
}

// What the body of a box answers, in its list.
#[tactic(auto, unfolding(machine::specs::Run::lift))]
pub fn after_body<L: BoxList>(
    list: &L,
    so: L::Known,
    r: Result<Step<L::Body, L::Gives>, Refusal>,
    n: u64,
) -> Result<Step<BoxesSo<L::Known, L::Body>, L::Whole>, Refusal>
    ensures { (f : Flow) → L.Flows list.now f → view f result ≡ after_body (L.boxes list.now) boxed so n (view_as L.gave f r) }
{
    match r {
        Ok(Step::Going(s)) => Ok(Step::Going(BoxesSo::Body(so, s))),
        Ok(Step::Done(g)) => next_box(list.close(so, g, n)),
        Err(x) => Err(list.beside(so, x, n)),
    }
}

// The header of a box is read: `n` bytes up to its last.
#[tactic(auto, unfolding(machine::specs::Run::lift))]
fn after_header<L: BoxList>(
    list: &L,
    so: L::Known,
    h: Header,
    n: u64,
) -> Result<Step<BoxesSo<L::Known, L::Body>, L::Whole>, Refusal>
    ensures { (f : Flow) → L.Flows list.now f → view f result ≡ after_header (L.boxes list.now) boxed so n h f }
{
    let end = list.end();
    match size_flaw(end, h).or(list.flaw(so, h)) {
        Some(number) => Err(list.beside(
            so,
            Refusal {
                number,
                place: h.pos,
            },
            n,
        )),
        None => after_body(list, so, list.begin(so, h, n), n),
    }
}

// What a byte of a header answers, in its list.
#[tactic(auto, unfolding(machine::specs::Run::lift))]
pub fn after_head<L: BoxList>(
    list: &L,
    so: L::Known,
    r: Result<Step<Head, Header>, Refusal>,
    n: u64,
) -> Result<Step<BoxesSo<L::Known, L::Body>, L::Whole>, Refusal>
    ensures { (f : Flow) → L.Flows list.now f → view f result ≡ after_head (L.boxes list.now) boxed so n (view f r) }
{
    match r {
        Ok(Step::Going(h)) => Ok(Step::Going(BoxesSo::Head(so, h))),
        Ok(Step::Done(h)) => after_header(list, so, h, n),
        Err(_) => Err(list.beside(so, refused_head(r), n)),
    }
}

// One byte of a list of boxes; `n` bytes stand before the byte.
#[tactic(auto, unfolding(crate::specs::Listed::list_bounds, crate::specs::Listed::step_list))]
pub fn list_byte<L: BodyList>(
    list: &L,
    s: BoxesSo<L::Known, L::Body>,
    n: u64,
    b: u8,
) -> Result<Step<BoxesSo<L::Known, L::Body>, L::Whole>, Refusal>
    requires { Within (list_bounds L.bounds s) × (n < limit) }
    ensures { (f : Flow) → L.Flows list.now f → view f result ≡ step_list (L.boxes list.now) s f n b }
{
    match s {
        BoxesSo::Head(so, h) => after_head(list, so, head_byte(list.end(), h, n, b), n + 1),
        BoxesSo::Body(so, body) => after_body(list, so, list.body(so, body, n, b), n + 1),
    }
}
