// The first box of an index entry, one byte at a time: it must be an inner index, which fills its entry. One box alone, so that it is no `BoxList`.
#![tactic(auto)]

ghost use Rattle.std.specs.Prelude.{◌≡◌, List, ℕ, ◌<◌, ◌≤◌, length};
ghost use Rattle.segment.specs.Constants.{limit};
ghost use Rattle.machine.specs.Lists.{headed, step_box};
ghost use Rattle.state.specs.Flow.{Flow, work_bytes};
ghost use Rattle.state.specs.Stages.{inner_kind};
ghost use Rattle.state.specs.Ranges.{Within};
ghost use Rattle.state.specs.Calls.{flow_of};
ghost use Rattle.inner.specs.Views.{inner_phase, view_inner, box_bounds};

use flaws::{box_span, inner_kind_flaw};
use index::Where;
use machine::{Header, Refusal, Step};
use state::{IndexRead, InnerBox, Slot, Top};

// What a byte makes of the first box of an index entry: it goes on, or the inner index is read.
type Answer = Result<Step<InnerBox, IndexRead>, Refusal>;

// The header is read: a fault is refused, or the index begins.
fn inner_headed(slot: Slot, depth: u64, h: Header) -> Answer
    ensures { (top : Top) (m : ℕ) (f : Flow) → view_inner f result ≡ headed (inner_kind top slot depth) h f m }
{
    let span = box_span(slot.end, h, inner_kind_flaw(depth, h.kind))?;
    Ok(Step::Going(InnerBox::Body(span, index::index_begin())))
}

// One byte of the first box of the entry `slot`, which starts at the time `at`; `n` bytes stand before it.
pub fn inner_byte(
    top: Top,
    slot: Slot,
    depth: u64,
    s: InnerBox,
    at: u64,
    n: u64,
    b: u8,
    work: &mut [u8],
) -> Result<Step<InnerBox, IndexRead>, Refusal>
    requires { Within (box_bounds depth s) × (at ≤ slot.until) × (n < limit) × (work_bytes ≤ length work.old) }
    ensures { (leaves last : ℕ) (table : List ℕ) →
        view_inner (flow_of leaves at last work.new table) result
        ≡ step_box (inner_kind top slot depth) (inner_phase s) (flow_of leaves at last work.old table) n b }
{
    match s {
        InnerBox::Head(h) => match header::head_byte(slot.end, h, n, b)? {
            Step::Going(h) => Ok(Step::Going(InnerBox::Head(h))),
            Step::Done(h) => inner_headed(slot, depth, h),
        },
        InnerBox::Body(span, i) => {
            let p = Where::Under(top, slot, depth);
            let answer = index::index_byte(p, span, i, at, n, b, work);
            let Ok(step) = answer else {
                return Err(index::refused_index(answer));
            };
            match step {
                Step::Going(i) => Ok(Step::Going(InnerBox::Body(span, i))),
                Step::Done(x) => Ok(Step::Done(x)),
            }
        }
    }
}
