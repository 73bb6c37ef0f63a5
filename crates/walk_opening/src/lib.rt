// The boxes up to the top index, and those of the gap after it, by structure. No body that is skipped is looked at.
#![tactic(auto)]

ghost use Rattle.std.specs.Prelude.{◌≡◌, ◌+◌, ◌-◌, ◌/◌, ◌%◌, ◌≤◌, length};
ghost use Rattle.segment.specs.Constants.{limit, styp, sidx};
ghost use Rattle.state.specs.Flow.{work_bytes};
ghost use Rattle.state.specs.Opening.{span_of};
ghost use Rattle.state.specs.Rows.{opening_faults};
ghost use Rattle.descent.specs.Opening.{styp_d, opening_body_d};
ghost use Rattle.flaws.specs.Flaws.{flaw_of, numbered};
ghost use Rattle.walk_opening.specs.Steps.{lists_brand, BoxHere, StypLong, BoxPassed, IndexFound};
ghost use Rattle.walk_opening.specs.Views.{GapWalked, OpeningWalked};

use fields::{Halt, stop_at, word_at};
use flaws::{SIDX, STYP, gap_kind_flaw, opening_kind_flaw, top_flaw};
use index::Where;
use machine::Header;
use reader::{quick_head, read_head, skip_to};
use state::{IndexRead, LIMIT};
use walk_index::index_walk;

// The gap from `from` to `end`.
pub fn gap_walk(bytes: &[u8], from: usize, end: usize) -> Result<(), Halt>
    requires { (from ≤ end) × (end ≤ limit) × (from ≤ length bytes.now) }
    ensures { GapWalked bytes.now from end result }
{
    let mut at = from;
    // No `for`: each box says where the next one begins.
    while at < end {
        let h = read_head(bytes, at, end)?;
        if let Some(flaw) = top_flaw(h, gap_kind_flaw(h.kind)) {
            return Err(Halt::Bad(stop_at(flaw, at, at + (h.head as usize)))); // of the gap
        }
        at += h.size as usize;
        skip_to(bytes, at)?;
    }
    Ok(())
}

// Whether a brand is among those from `from` to `end`.
fn lists_brand(brand: u64, bytes: &[u8], from: usize, end: usize) -> bool
    requires { (from ≤ end) × (end ≤ length bytes.now) × ((end - from) % 4 ≡ 0) × (end ≤ limit) }
    ensures { result ≡ lists_brand brand bytes.now from ((end - from) / 4) }
{
    for b in bytes[from..end].as_chunks::<4>().0 {
        if word_at(b, 0) == brand {
            return true;
        }
    }
    false
}

// A `styp`: major brand, minor version, compatible brands, among which is the one wanted.
fn styp_box(brand: u64, h: Header, bytes: &[u8], at: usize) -> Result<(), Halt>
    requires { BoxHere bytes.now at limit h × StypLong h }
    ensures { BoxPassed (λ g. styp_d brand (span_of g)) bytes.now at h result }
{
    let end = at + (h.size as usize);
    skip_to(bytes, end)?;
    if lists_brand(brand, bytes, at + (h.head as usize) + 8, end) {
        return Ok(());
    }
    Err(Halt::Bad(stop_at(8, at, end)))
}

// A box up to the top index, other than that.
fn opening_box(brand: u64, h: Header, bytes: &[u8], at: usize) -> Result<(), Halt>
    requires { BoxHere bytes.now at limit h × (h.kind ≡ styp → StypLong h) × (h.kind ≡ sidx → ⊥) }
    ensures { BoxPassed (opening_body_d brand) bytes.now at h result }
{
    if h.kind == STYP {
        return styp_box(brand, h, bytes, at);
    }
    skip_to(bytes, at + (h.size as usize))
}

// The number that a header up to the top index shows by its length, and else by its type.
fn opening_flaw(branded: bool, h: Header) -> Option<u64>
    ensures { result ≡ numbered (flaw_of (opening_faults branded h)) }
{
    if let Some(flaw) = top_flaw(h, None) {
        return Some(flaw);
    }
    opening_kind_flaw(branded, h.kind)
}

// The boxes up to the header of the top index; the limit works as the end of their container.
// `styp` says that the `styp` was read.
fn find_index(brand: u64, styp: bool, bytes: &[u8], end: usize) -> Result<Header, Halt>
    requires { (length bytes.now ≤ end) × (end ≤ limit) }
    ensures { IndexFound brand styp bytes.now end result }
{
    let mut at: usize = 0;
    let mut branded = styp;
    // No `for`: each box says where the next one begins.
    while at < end {
        let h = quick_head(bytes, at, end)?;
        if let Some(flaw) = opening_flaw(branded, h) {
            return Err(Halt::Bad(stop_at(flaw, at, at + (h.head as usize))));
        }
        if h.kind == SIDX {
            return Ok(h);
        }
        opening_box(brand, h, bytes, at)?;
        branded = true;
        at += h.size as usize;
    }
    Err(Halt::Ended)
}

// The boxes up to the end of the top index, from the first byte lent on, which stands at the place `base`; `branded` where the `styp`
// stands before them.
pub fn opening_walk(
    brand: u64,
    branded: bool,
    bytes: &[u8],
    base: u64,
    work: &mut [u8],
) -> Result<(IndexRead, usize), Halt>
    requires { (base + length bytes.now ≤ limit) × (work_bytes ≤ length work.old) }
    ensures { OpeningWalked brand branded base bytes.now work.old work.new result }
{
    let h = find_index(brand, branded, bytes, (LIMIT - base) as usize)?;
    let pos = h.pos as usize;
    let end = (h.pos + h.size) as usize;
    let x = index_walk(
        Where::Topmost,
        0,
        bytes,
        base,
        pos,
        (h.pos + h.head) as usize,
        end,
        work,
    )?;
    Ok((x, end))
}
