// The header of a box, one byte of it at a time.
#![tactic(auto)]

ghost use Rattle.std.specs.Prelude.{◌≡◌, ◌+◌, ◌*◌, ◌<◌, ◌≤◌};
ghost use Rattle.segment.specs.Constants.{limit};
ghost use Rattle.machine.specs.Heads.{sized, step_head};
ghost use Rattle.state.specs.Flow.{Flow, left};
ghost use Rattle.state.specs.Ranges.{Within, head_bounds};
ghost use Rattle.state.specs.Views.{view};
ghost use Rattle.header.specs.Views.{refusal_head};

use machine::{Head, Header, Refusal, Step};

// How many bytes a header has: with a size of 32 bits, and with one of 64.
const SHORT: u64 = 8;

const LONG: u64 = 16;

// The refusal that goes out where a byte of a header was not taken; of a byte that was taken there is none.
pub fn refused_head(r: Result<Step<Head, Header>, Refusal>) -> Refusal
    ensures { result ≡ refusal_head r }
{
    match r {
        Ok(_) => Refusal {
            number: 0,
            place: 0,
        },
        Err(x) => x,
    }
}

// A number's next byte. A number of eight bytes has seven before its last, so that no sum wraps.
pub fn spelled(acc: u64, b: u8) -> u64
    requires { acc < 72057594037927936 }
    ensures { result ≡ acc * 256 + b }
{
    acc * 256 + (b as u64)
}

fn first_byte(end: u64, n: u64, b: u8) -> Result<Step<Head, Header>, Refusal>
    requires { n < limit }
    ensures { (f : Flow) → view f result ≡ step_head left end Head.First f n b }
{
    if end < n + SHORT {
        return Err(Refusal {
            number: 5,
            place: n,
        });
    }
    Ok(Step::Going(Head::Size {
        pos: n,
        more: 2,
        acc: b as u64,
    }))
}

fn size_byte(
    end: u64,
    pos: u64,
    more: u64,
    acc: u64,
    n: u64,
    b: u8,
) -> Result<Step<Head, Header>, Refusal>
    requires { acc < 72057594037927936 }
    ensures { (f : Flow) → view f result ≡ step_head left end (Head.Size pos more acc) f n b }
{
    let v = spelled(acc, b);
    if more == 0 {
        return Ok(Step::Going(Head::Kind {
            pos,
            size: v,
            more: 3,
            acc: 0,
        }));
    }
    Ok(Step::Going(Head::Size {
        pos,
        more: more - 1,
        acc: v,
    }))
}

// Size and type are read. Size 1 means that a 64-bit size follows.
fn sized_by(end: u64, pos: u64, size: u64, kind: u64) -> Result<Step<Head, Header>, Refusal>
    requires { pos ≤ limit }
    ensures { (f : Flow) → view f result ≡ sized left end pos size kind f }
{
    if size != 1 {
        return Ok(Step::Done(Header {
            pos,
            kind,
            size,
            head: SHORT,
        }));
    }
    if end < pos + LONG {
        return Err(Refusal {
            number: 5,
            place: pos,
        });
    }
    Ok(Step::Going(Head::Large {
        pos,
        kind,
        more: 7,
        acc: 0,
    }))
}

fn kind_byte(
    end: u64,
    pos: u64,
    size: u64,
    more: u64,
    acc: u64,
    n: u64,
    b: u8,
) -> Result<Step<Head, Header>, Refusal>
    requires { (pos ≤ limit) × (acc < 72057594037927936) }
    ensures { (f : Flow) → view f result ≡ step_head left end (Head.Kind pos size more acc) f n b }
{
    let v = spelled(acc, b);
    if more == 0 {
        return sized_by(end, pos, size, v);
    }
    Ok(Step::Going(Head::Kind {
        pos,
        size,
        more: more - 1,
        acc: v,
    }))
}

fn large_byte(
    end: u64,
    pos: u64,
    kind: u64,
    more: u64,
    acc: u64,
    n: u64,
    b: u8,
) -> Result<Step<Head, Header>, Refusal>
    requires { acc < 72057594037927936 }
    ensures { (f : Flow) → view f result ≡ step_head left end (Head.Large pos kind more acc) f n b }
{
    let v = spelled(acc, b);
    if more == 0 {
        return Ok(Step::Done(Header {
            pos,
            kind,
            size: v,
            head: LONG,
        }));
    }
    Ok(Step::Going(Head::Large {
        pos,
        kind,
        more: more - 1,
        acc: v,
    }))
}

// One byte of a header whose container ends at `end`; `n` bytes stand before it.
pub fn head_byte(end: u64, h: Head, n: u64, b: u8) -> Result<Step<Head, Header>, Refusal>
    requires { Within (head_bounds h) × (n < limit) }
    ensures { (f : Flow) → view f result ≡ step_head left end h f n b }
{
    match h {
        Head::First => first_byte(end, n, b),
        Head::Size { pos, more, acc } => size_byte(end, pos, more, acc, n, b),
        Head::Kind {
            pos,
            size,
            more,
            acc,
        } => kind_byte(end, pos, size, more, acc, n, b),
        Head::Large {
            pos,
            kind,
            more,
            acc,
        } => large_byte(end, pos, kind, more, acc, n, b),
    }
}
