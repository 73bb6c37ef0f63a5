// Fields and box headers of lent bytes, at a position in them. Positions count from the first byte lent.
#![tactic(auto)]

ghost use Rattle.std.specs.Prelude.{◌≡◌, true, ◌+◌, ◌*◌, ◌^◌, ◌<◌, ◌≤◌, length};
ghost use Rattle.fields.specs.Answers.{number_at, some_width, field_at, Small, stop_at, checked_at, large_at, head_at, farthest};

use machine::Header;

// How many bytes a header has: with a size of 32 bits, and with one of 64.
const SHORT: usize = 8;

const LONG: usize = 16;

// A fault: its number and its place, how many bytes were read up to the one that shows it, and how many leaves were listed. The last
// is 0 but where entries are passed; with it a refusal is as long as a header, and is handed on without being copied.
#[derive(Clone, Copy)]
pub struct Stop {
    pub number: u64,
    pub place: u64,
    pub count: u64,
    pub leaves: u64,
}

// Why a reading goes no further: the bytes end, or a fault shows.
#[derive(Clone, Copy)]
pub enum Halt {
    Ended,
    Bad(Stop),
}

// A fault of the box at `pos`, met at the byte before `next`.
pub fn stop_at(number: u64, pos: usize, next: usize) -> Stop
    ensures { result ≡ stop_at number pos next }
{
    Stop {
        number,
        place: pos as u64,
        count: next as u64,
        leaves: 0,
    }
}

fn wide(b: u8) -> u64
    ensures { (result ≡ b) × (result < 256) }
{
    b as u64
}

// A number of 16 bits.
fn pair_at(bytes: &[u8], i: usize) -> u64
    requires { i + 2 ≤ length bytes.now }
    ensures { (result ≡ number_at 2 bytes.now i) × (result < 65536) }
{
    let a = wide(bytes[i]);
    let b = wide(bytes[i + 1]);
    a * 256 + b
}

// A number of 32 bits.
pub fn word_at(bytes: &[u8], i: usize) -> u64
    requires { i + 4 ≤ length bytes.now }
    ensures { (result ≡ number_at 4 bytes.now i) × (result < 4294967296) }
{
    let a = wide(bytes[i]);
    let b = wide(bytes[i + 1]);
    let c = wide(bytes[i + 2]);
    let d = wide(bytes[i + 3]);
    ((a * 256 + b) * 256 + c) * 256 + d
}

// A number of 64 bits.
fn long_at(bytes: &[u8], i: usize) -> u64
    requires { i + 8 ≤ length bytes.now }
    ensures { result ≡ number_at 8 bytes.now i }
{
    let high = word_at(bytes, i);
    let low = word_at(bytes, i + 4);
    high * 4294967296 + low
}

// A number of so many bytes: 1, 2, 4 or 8.
fn number_at(bytes: &[u8], at: usize, width: usize) -> u64
    requires { (some_width width ≡ true) × (at + width ≤ length bytes.now) }
    ensures { (result ≡ number_at width bytes.now at) × (result < 256 ^ width) }
{
    match width {
        1 => wide(bytes[at]),
        2 => pair_at(bytes, at),
        4 => word_at(bytes, at),
        _ => long_at(bytes, at),
    }
}

// The field of so many bytes at a position: its value and the position after it; none where the bytes end before it does.
pub fn field_at(bytes: &[u8], at: usize, width: usize) -> Option<(u64, usize)>
    requires { (some_width width ≡ true) × (at ≤ farthest) }
    ensures { (result ≡ field_at bytes.now at width) × Small width result }
{
    let next = at + width;
    if bytes.len() < next {
        return None;
    }
    Some((number_at(bytes, at, width), next))
}

// A header of so many bytes is read: its size is at least its own length, and its box ends in its container.
fn checked(at: usize, end: usize, kind: u64, size: u64, head: usize) -> Result<Header, Halt>
    requires { (at + head ≤ end) × (at + head ≤ farthest) }
    ensures { result ≡ checked_at at end kind size head }
{
    if size < head as u64 {
        return Err(Halt::Bad(stop_at(4, at, at + head)));
    }
    if ((end - at) as u64) < size {
        return Err(Halt::Bad(stop_at(5, at, at + head)));
    }
    Ok(Header {
        pos: at as u64,
        kind,
        size,
        head: head as u64,
    })
}

// Size 1: a 64-bit size follows the type.
fn large_head(bytes: &[u8], at: usize, end: usize, kind: u64) -> Result<Header, Halt>
    requires { at + 16 ≤ farthest }
    ensures { result ≡ large_at bytes.now at end kind }
{
    if end < at + LONG {
        return Err(Halt::Bad(stop_at(5, at, at + SHORT)));
    }
    let Some((size, _)) = field_at(bytes, at + SHORT, 8) else {
        return Err(Halt::Ended);
    };
    checked(at, end, kind, size, LONG)
}

// The header of the box at a position, whose container ends at `end`.
pub fn head_at(bytes: &[u8], at: usize, end: usize) -> Result<Header, Halt>
    requires { at + 16 ≤ farthest }
    ensures { result ≡ head_at bytes.now at end }
{
    if bytes.len() <= at {
        return Err(Halt::Ended);
    }
    if end < at + SHORT {
        return Err(Halt::Bad(stop_at(5, at, at + 1)));
    }
    if bytes.len() < at + SHORT {
        return Err(Halt::Ended);
    }
    let size = word_at(bytes, at);
    let kind = word_at(bytes, at + 4);
    if size == 1 {
        return large_head(bytes, at, end, kind);
    }
    checked(at, end, kind, size, SHORT)
}
