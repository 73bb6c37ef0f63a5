// Fields and box headers of a whole segment, or of a piece of one: what the walks by structure call.
#![tactic(auto)]

ghost use Rattle.std.specs.Prelude.{◌≡◌, true, ◌+◌, ◌≤◌, length, Some, None, Ok, Err};
ghost use Rattle.machine.specs.declared.Header.{Header};
ghost use Rattle.basics.specs.Choose.{pick};
ghost use Rattle.fields.specs.Answers.{some_width, field_at, Small, head_at, farthest};
ghost use Rattle.reader.specs.Skips.{skip_at};

use fields::Halt;
use machine::Header;

// How many bytes a header with a size of 32 bits has.
const SHORT: usize = 8;

// The lent bytes and a position in them. Its methods are thin and stay in this crate: each takes it apart and calls a function on the
// bytes and the position.
#[derive(Clone, Copy)]
struct Reader<'a> {
    bytes: &'a [u8],
    at: usize,
}

impl<'a> Reader<'a> {
    fn next_field(self, width: usize) -> Option<(u64, usize)>
        requires { (some_width width ≡ true) × (self.at ≤ farthest) }
        ensures { (result ≡ field_at self.entry.bytes.now self.entry.at width) × Small width result }
    {
        fields::field_at(self.bytes, self.at, width)
    }

    fn next_head(self, end: usize) -> Result<Header, Halt>
        requires { self.at + 16 ≤ farthest }
        ensures { result ≡ head_at self.entry.bytes.now self.entry.at end }
    {
        fields::head_at(self.bytes, self.at, end)
    }
}

// The field of so many bytes at a position.
pub fn read_field(bytes: &[u8], at: usize, width: usize) -> Option<(u64, usize)>
    requires { (some_width width ≡ true) × (at ≤ farthest) }
    ensures { (result ≡ field_at bytes.now at width) × Small width result }
{
    Reader { bytes, at }.next_field(width)
}

// A number of 32 bits, or of 64.
#[tactic(auto, unfolding(basics::specs::Choose::pick))]
pub fn read_sized(big: bool, bytes: &[u8], at: usize) -> Option<(u64, usize)>
    requires { at ≤ farthest }
    ensures { result ≡ field_at bytes.now at (pick big 8 4) }
{
    read_field(bytes, at, if big { 8 } else { 4 })
}

// The header of the box at a position, whose container ends at `end`.
pub fn read_head(bytes: &[u8], at: usize, end: usize) -> Result<Header, Halt>
    requires { at + 16 ≤ farthest }
    ensures { result ≡ head_at bytes.now at end }
{
    Reader { bytes, at }.next_head(end)
}

// A skipped body, up to a position.
#[tactic(auto, unfolding(basics::specs::Choose::pick, crate::specs::Skips::skip_at))]
pub fn skip_to(bytes: &[u8], end: usize) -> Result<(), Halt>
    ensures { result ≡ skip_at bytes.now end }
{
    if bytes.len() < end {
        return Err(Halt::Ended);
    }
    Ok(())
}

// A header of 8 bytes that are there, and that shows no fault.
fn short_head(bytes: &[u8], at: usize, end: usize) -> Option<Header>
    requires { at + 16 ≤ farthest }
    ensures { (h : Header) → result ≡ Some h → head_at bytes.now at end ≡ Ok h }
{
    if bytes.len() < at + SHORT {
        return None;
    }
    let (size, next) = read_field(bytes, at, 4)?;
    if size < SHORT as u64 {
        return None;
    }
    // Where no 8 bytes are left up to `end`, this tells it too: a size is 8 at least here.
    if end < at + (size as usize) {
        return None;
    }
    let (kind, _) = read_field(bytes, next, 4)?;
    Some(Header {
        pos: at as u64,
        kind,
        size,
        head: SHORT as u64,
    })
}

// The same as `read_head`, where headers are many: nearly all of them have 8 bytes and show no fault, and are read at once.
pub fn quick_head(bytes: &[u8], at: usize, end: usize) -> Result<Header, Halt>
    requires { at + 16 ≤ farthest }
    ensures { result ≡ head_at bytes.now at end }
{
    match short_head(bytes, at, end) {
        Some(h) => Ok(h),
        None => {
            // A copy of the slice, made here, leaves it in registers where the header is read at once.
            let all = bytes;
            read_head(all, at, end)
        }
    }
}
