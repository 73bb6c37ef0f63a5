// Lists the leaves of the segment that comes on standard input: document 01's listing program.
#![tactic(auto)]

ghost use Rattle.std.specs.Prelude.{◌≡◌, ◌<◌, length};

use feed::{feed, finish, start};
use listing::{Line, heading, table_line};
use machine::Refusal;
use state::State;
use std::io;
use std::io::Read;
use table::NUMBERS;

// Each read but the last gives a byte at least, and a feed refuses byte 268,435,457 if none before it: what is not refused is read
// in no more turns. What follows a refusal is left after as many.
const TURNS: u64 = 268435458;

const LINE_END: u8 = 10;

// A buffer of zeros: a contract that says only its length keeps what it holds out of the proof of `main`.
fn zeros<T: Copy + Default, const N: usize>() -> [T; N]
    ensures { N ≡ length result }
{
    [T::default(); N]
}

// One read, and a feed of what it gave: the state after it, or none where the input ended. After a refusal, which is kept, the rest is
// read too, and passes at once.
fn read_part(
    input: &mut impl Read,
    s: State,
    part: &mut [u8],
    work: &mut [u8],
    table: &mut [u64],
) -> io::Result<Option<State>> {
    let n = input.read(part)?;
    if n == 0 {
        return Ok(None);
    }
    let fed = feed(s, &part[..n], work, table);
    Ok(Some(fed.state))
}

// A proved loop has to end, and nothing says that the input does: so the turns are counted.
fn read_segment(
    input: &mut impl Read,
    part: &mut [u8],
    work: &mut [u8],
    table: &mut [u64],
) -> io::Result<State> {
    let mut s = start(*b"msdh");
    for _ in 0..TURNS {
        let Some(next) = read_part(input, s, part, work, table)? else {
            break;
        };
        s = next;
    }
    Ok(s)
}

// A line's text and its end, by one write.
fn print_line(rt: &impl Print, line: Line) -> io::Result<()>
    requires { line.length < 192 }
{
    let mut text = line.bytes;
    text[line.length] = LINE_END;
    rt.write_all(&text[..line.length + 1])
}

// The table holds every leaf that was counted, since one beyond the room is refused.
fn print_leaves(rt: &impl Print, leaves: u64, table: &[u64]) -> io::Result<()> {
    let held = table.len() / NUMBERS;
    for i in 0..held.min(leaves as usize) {
        print_line(rt, table_line(table, i))?;
    }
    Ok(())
}

fn print_listing(rt: &impl Print, answer: Result<u64, Refusal>, table: &[u64]) -> io::Result<()> {
    print_line(rt, heading(answer))?;
    if let Ok(leaves) = answer {
        return print_leaves(rt, leaves, table);
    }
    Ok(())
}

// As much as is read at once, four levels of 12,288 bytes, and room for 256 leaves. A read that fails says nothing of the segment: it is
// told on standard error, and nothing is listed.
fn main(rt: HostRuntime) -> io::Result<()> {
    let mut part = zeros::<u8, 65536>();
    let mut work = zeros::<u8, 49152>();
    let mut table = zeros::<u64, 1536>();
    let s = match read_segment(&mut rt.stdin(), &mut part, &mut work, &mut table) {
        Ok(s) => s,
        Err(e) => return eprintln!(rt; "standard input: {e}"),
    };
    let finished = finish(s);
    print_listing(&rt, finished.answer, &table).or_else(|e| eprintln!(rt; "standard output: {e}"))
}
