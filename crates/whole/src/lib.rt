// The reader of a whole lent segment: it answers, gives back the state and leaves both buffers as start, one feed of all the bytes and
// finish do, ending at the first refusal. It reads by structure, and looks at no byte that is skipped.
#![tactic(auto)]

ghost use Rattle.std.specs.Prelude.{◌≡◌, List, ℕ, ◌≤◌, min, length, take, drop};
ghost use Rattle.basics.specs.Bytes.{number};
ghost use Rattle.segment.specs.Constants.{limit};
ghost use Rattle.machine.specs.Faults.{refusal};
ghost use Rattle.state.specs.Flow.{work_bytes};
ghost use Rattle.state.specs.Calls.{out, whole_of};
ghost use Rattle.machine.specs.Limit.{beyond};
ghost use Rattle.descent.specs.Whole as defs;
ghost use Rattle.whole.specs.declared.Ending.TheVariants as ending;
ghost use Rattle.whole.specs.Views.{unlisted, Fits, WithinBytes, WithinLimit, segment_read, MaterialWalked, SegmentWalked, too_long, ending_out};

use fields::{Halt, word_at};
use machine::Refusal;
use start::start;
use state::{Answered, IndexRead, LIMIT, Level, State, Top};
use walk_entries::{Broken, Reached, under};
use walk_opening::{gap_walk, opening_walk};

const WORK_BYTES: usize = 49152;

// The most levels of indexes, with the top one.
const LEVELS: u64 = 4;

// How a whole reading ends: accepted, with what the top index says; refused, and so kept; or the work area is too short to begin. The first
// two tell how many bytes were read and how many leaves were listed. No `Result`: there are three ends, and none is handed on by `?`.
#[derive(Clone, Copy)]
pub enum Ending {
    Accepted(u64, u64, Top),
    Refused(u64, u64, Refusal),
    ShortWork,
}

// Why the opening or the gap was not read: no leaf is listed before.
fn unlisted(x: Halt) -> Broken
    ensures { result ≡ unlisted x }
{
    match x {
        Halt::Ended => Broken::Ended(0),
        Halt::Bad(x) => Broken::Bad(x),
    }
}

// What the top index covers, which ends at the position `n`: the gap, and the material.
fn material_walk(
    x: IndexRead,
    n: usize,
    bytes: &[u8],
    work: &mut [u8],
    table: &mut [u64],
) -> Result<(Reached, Top), Broken>
    requires { Fits x n × (n ≤ length bytes.now) × (work_bytes ≤ length work.old) }
    ensures { MaterialWalked x n bytes.now work.old table.old work.new table.new result }
{
    let start = n + (x.offset as usize);
    gap_walk(bytes, n, start).map_err(unlisted)?;
    let top = Top {
        id: x.id,
        scale: x.scale,
        start: x.time,
        durations: x.durations,
    };
    let from = Reached {
        n: start as u64,
        now: x.time,
        leaves: 0,
        last: 0,
    };
    let l = Level {
        next: 0,
        count: x.count,
        end: (start as u64) + x.sizes,
        until: x.time + x.durations,
    };
    let reached = under(LEVELS, top, l, bytes, 0, from, work, table)?;
    Ok((reached, top))
}

fn segment_walk(
    brand: u64,
    bytes: &[u8],
    work: &mut [u8],
    table: &mut [u64],
) -> Result<(Reached, Top), Broken>
    requires { (length bytes.now ≤ limit) × (work_bytes ≤ length work.old) }
    ensures { SegmentWalked brand bytes.now work.old table.old work.new table.new result }
{
    let (x, n) = opening_walk(brand, false, bytes, 0, work).map_err(unlisted)?;
    material_walk(x, n, bytes, work, table)
}

// A refusal, which is kept.
fn refused(number: u64, place: u64, count: u64, leaves: u64) -> Ending
    ensures { result ≡ ending.Refused count leaves (refusal number place) }
{
    Ending::Refused(count, leaves, Refusal { number, place })
}

// A byte after the material, or after the limit: 3 goes before 21.
fn too_long(n: u64, leaves: u64) -> Ending
    requires { n ≤ limit }
    ensures { (brand : ℕ) (work table : List ℕ) → ending_out brand work table result ≡ too_long n leaves work table }
{
    if n == LIMIT {
        return refused(3, n, n + 1, leaves);
    }
    refused(21, n, n + 1, leaves)
}

// What the segment comes to: `most` of its `len` bytes are within the limit.
fn outcome(r: Result<(Reached, Top), Broken>, most: u64, len: u64) -> Ending
    requires { (most ≤ limit) × WithinLimit r }
    ensures { (brand : ℕ) (bytes work table : List ℕ) → length bytes ≡ len → most ≡ min limit (length bytes) → WithinBytes (take limit bytes) r →
        ending_out brand work table result ≡ defs.outcome (beyond (refusal 3 limit) (segment_read (take limit bytes) work table r) (drop limit bytes)) }
{
    match r {
        Ok((reached, top)) => {
            if reached.n < len {
                return too_long(reached.n, reached.leaves);
            }
            Ending::Accepted(reached.n, reached.leaves, top)
        }
        Err(Broken::Bad(x)) => refused(x.number, x.place, x.count, x.leaves),
        Err(Broken::Ended(leaves)) => {
            if most < len {
                return too_long(most, leaves);
            }
            refused(20, len, len, leaves)
        }
    }
}

// How the reading of a whole segment ends, with the brand wanted, the work area and the leaf table lent for it. A state has room for an
// open reading, which an ending has no use for: it is made of the ending at the very end, and so is copied nowhere on the way.
pub fn whole_ending(segment: &[u8], brand: [u8; 4], work: &mut [u8], table: &mut [u64]) -> Ending
    ensures { ending_out (number brand) work.new table.new result
        ≡ whole_of (number brand) segment.now work.old table.old }
{
    if work.len() < WORK_BYTES {
        return Ending::ShortWork;
    }
    let most = (LIMIT as usize).min(segment.len());
    let read = segment_walk(word_at(&brand, 0), &segment[..most], work, table);
    outcome(read, most as u64, segment.len() as u64)
}

// A whole segment, with the answer of finish, and the state.
pub fn whole(segment: &[u8], brand: [u8; 4], work: &mut [u8], table: &mut [u64]) -> Answered
    ensures { out result.answer result.state work.new table.new
        ≡ whole_of (number brand) segment.now work.old table.old }
{
    let ending = whole_ending(segment, brand, work, table);
    match ending {
        Ending::Accepted(count, leaves, top) => Answered {
            answer: Ok(leaves),
            state: State::Accepted { count, leaves, top },
        },
        Ending::Refused(count, leaves, refusal) => Answered {
            answer: Err(refusal),
            state: State::Refused {
                count,
                leaves,
                refusal,
            },
        },
        Ending::ShortWork => Answered {
            answer: Err(Refusal {
                number: 1,
                place: 0,
            }),
            state: start(brand),
        },
    }
}
