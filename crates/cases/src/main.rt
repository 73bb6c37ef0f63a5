// Runs document 01's cases, the vectors, real segments and scripts of calls, and prints a line for each: what the reader gives.
// The file `stdout` has what document 01 asks for. A line has `differs` only where a reading in pieces is not that of the whole.
#![tactic(auto)]

ghost use Rattle.std.specs.Prelude.{◌≡◌, length};

mod lines;

use cases_cuttings::Tally;
use cases_data::files::read_file;
use lines::{LineKind, run_lines};
use std::rt::Files;

// A buffer of zeros: only its length matters, and a contract that says no more keeps what it holds out of the proof of `run_file`.
fn zeros<const N: usize>() -> [u8; N]
    ensures { N ≡ length result }
{
    [0; N]
}

// The lines of one file of data. No segment has more than 65,536 bytes: the second half of the bytes stays zeros.
fn run_file(
    rt: &(impl Files + Print + Eprint),
    path: &[u8],
    kind: LineKind,
    before: Tally,
) -> Tally {
    let mut buffer = zeros::<524288>();
    let mut bytes = zeros::<131072>();
    let text = read_file(rt, path, &mut buffer);
    run_lines(rt, kind, text, &mut bytes, before)
}

fn main(rt: HostRuntime) {
    let none = Tally::default();
    let made = run_file(&rt, b"segments.tsv", LineKind::Made, none);
    let vectors = run_file(&rt, b"vectors.tsv", LineKind::Vector, made);
    let all = run_file(&rt, b"real.tsv", LineKind::Real, vectors);
    run_file(&rt, b"scripts.tsv", LineKind::Script, none);
    let _ = println!(rt; "{all}");
}
