// The lines of a file of data: each is one case, its first field the name.
use cases_cuttings::{Tally, run_segment};
use cases_data::files::read_file;
use cases_data::text::{decode, field};
use cases_script::run_script;
use cases_trial::prints::{print, show};
use std::rt::Files;

// What a file's lines are. Each kind is an arm below; a closure for each would take `rt`, the line, the buffer and the tally again.
#[derive(Clone, Copy)]
pub enum LineKind {
    // name, segment
    Made,
    // segment and listing; these have no name, and are counted
    Vector,
    // name of the file that holds the segment, and listing
    Real,
    // name, segment, the words of a script, and the brand wanted if it is not `msdh`
    Script,
}

fn print_name(rt: &impl Print, kind: LineKind, line: &[u8], k: u64) {
    match kind {
        LineKind::Vector => show(rt, format_args!("vector {k}")),
        _ => print(rt, field(line, 0)),
    }
    print(rt, b":");
}

// In a script, what follows the segment may be fed too, zeros among it.
fn run_case(
    rt: &(impl Files + Print + Eprint),
    kind: LineKind,
    line: &[u8],
    into: &mut [u8],
    tally: Tally,
) -> Tally {
    match kind {
        LineKind::Made => run_segment(rt, decode(field(line, 1), into), true, tally),
        LineKind::Vector => run_segment(rt, decode(field(line, 0), into), false, tally),
        LineKind::Real => run_segment(rt, read_file(rt, field(line, 0), into), false, tally),
        LineKind::Script => {
            decode(field(line, 1), into);
            run_script(rt, field(line, 2), field(line, 3), into);
            tally
        }
    }
}

pub fn run_lines(
    rt: &(impl Files + Print + Eprint),
    kind: LineKind,
    text: &[u8],
    into: &mut [u8],
    before: Tally,
) -> Tally {
    let mut tally = before;
    for (k, ended) in (1..).zip(text.split_inclusive(|&b| b == b'\n')) {
        let line = ended.strip_suffix(b"\n").unwrap_or(ended);
        print_name(rt, kind, line, k);
        tally = run_case(rt, kind, line, into, tally);
        print(rt, b"\n");
    }
    tally
}
