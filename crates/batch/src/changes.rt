// What a call changed in what is lent, as runs: where each starts, how long it is, and what stands there now.
ghost use Rattle.std.specs.Iterator.{at_most};
ghost use Rattle.std.specs.Prelude.{◌-◌, ◌≤◌, ◌≡◌, length};
ghost use Rattle.batch.specs.Runs.{RunTo};

use crate::lending::Piece;
use crate::output::Output;

// From a place on, how far two buffers are alike, or differ at each place.
fn up_to<T: PartialEq>(old: &[T], new: &[T], from: usize, alike: bool) -> usize
    requires { (length old.now ≡ length new.now) × (from ≤ length new.now) }
    ensures { RunTo T.eq old.now new.now from alike result }
{
    for i in from..new.len() {
        if (old[i] == new[i]) != alike {
            return i;
        }
    }
    new.len()
}

// The runs of what is not as it was, from a place on: of each its place and what stands there now.
#[derive(Drop)]
struct Runs<'a, T> {
    before: &'a [T],
    now: &'a [T],
    from: usize,
    ghost as_long: { length before.now ≡ length now.now },
    ghost inside: { from ≤ length now.now },
}

impl<'a, T: PartialEq> Iterator for Runs<'a, T> {
    type Item = (usize, &'a [T]);

    ghost remaining = { λ r. at_most (length r.now.now - r.from) };

    // At a run's place the two differ, so that it has one place at least.
    fn next(&mut self) -> Option<(usize, &'a [T])> {
        let from = up_to(self.before, self.now, self.from, true);
        if from == self.now.len() {
            return None;
        }
        let to = up_to(self.before, self.now, from + 1, false);
        self.from = to;
        Some((from, &self.now[from..to]))
    }
}

// All runs, and two zeros after the last one.
pub fn put_changes<T: Piece, P: Print>(before: &[T], now: &[T], out: &mut Output<'_, P>)
    requires { length before.now ≡ length now.now }
{
    let runs = Runs {
        before,
        now,
        from: 0,
    };
    for (from, run) in runs {
        out.put_number(from as u64);
        out.put_number(run.len() as u64);
        T::put_all(run, out);
    }
    out.put_number(0);
    out.put_number(0);
}
