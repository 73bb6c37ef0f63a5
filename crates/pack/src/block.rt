// The numbers of a state one after the other, and what a block of them is: how a value is put as numbers, and how one is taken from them.
ghost use Rattle.std.specs.Prelude.{ℕ, List, [], ◌≡◌, ◌++◌, ◌+◌, ◌-◌, ◌≤◌, length};
ghost use Rattle.numbered.specs.Numbers.{padded};

use crate::STATE_NUMBERS;
use std::marker::Model;

// The numbers that were put; behind them stand zeros. A buffer with a count, as no crate here takes memory from a heap.
#[derive(Drop)]
pub(crate) struct Numbers {
    all: [u64; 57],
    at: usize,
}

impl Model for Numbers {
    ghost use Rattle.std.specs.Prelude.{ℕ, List, ◌≡◌, ◌-◌, ◌≤◌, take, drop, replicate};

    ghost Value = { List ℕ };

    ghost view = { λ n. take n.at n.all };

    ghost invariant = { λ n. (n.at ≤ 57) × (drop n.at n.all ≡ replicate (57 - n.at) 0) };
}

impl Numbers {
    pub(crate) fn none() -> Numbers
        ensures { result ≡ [] }
    {
        Numbers {
            all: [0; STATE_NUMBERS],
            at: 0,
        }
    }

    fn len(&self) -> usize
        ensures { result ≡ length self.now }
    {
        self.at
    }

    pub(crate) fn put(&mut self, numbers: &[u64])
        requires { length self.old + length numbers.now ≤ 57 }
        ensures { self.new ≡ self.old ++ numbers.now }
    {
        let end = self.at + numbers.len();
        let part = &mut self.all[self.at..end];
        part.copy_from_slice(numbers);
        self.at = end;
    }

    // Zeros up to a place.
    fn pad(&mut self, stop: usize)
        requires { (length self.old ≤ stop) × (stop ≤ 57) }
        ensures { self.new ≡ padded stop self.old }
    {
        self.at = stop;
    }

    // All numbers, with the zeros behind those that were put.
    pub(crate) fn padded(&self) -> [u64; 57]
        ensures { result ≡ padded 57 self.now }
    {
        self.all
    }
}

// A block: at most so many numbers that a value is put as, and the value that is taken from the front of any numbers.
pub(crate) trait Block {
    const MOST: usize;

    ghost MOST: { ℕ };

    ghost numbers: { Self → List ℕ };

    ghost value: { List ℕ → Self };

    fn put(self, to: &mut Numbers)
        requires { length to.old + MOST ≤ 57 }
        ensures { to.new ≡ to.old ++ numbers self };

    fn take(from: &[u64]) -> Self
        requires { MOST ≤ length from.now }
        ensures { result ≡ value from.now };

    ghost fits: { (x : Self) → length (numbers x) ≤ MOST };
}

// A block as long as that of its longest case: what a case does not use is 0.
pub(crate) fn put_padded<T: Block>(x: T, to: &mut Numbers)
    requires { length to.old + T.MOST ≤ 57 }
    ensures numbers { to.new ≡ to.old ++ padded T.MOST (T.numbers x) }
    ensures long { length to.new ≡ length to.old + T.MOST }
{
    let end = to.len() + T::MOST;
    x.put(to);
    to.pad(end);
}
