// What is written goes through a buffer, which is written out when it is full and after each answer.
ghost use Rattle.std.specs.Prelude.{◌+◌, ◌++◌, ◌<◌, ◌≡◌, ◌≤◌, List, ℕ, [], length, take};
ghost use Rattle.std.specs.Int.{to_be_bytes, w64};

use std::marker::Model;

// How many bytes the buffer holds at most.
const MOST_HELD: usize = 65536;

// Where the answers go, and the bytes that are not written out yet: a buffer with a count, as no crate here takes memory from a heap.
#[derive(Drop)]
pub struct Output<'a, P> {
    to: &'a P,
    held: [u8; MOST_HELD],
    count: usize,
}

// What the buffer holds.
impl<'a, P> Model for Output<'a, P> {
    ghost Value = { List ℕ };

    ghost view = { λ o. take o.count o.held };

    ghost invariant = { λ o. o.count ≤ 65536 };
}

impl<'a, P: Print> Output<'a, P> {
    pub fn new(to: &'a P) -> Self
        ensures { result ≡ [] }
    {
        Output {
            to,
            held: [0; MOST_HELD],
            count: 0,
        }
    }

    // Writes what the buffer holds. A write that fails is not told: the reader of this program's output sees that it ends.
    pub fn write_out(&mut self)
        ensures { self.new ≡ [] }
    {
        let _ = self.to.write_all(&self.held[..self.count]);
        self.count = 0;
    }

    // Bytes behind those that are held; more than the buffer can hold are written out at once.
    pub fn put(&mut self, bytes: &[u8])
        ensures behind { length self.old + length bytes.now ≤ 65536 → self.new ≡ self.old ++ bytes.now }
        ensures anew { 65536 < length self.old + length bytes.now → length bytes.now ≤ 65536 → self.new ≡ bytes.now }
        ensures none { 65536 < length bytes.now → self.new ≡ [] }
    {
        let n = bytes.len();
        if MOST_HELD - self.count < n {
            self.write_out();
        }
        if MOST_HELD < n {
            let _ = self.to.write_all(bytes);
            return;
        }
        self.held[self.count..self.count + n].copy_from_slice(bytes);
        self.count += n;
    }

    // A number, its highest byte first.
    pub fn put_number(&mut self, n: u64)
        ensures behind { length self.old + 8 ≤ 65536 → self.new ≡ self.old ++ to_be_bytes w64 n }
        ensures anew { 65536 < length self.old + 8 → self.new ≡ to_be_bytes w64 n }
    {
        self.put(&n.to_be_bytes());
    }
}
