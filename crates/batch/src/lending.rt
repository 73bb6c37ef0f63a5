// What is lent, and what is written into it between the calls.
ghost use Rattle.std.specs.Prelude.{◌+◌, ◌<◌, ◌≡◌, ◌≤◌, IfNone, List, OnSome, length, replicate, take};

use crate::changes::put_changes;
use crate::output::Output;
use std::marker::Model;

// What lent buffers are of: bytes, or numbers, which are eight bytes each where they are read and written.
pub trait Piece: Copy + PartialEq {
    fn put_all<P: Print>(pieces: &[Self], out: &mut Output<'_, P>);

    // Pieces written over others, as far as there are any.
    fn write_over(pieces: &mut [Self], by: &[u8]);

    // A copy can't fail, and is the same.
    ghost is_plain: { (x : Self) → Self.is_infallible x };

    ghost stays_same: { (x y : Self) → Self.is_clone x y → y ≡ x };
}

impl Piece for u8 {
    ghost is_plain = { λ x. tt };

    ghost stays_same = { λ x y h. h };

    fn put_all<P: Print>(pieces: &[u8], out: &mut Output<'_, P>) {
        out.put(pieces);
    }

    fn write_over(pieces: &mut [u8], by: &[u8]) {
        for (piece, byte) in pieces.iter_mut().zip(by) {
            *piece = *byte;
        }
    }
}

impl Piece for u64 {
    ghost is_plain = { λ x. tt };

    ghost stays_same = { λ x y h. h };

    fn put_all<P: Print>(pieces: &[u64], out: &mut Output<'_, P>) {
        for n in pieces {
            out.put_number(*n);
        }
    }

    fn write_over(pieces: &mut [u64], by: &[u8]) {
        for (piece, eight) in pieces.iter_mut().zip(by.as_chunks::<8>().0) {
            *piece = u64::from_be_bytes(*eight);
        }
    }
}

// A buffer of which the first part is lent, and a copy of that part, as it was before a call: no crate here takes memory from a heap.
#[derive(Drop)]
pub struct Lent<T, const N: usize> {
    now: [T; N],
    before: [T; N],
    count: usize,
}

// What is lent, and its copy.
impl<T, const N: usize> Model for Lent<T, N> {
    ghost Value = { List T × List T };

    ghost view = { λ l. (take l.count l.now, take l.count l.before) };

    ghost invariant = { λ l. l.count ≤ N };
}

impl<T: Piece, const N: usize> Lent<T, N> {
    pub fn new(count: usize, each: T) -> Self
        requires { count ≤ N }
        ensures { result ≡ (replicate count each, replicate count each) }
    {
        Lent {
            now: [each; N],
            before: [each; N],
            count,
        }
    }

    // So many lent from now on, where the buffer has as many; what each of them is.
    pub fn lend(&mut self, count: usize, each: T) -> Option<()>
        ensures lent { OnSome result (self.new ≡ (replicate count each, replicate count each)) }
        ensures refused { IfNone result ((N < count) × (self.new ≡ self.old)) }
    {
        if N < count {
            return None;
        }
        self.now[..count].fill(each);
        self.before[..count].fill(each);
        self.count = count;
        Some(())
    }

    pub fn lent(&mut self) -> &mut [T]
        ensures { result.now ≡ self.old.0 }
    {
        let count = self.count;
        let now = &mut self.now;
        let all = &mut now[..];
        &mut all[..count]
    }

    // So many written from a place on, where all lie inside what is lent.
    pub fn write(&mut self, at: usize, count: usize, by: &[u8]) -> Option<()>
        ensures inside { OnSome result (at + count ≤ length self.old.0) }
        ensures both { self.old.0 ≡ self.old.1 → self.new.0 ≡ self.new.1 }
        ensures refused { IfNone result ((length self.old.0 < at + count) × (self.new ≡ self.old)) }
    {
        let lent = &mut self.now[..self.count];
        let to = at.checked_add(count)?;
        if lent.len() < to {
            return None;
        }
        let written = &mut lent[at..to];
        T::write_over(written, by);
        let copy = &mut self.before[..self.count];
        copy[at..to].copy_from_slice(written);
        Some(())
    }

    // What is not as it was before the call; the copy is brought up to it.
    pub fn put_changes<P: Print>(&mut self, out: &mut Output<'_, P>)
        ensures { self.new ≡ (self.old.0, self.old.0) }
    {
        let now = &self.now[..self.count];
        let before = &mut self.before[..self.count];
        put_changes(before, now, out);
        before.copy_from_slice(now);
    }
}

// What is lent with the calls.
#[derive(Drop)]
pub struct Buffers {
    pub state: Lent<u64, MOST_STATE>,
    pub work: Lent<u8, MOST_WORK>,
    pub table: Lent<u64, MOST_TABLE>,
}

// The most numbers of a state, bytes of a work area, numbers of a leaf table.
pub const MOST_STATE: usize = 64;

pub const MOST_WORK: usize = 65536;

pub const MOST_TABLE: usize = 32768;
