// What every reading here is made of, whatever it reads: a refusal, and the header of a box byte by byte.
#![tactic(auto)]

// A refusal: its number in document 01's table, and its place. C gets that number, and a state from outside may hold any: an enum would
// leave out states that a call has to answer.
#[derive(Clone, Copy, PartialEq, Eq)]
pub struct Refusal {
    pub number: u64,
    pub place: u64,
}

// A header that is being read: at its first byte, or in its size, its type or its 64-bit size.
// `more` bytes of the number follow the next one; `acc` is what those before it spell.
#[derive(Clone, Copy)]
pub enum Head {
    First,
    Size {
        pos: u64,
        more: u64,
        acc: u64,
    },
    Kind {
        pos: u64,
        size: u64,
        more: u64,
        acc: u64,
    },
    Large {
        pos: u64,
        kind: u64,
        more: u64,
        acc: u64,
    },
}

// A header that was read: the box's first byte, its type, its size, and how many bytes of it the header takes. The type is any number of
// 32 bits: a box of a type that is not known is skipped.
#[derive(Clone, Copy)]
pub struct Header {
    pub pos: u64,
    pub kind: u64,
    pub size: u64,
    pub head: u64,
}

// What a byte makes of a reading that it does not refuse: it goes on, or it is done with what it reads.
#[derive(Clone, Copy)]
pub enum Step<S, R> {
    Going(S),
    Done(R),
}

// A list of boxes that is being read, with what is known of it between two boxes: in the header of a box, or in the body of one.
#[derive(Clone, Copy)]
pub enum BoxesSo<A, B> {
    Head(A, Head),
    Body(A, B),
}
