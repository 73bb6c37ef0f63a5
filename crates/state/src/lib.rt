// The state of a reading, as it goes in by value and comes back by value: enums within enums, each phase with its own numbers.
// A place is counted in bytes from the segment's first; an `end` is the place after the last byte. In a number that is being
// read `more` bytes follow the next one, and `acc` is what those before it spell.
#![tactic(auto)]

use machine::{BoxesSo, Head, Refusal};

// The most bytes a segment has.
pub const LIMIT: u64 = 268435456;

// The highest time.
pub const LAST_TIME: u64 = 18446744073709551615;

// The most entries of an index.
pub const MOST_ENTRIES: u64 = 1024;

// An entry's bytes in the work area, and those of a level's part of it.
pub const ENTRY_BYTES: u64 = 12;

pub const LEVEL_BYTES: u64 = 12288;

// The bit of an entry's first word that says its type; sizes are below it.
pub const TYPE_BIT: u64 = 2147483648;

// A box: its first byte and its end.
#[derive(Clone, Copy)]
pub struct Span {
    pub pos: u64,
    pub end: u64,
}

// The decode times of the reference track: whether this leaf has shown any, its first, and the last in the segment so far.
// No Option: the definitions and docs/STATE.md have all three, and a state from outside may hold any two times beside false.
#[derive(Clone, Copy)]
pub struct Seen {
    pub any: bool,
    pub first: u64,
    pub last: u64,
}

// How far a `traf` has come: no `tfhd` yet, `tfhd` read, `tfdt` read.
#[derive(Clone, Copy)]
pub enum TrafPhase {
    Fresh,
    Headed { reference: bool },
    Timed,
}

// What is known of a `traf` between two of its boxes.
#[derive(Clone, Copy)]
pub struct TrafSo {
    pub track: TrafPhase,
    pub seen: Seen,
}

// The numbers of a `tfhd` and of a `tfdt`.
#[derive(Clone, Copy)]
pub enum TrafPart {
    HeadFlags { end: u64 },
    TrackId { end: u64 },
    Version { pos: u64, end: u64 },
    TimeFlags { pos: u64, wide: bool },
    Time { pos: u64 },
}

// The body of a box in a `traf`: skipped, the rest of a `tfhd` after its track ID, or in a number.
#[derive(Clone, Copy)]
pub enum TrafBody {
    Skip { stop: u64 },
    Rest { stop: u64, reference: bool },
    Field { part: TrafPart, more: u64, acc: u64 },
}

pub type TrafBoxes = BoxesSo<TrafSo, TrafBody>;

// The body of a box in a `moof`.
#[derive(Clone, Copy)]
pub enum MoofBody {
    Skip { stop: u64 },
    Traf(Span, TrafBoxes),
}

pub type MoofBoxes = BoxesSo<Seen, MoofBody>;

// What is known of a leaf between two of its boxes: whether it has had a `moof`.
#[derive(Clone, Copy)]
pub struct LeafSo {
    pub moof: bool,
    pub seen: Seen,
}

// The body of a box in a leaf.
#[derive(Clone, Copy)]
pub enum LeafBody {
    Skip { stop: u64 },
    Moof { end: u64, boxes: MoofBoxes },
}

pub type LeafBoxes = BoxesSo<LeafSo, LeafBody>;

// The numbers of an index before its entries.
#[derive(Clone, Copy)]
pub enum IndexPart {
    Version,
    Flags,
    Id,
    Scale,
    Time,
    Offset,
    Reserved,
    Count,
}

// What has been read of an index before its entries.
#[derive(Clone, Copy)]
pub struct Draft {
    pub wide: bool,
    pub id: u64,
    pub scale: u64,
    pub time: u64,
    pub offset: u64,
}

#[derive(Clone, Copy)]
pub enum EntryPart {
    Size,
    Duration,
    Sap,
}

// What has been read of an index's entries: how many, of how many, and the sums of their sizes and durations.
#[derive(Clone, Copy)]
pub struct Sums {
    pub next: u64,
    pub count: u64,
    pub sizes: u64,
    pub durations: u64,
}

// The body of a `sidx`.
#[derive(Clone, Copy)]
pub enum Sidx {
    Field {
        part: IndexPart,
        draft: Draft,
        more: u64,
        acc: u64,
    },
    Entry {
        part: EntryPart,
        draft: Draft,
        sums: Sums,
        more: u64,
        acc: u64,
    },
}

// The numbers of a `styp`.
#[derive(Clone, Copy)]
pub enum StypPart {
    Major,
    Minor,
    Brand,
}

// The body of a box up to the top index.
#[derive(Clone, Copy)]
pub enum OpeningBody {
    Skip {
        stop: u64,
    },
    Styp {
        span: Span,
        part: StypPart,
        listed: bool,
        more: u64,
        acc: u64,
    },
    Index(Span, Sidx),
}

// The boxes up to the top index: whether `styp` was read, and the box.
pub type OpeningBoxes = BoxesSo<bool, OpeningBody>;

// The boxes of the gap. No `BoxesSo`: the definitions and the packed state have no place for what is known between two boxes, as nothing is.
#[derive(Clone, Copy)]
pub enum GapBoxes {
    Head(Head),
    Body { stop: u64 },
}

// What the top index says of the whole segment.
#[derive(Clone, Copy, PartialEq, Eq)]
pub struct Top {
    pub id: u64,
    pub scale: u64,
    pub start: u64,
    pub durations: u64,
}

// An index whose entries are being passed: the next entry's number from 0, how many there are, and where and when all of them end.
#[derive(Clone, Copy)]
pub struct Level {
    pub next: u64,
    pub count: u64,
    pub end: u64,
    pub until: u64,
}

// The indexes that stand open, the top one first. The definitions and the packed state have a case for each depth, and none for depth 0.
#[derive(Clone, Copy)]
pub enum Levels {
    One(Level),
    Two(Level, Level),
    Three(Level, Level, Level),
    Four(Level, Level, Level, Level),
}

// An entry as it stands in the work area: whether it is of type 1, and its numbers.
#[derive(Clone, Copy)]
pub struct StoredEntry {
    pub inner: bool,
    pub size: u64,
    pub duration: u64,
    pub sap: u64,
}

// An entry as read back from the work area: where it starts and ends, when it ends, and its SAP word.
#[derive(Clone, Copy)]
pub struct Slot {
    pub pos: u64,
    pub end: u64,
    pub until: u64,
    pub sap: u64,
}

// The first box of an index entry. No `BoxesSo`, as the gap's: it is one box, and the definitions and the packed state hold no more.
#[derive(Clone, Copy)]
pub enum InnerBox {
    Head(Head),
    Body(Span, Sidx),
}

// Where the reading stands.
#[derive(Clone, Copy)]
pub enum Stage {
    Opening {
        brand: u64,
        boxes: OpeningBoxes,
    },
    Gap {
        top: Top,
        level: Level,
        end: u64,
        boxes: GapBoxes,
    },
    Entry {
        top: Top,
        levels: Levels,
    },
    Leaf {
        top: Top,
        levels: Levels,
        slot: Slot,
        boxes: LeafBoxes,
    },
    Inner {
        top: Top,
        levels: Levels,
        slot: Slot,
        first: InnerBox,
    },
}

// The state: in the segment, at the end of its material, after a kept refusal, or after an accepted finish.
// `count` bytes were read and `leaves` leaves listed; the next entry starts at the time `now`; `last` is the last decode time of the
// leaves listed.
#[derive(Clone, Copy)]
pub enum State {
    Reading {
        count: u64,
        leaves: u64,
        now: u64,
        last: u64,
        stage: Stage,
    },
    Ended {
        count: u64,
        leaves: u64,
        top: Top,
    },
    Refused {
        count: u64,
        leaves: u64,
        refusal: Refusal,
    },
    Accepted {
        count: u64,
        leaves: u64,
        top: Top,
    },
}

// An index that was read whole.
#[derive(Clone, Copy)]
pub struct IndexRead {
    pub id: u64,
    pub scale: u64,
    pub time: u64,
    pub offset: u64,
    pub count: u64,
    pub sizes: u64,
    pub durations: u64,
}

// What a call answers, and the state that it leaves: of feed the count of all bytes read, of finish the leaf count; or a refusal.
#[derive(Clone, Copy)]
pub struct Answered {
    pub answer: Result<u64, Refusal>,
    pub state: State,
}
