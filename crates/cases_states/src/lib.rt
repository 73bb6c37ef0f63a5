// States made from the numbers that a word of a script gives.
#![tactic(auto)]

use cases_data::text::{letter, nth};
use machine::{BoxesSo, Head, Refusal};
use state::{Level, Levels, Stage, State, Top};

// In the size of the first box: how many bytes of it follow, and what those before them spell.
fn in_size(word: &[u8]) -> State {
    State::Reading {
        count: 1,
        leaves: 0,
        now: 0,
        last: 0,
        stage: Stage::Opening {
            brand: 0,
            boxes: BoxesSo::Head(
                false,
                Head::Size {
                    pos: 0,
                    more: nth(word, 0),
                    acc: nth(word, 1),
                },
            ),
        },
    }
}

// Bytes, leaves, and the numbers of the top index.
fn top_in(word: &[u8]) -> Top {
    Top {
        id: nth(word, 2),
        scale: nth(word, 3),
        start: nth(word, 4),
        durations: nth(word, 5),
    }
}

fn ended(word: &[u8]) -> State {
    State::Ended {
        count: nth(word, 0),
        leaves: nth(word, 1),
        top: top_in(word),
    }
}

fn accepted(word: &[u8]) -> State {
    State::Accepted {
        count: nth(word, 0),
        leaves: nth(word, 1),
        top: top_in(word),
    }
}

// Bytes, leaves, the refusal's number and place.
fn refused(word: &[u8]) -> State {
    State::Refused {
        count: nth(word, 0),
        leaves: nth(word, 1),
        refusal: Refusal {
            number: nth(word, 2),
            place: nth(word, 3),
        },
    }
}

// At byte 100, before an entry of the top index, whose entries end at the time 7: the entry's number, how many there are, the time
// now, the leaves listed, and where the material ends.
fn at_entry(word: &[u8]) -> State {
    State::Reading {
        count: 100,
        leaves: nth(word, 3),
        now: nth(word, 2),
        last: 0,
        stage: Stage::Entry {
            top: Top {
                id: 1,
                scale: 1000,
                start: 0,
                durations: 7,
            },
            levels: Levels::One(Level {
                next: nth(word, 0),
                count: nth(word, 1),
                end: nth(word, 4),
                until: 7,
            }),
        },
    }
}

// The state that there is, if it is one of a reading, with another count of bytes read.
fn counted(s: State, count: u64) -> State {
    match s {
        State::Reading {
            leaves,
            now,
            last,
            stage,
            ..
        } => State::Reading {
            count,
            leaves,
            now,
            last,
            stage,
        },
        _ => s,
    }
}

// A state, by a word's letter and the numbers that it gives; where no state has the letter, the one that there is.
pub fn state_of(word: &[u8], s: State) -> State {
    match letter(word) {
        Some(b'S') => in_size(word),
        Some(b'M') => ended(word),
        Some(b'R') => refused(word),
        Some(b'A') => accepted(word),
        Some(b'E') => at_entry(word),
        Some(b'c') => counted(s, nth(word, 0)),
        _ => s,
    }
}
