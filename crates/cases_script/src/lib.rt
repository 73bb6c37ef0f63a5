// Scripts: a line's words in their order, each of them a call, a state, or a change to what is lent.
// f from,to: feed with these bytes; f from,to,k: k times; the last answer is printed
// e: finish; the listing is printed
// l t: lookup of the time t; the answer is printed
// d bits: lookup of the seconds that are a double of these bits
// m page,bits: a mark resolved; its page is printed before the answer
// p: the bytes of the work area and the numbers of the leaf table that are not as they were lent are printed
// a n: from here on, n bytes of work area are lent
// t n: from here on, n numbers of leaf table are lent
// w at,hex: bytes are put into the work area
// n at,number: a number is put into the leaf table
// S, M, R, A, E with numbers: a state (crate `cases_states`)
// c n: the state of a reading has n for its count of bytes read
#![tactic(auto)]

use cases_data::buffers::{FILL_BYTE, FILL_NUMBER, lent};
use cases_data::text::{letter, nth, part};
use cases_data::words::{Lent, brand_of, lent_after, times};
use cases_states::state_of;
use cases_trial::lent::change_lent;
use cases_trial::prints::{print_end, print_fed, print_found, show};
use doubles::double_of;
use feed::{feed, finish, start};
use lookup::lookup;
use marks::{Mark, resolve};
use moment::Request;
use state::State;

// No script has more words.
const MOST_WORDS: usize = 16;

// A piece fed k times.
fn run_feed(
    rt: &impl Print,
    k: u64,
    piece: &[u8],
    s: State,
    work: &mut [u8],
    table: &mut [u64],
) -> State {
    let mut state = s;
    let mut answer = Ok(0);
    for _ in 0..k {
        let fed = feed(state, piece, work, table);
        state = fed.state;
        answer = fed.answer;
    }
    print_fed(rt, answer);
    state
}

fn run_finish(rt: &impl Print, s: State, table: &[u64]) -> State {
    let finished = finish(s);
    print_end(rt, finished.answer, table);
    finished.state
}

// The time that a word asks for.
fn request_of(word: &[u8]) -> Request {
    match letter(word) {
        Some(b'l') => Request::Ticks(nth(word, 0)),
        _ => Request::Seconds(double_of(nth(word, 0))),
    }
}

fn mark_of(word: &[u8]) -> Mark {
    Mark {
        page: (nth(word, 0) % 4294967296) as u32,
        seconds: double_of(nth(word, 1)),
    }
}

fn run_mark(rt: &impl Print, mark: Mark, s: State, table: &[u64]) -> State {
    let resolved = resolve(s, table, mark);
    show(rt, format_args!(" page {}", resolved.page));
    print_found(rt, resolved.answer);
    s
}

fn run_word(
    rt: &impl Print,
    word: &[u8],
    bytes: &[u8],
    s: State,
    work: &mut [u8],
    table: &mut [u64],
) -> State {
    match letter(word) {
        Some(b'f') => {
            let piece = part(bytes, nth(word, 0) as usize, nth(word, 1) as usize);
            run_feed(rt, times(word), piece, s, work, table)
        }
        Some(b'e') => run_finish(rt, s, table),
        Some(b'l' | b'd') => {
            print_found(rt, lookup(s, table, request_of(word)));
            s
        }
        Some(b'm') => run_mark(rt, mark_of(word), s, table),
        _ => {
            change_lent(rt, word, work, table);
            state_of(word, s)
        }
    }
}

fn run_words(
    rt: &impl Print,
    words: &[u8],
    brand: [u8; 4],
    bytes: &[u8],
    work: &mut [u8],
    table: &mut [u64],
) {
    let mut s = start(brand);
    let mut most = Lent {
        bytes: 49152,
        numbers: 1536,
    };
    for word in words.split(|&c| c == b' ').take(MOST_WORDS) {
        most = lent_after(word, most);
        s = run_word(
            rt,
            word,
            bytes,
            s,
            lent(work, most.bytes),
            lent(table, most.numbers),
        );
    }
}

// A script, with a table that has room for 4,097 leaves.
pub fn run_script(rt: &impl Print, words: &[u8], brand: &[u8], bytes: &[u8]) {
    let mut work = [FILL_BYTE; 49152];
    let mut table = [FILL_NUMBER; 24582];
    run_words(rt, words, brand_of(brand), bytes, &mut work, &mut table);
}
