// The calls, made by the library's functions. Each answers nine numbers: the number of the refusal or 0, its place or what is answered, the
// record that a lookup found, and a mark's page.
use crate::lending::Buffers;
use mazurlot::{
    mazurlot_feed, mazurlot_finish, mazurlot_lookup_seconds, mazurlot_lookup_ticks,
    mazurlot_resolve, mazurlot_start, mazurlot_whole,
};

// A call of the library, but for what is lent with it.
#[derive(Clone, Copy)]
pub enum Call {
    // The brand wanted.
    Start(u32),
    Feed,
    Finish,
    Whole(u32),
    // A time in ticks, or in seconds.
    Ticks(u64),
    Seconds(f64),
    // The seconds of a mark, and its page.
    Mark(f64, u32),
}

impl Call {
    // What the call gives back and answers.
    pub fn make(self, part: &[u8], lent: &mut Buffers) -> [u64; 9] {
        let mut answer = [0; 8];
        let number = self.number(part, lent, &mut answer);
        let [a, b, c, d, e, f, g, h] = answer;
        [number, a, b, c, d, e, f, g, h]
    }

    // The number that the call gives back: numbers, since the library's functions are those that C calls.
    fn number(self, part: &[u8], lent: &mut Buffers, answer: &mut [u64; 8]) -> u64 {
        let state = lent.state.lent();
        let work = lent.work.lent();
        let table = lent.table.lent();
        match self {
            Call::Start(brand) => mazurlot_start(brand, state),
            Call::Feed => mazurlot_feed(part, state, work, table, answer),
            Call::Finish => mazurlot_finish(state, answer),
            Call::Whole(brand) => mazurlot_whole(brand, part, state, work, table, answer),
            Call::Ticks(time) => mazurlot_lookup_ticks(time, state, table, answer),
            Call::Seconds(time) => mazurlot_lookup_seconds(time, state, table, answer),
            Call::Mark(seconds, page) => mark_call(seconds, page, state, table, answer),
        }
    }
}

// A mark's page is told also where 2 was given back, and so nothing written.
fn mark_call(seconds: f64, page: u32, state: &[u64], table: &[u64], answer: &mut [u64; 8]) -> u64 {
    let number = mazurlot_resolve(page, seconds, state, table, answer);
    if number == 2 {
        answer[7] = u64::from(page);
    }
    number
}
