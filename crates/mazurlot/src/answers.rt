// What a call says, as numbers: what it gives back, and what it writes into the slot lent for its answer.
ghost use Rattle.std.specs.Prelude.{[], ◌∷◌, ◌≡◌, ◌≤◌, ltb, eqb, length, set};
ghost use Rattle.basics.specs.Bytes.{number};
ghost use Rattle.basics.specs.Choose.{pick};
ghost use Rattle.basics.specs.Put.{put_all};
ghost use Rattle.table.specs.Table.{numbers_of};
ghost use Rattle.state.specs.Flow.{work_bytes};
ghost use Rattle.lookup.specs.Spots.{answer_at, OnRecord};
ghost use Rattle.mazurlot.specs.Answers.{said, of_count, of_lookup, slot_after};

use machine::Refusal;
use records::record_at;
use table::{NUMBERS, Record};

// How many numbers the answers have: of feed, finish and the whole reader; of a lookup; of a mark.
pub(crate) const ONE_VALUE: usize = 1;

pub(crate) const LOOKUP_VALUES: usize = 7;

pub(crate) const MARK_VALUES: usize = 8;

// Refused: no state, or no room for one or for the answer. Nothing is written.
pub(crate) const NO_STATE: u64 = 2;

// Refused: the work area is too short.
pub(crate) const SHORT_WORK: u64 = 1;

const WORK_BYTES: usize = 49152;

// Where a mark's page stands in its answer.
const PAGE: usize = 7;

// What stands in the place of a leaf's record where none was found.
const NO_RECORD: Record = Record {
    position: 0,
    size: 0,
    start: 0,
    duration: 0,
    sap: 0,
    time: 0,
};

// The four bytes that spell a brand.
pub(crate) fn brand_bytes(brand: u32) -> [u8; 4]
    ensures { number result ≡ brand }
{
    [
        (brand / 16777216) as u8,
        (brand / 65536 % 256) as u8,
        (brand / 256 % 256) as u8,
        (brand % 256) as u8,
    ]
}

// One value, unless the number is 2.
pub(crate) fn say(n: u64, value: u64, answer: &mut [u64]) -> u64
    requires { 1 ≤ length answer.old }
    ensures { (result ≡ n) × (answer.new ≡ slot_after (said n (value ∷ [])) answer.old) }
{
    if n != NO_STATE {
        answer[0] = value;
    }
    n
}

// What feed says of what is no state: 1 goes before 2.
pub(crate) fn say_nothing_fed(work: usize, answer: &mut [u64]) -> u64
    requires { 1 ≤ length answer.old }
    ensures { (result ≡ pick (ltb work work_bytes) 1 2) × (answer.new ≡ slot_after (said (pick (ltb work work_bytes) 1 2) (0 ∷ [])) answer.old) }
{
    if work < WORK_BYTES {
        return say(SHORT_WORK, 0, answer);
    }
    NO_STATE
}

// What feed and finish say: a count, or a refusal.
pub(crate) fn say_count(said: Result<u64, Refusal>, answer: &mut [u64]) -> u64
    requires { 1 ≤ length answer.old }
    ensures { (result ≡ (of_count said).number) × (answer.new ≡ slot_after (of_count said) answer.old) }
{
    match said {
        Ok(count) => say(0, count, answer),
        Err(x) => say(x.number, x.place, answer),
    }
}

// A leaf's number and its record.
fn put_leaf(answer: &mut [u64], leaf: u64, r: Record)
    requires { 7 ≤ length answer.old }
    ensures { answer.new ≡ put_all answer.old 0 (leaf ∷ numbers_of r) }
{
    answer[0] = leaf;
    answer[1] = r.position;
    answer[2] = r.size;
    answer[3] = r.start;
    answer[4] = r.duration;
    answer[5] = r.sap;
    answer[6] = r.time;
}

// What a lookup says that ended at a spot of the table.
pub(crate) fn say_found(spot: Result<usize, u64>, table: &[u64], answer: &mut [u64]) -> u64
    requires { (7 ≤ length answer.old) × OnRecord table.now spot }
    ensures { (result ≡ (of_lookup (answer_at table.now spot)).number)
        × (answer.new ≡ slot_after (of_lookup (answer_at table.now spot)) answer.old) }
{
    match spot {
        Ok(at) => {
            let i = at / NUMBERS;
            put_leaf(answer, (i + 1) as u64, record_at(table, i));
            0
        }
        Err(number) => {
            if number != NO_STATE {
                put_leaf(answer, 0, NO_RECORD);
            }
            number
        }
    }
}

// A mark's page, behind the answer of its lookup.
pub(crate) fn say_page(number: u64, page: u32, answer: &mut [u64]) -> u64
    requires { 8 ≤ length answer.old }
    ensures { (result ≡ number) × (answer.new ≡ pick (eqb number 2) answer.old (set answer.old 7 page)) }
{
    if number != NO_STATE {
        answer[PAGE] = page as u64;
    }
    number
}
