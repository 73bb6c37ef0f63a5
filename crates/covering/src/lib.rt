// What a lookup finds.
#![tactic(auto)]

use table::Record;

// The leaf that covers the time: its number, from 1, and its record.
#[derive(Clone, Copy)]
pub struct Leaf {
    pub number: u64,
    pub record: Record,
}
