// The leaf table that is lent: how many records it takes, and what a record holds.
#![tactic(auto)]

// The most records that a table takes.
pub const MOST_RECORDS: u64 = 4096;

// How many numbers a record has.
pub const NUMBERS: usize = 6;

// Where in a record each number stands after the first, which is the position.
pub const SIZE: usize = 1;

pub const START: usize = 2;

pub const DURATION: usize = 3;

pub const SAP: usize = 4;

pub const TIME: usize = 5;

// A leaf's record: its numbers in their order in the table.
#[derive(Clone, Copy)]
pub struct Record {
    pub position: u64,
    pub size: u64,
    pub start: u64,
    pub duration: u64,
    pub sap: u64,
    pub time: u64,
}
