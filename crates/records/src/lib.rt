// The leaf table in code: its room, a record put into it and one read back.
#![tactic(auto)]

ghost use Rattle.std.specs.Prelude.{List, ◌≡◌, ℕ, ◌+◌, ◌*◌, ◌≤◌, ◌<◌, leb, length};
ghost use Rattle.table.specs.Table as defs;

use table::{DURATION, MOST_RECORDS, NUMBERS, Record, SAP, SIZE, START, TIME};

// Whether a leaf table of this length has no room for one leaf more.
pub fn no_room(leaves: u64, len: usize) -> bool
    ensures { (table : List ℕ) → length table ≡ len → result ≡ leb (defs.room table) leaves }
{
    MOST_RECORDS <= leaves || len < NUMBERS * (leaves as usize) + NUMBERS
}

// The numbers of a record, in their order. No From: the theorem `numbers_of_once` of docs/PROMISES.md is on this function.
pub fn numbers_of(r: Record) -> [u64; 6]
    ensures { result ≡ defs.numbers_of r }
{
    [r.position, r.size, r.start, r.duration, r.sap, r.time]
}

// A record put after those of the `leaves` before it.
pub fn put_record(table: &mut [u64], leaves: u64, r: Record)
    requires { defs.record_numbers * leaves + defs.record_numbers ≤ length table.old }
    ensures { table.new ≡ defs.put_record table.old leaves r }
{
    let i = NUMBERS * (leaves as usize);
    table[i..i + NUMBERS].copy_from_slice(&numbers_of(r));
}

// Record i, from 0. Each field is read at its place: an array of the six, taken from the table first, would be no plainer.
pub fn record_at(table: &[u64], i: usize) -> Record
    requires { defs.record_numbers * i + defs.record_numbers ≤ length table.now }
    ensures { result ≡ defs.record_at table.now i }
{
    let at = NUMBERS * i;
    Record {
        position: table[at],
        size: table[at + SIZE],
        start: table[at + START],
        duration: table[at + DURATION],
        sap: table[at + SAP],
        time: table[at + TIME],
    }
}
