// What is printed of an answer. The text of a listing is that of the crate `listing`, its lines joined by `/`.
use cases_data::text::part;
use covering::Leaf;
use listing::{Line, heading, leaf_line, refused_line, table_line};
use machine::Refusal;
use std::fmt::Display;
use table::NUMBERS;

// What cannot be written is left out, and no more is said of it: what is compared is what was printed.
pub fn print(rt: &impl Print, text: &[u8]) {
    let _ = rt.write_all(text);
}

// A number, or a text with numbers in it.
pub fn show(rt: &impl Print, what: impl Display + Drop) {
    let _ = rt.print(what);
}

fn print_line(rt: &impl Print, line: Line) {
    print(rt, part(&line.bytes, 0, line.length));
}

fn print_refusal(rt: &impl Print, r: Refusal) {
    print_line(rt, refused_line(r));
}

// `K read`, or a refusal.
pub fn print_fed(rt: &impl Print, answer: Result<u64, Refusal>) {
    print(rt, b" ");
    match answer {
        Ok(count) => show(rt, format_args!("{count} read")),
        Err(refusal) => print_refusal(rt, refusal),
    }
    print(rt, b";");
}

// The line of the leaf with so many before it, after a `/`.
fn print_leaf(rt: &impl Print, table: &[u64], i: usize) {
    print(rt, b"/");
    print_line(rt, table_line(table, i));
}

fn print_leaves(rt: &impl Print, leaves: u64, table: &[u64]) {
    for i in 0..(table.len() / NUMBERS).min(leaves as usize) {
        print_leaf(rt, table, i);
    }
}

// The whole listing in one line.
pub fn print_listing(rt: &impl Print, answer: Result<u64, Refusal>, table: &[u64]) {
    print_line(rt, heading(answer));
    if let Ok(leaves) = answer {
        print_leaves(rt, leaves, table);
    }
}

// The listing, as the answer of a word.
pub fn print_end(rt: &impl Print, answer: Result<u64, Refusal>, table: &[u64]) {
    print(rt, b" ");
    print_listing(rt, answer, table);
    print(rt, b";");
}

// The leaf's number and record, or a refusal.
pub fn print_found(rt: &impl Print, answer: Result<Leaf, Refusal>) {
    print(rt, b" ");
    match answer {
        Ok(leaf) => print_line(rt, leaf_line(leaf.number, leaf.record)),
        Err(refusal) => print_refusal(rt, refusal),
    }
    print(rt, b";");
}
