// What is lent, changed or shown by a word of a script.
use crate::prints::{print, show};
use cases_data::buffers::{FILL_BYTE, FILL_NUMBER};
use cases_data::text::letter;
use cases_data::words::{put_bytes, put_number};

// What is not as it was lent, run by run, the place where a run starts before it.
fn print_changed<T: Copy + PartialEq, F: Fn(T)>(rt: &impl Print, lent: &[T], fill: T, shown: F)
    requires { F.IsAlwaysCallable shown }
{
    let mut within = false;
    for (i, &x) in lent.iter().enumerate() {
        let changed = x != fill;
        if changed && !within {
            show(rt, format_args!(" {i}:"));
        }
        if changed {
            shown(x);
        }
        within = changed;
    }
}

// The bytes of a work area in hex, and the numbers of a leaf table.
fn print_left(rt: &impl Print, work: &[u8], table: &[u64]) {
    print(rt, b" work area");
    print_changed(rt, work, FILL_BYTE, |b| show(rt, format_args!("{b:02x}")));
    print(rt, b", table");
    print_changed(rt, table, FILL_NUMBER, |n| show(rt, format_args!(" {n}")));
    print(rt, b";");
}

// What changes or shows only what is lent.
pub fn change_lent(rt: &impl Print, word: &[u8], work: &mut [u8], table: &mut [u64]) {
    match letter(word) {
        Some(b'w') => put_bytes(word, work),
        Some(b'n') => put_number(word, table),
        Some(b'p') => print_left(rt, work, table),
        _ => (),
    }
}
