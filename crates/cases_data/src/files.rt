// Files of data, opened by name.
use std::fs;
use std::io::Read;
use std::rt::Files;
use std::str::from_utf8;

// Reads until there is no more room, the file ends or a read fails; the bytes that this gave. The library's `read_to_end` takes a heap, and
// its `read_exact` does not say how many came.
fn read_full<'a>(file: &mut impl Read, into: &'a mut [u8]) -> &'a [u8] {
    let mut done = 0;
    while let Ok(n @ 1..) = file.read(&mut into[done..]) {
        done += n;
    }
    &into[..done]
}

// The bytes of a file. One that cannot be opened has none.
fn read_named<'a>(rt: &(impl Files + Eprint), name: &str, into: &'a mut [u8]) -> &'a [u8] {
    match fs::open(rt, name) {
        Ok(mut file) => read_full(&mut file, into),
        Err(e) => {
            let _ = eprintln!(rt; "{name}: {e}");
            &[]
        }
    }
}

// The same, of a name that stands in a file of data. No file is opened by a name that is not UTF-8.
pub fn read_file<'a>(rt: &(impl Files + Eprint), path: &[u8], into: &'a mut [u8]) -> &'a [u8] {
    match from_utf8(path) {
        Ok(name) => read_named(rt, name, into),
        Err(e) => {
            let _ = eprintln!(rt; "a file's name: {e}");
            &[]
        }
    }
}
