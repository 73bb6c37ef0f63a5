// What the cases are read from and given: lines of text, files, and what is lent for a reading.
#![tactic(auto)]

pub mod buffers;
pub mod files;
pub mod text;
pub mod words;
