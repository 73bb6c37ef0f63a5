// What is printed of an answer and of what was lent, and whether two readings are alike.
#![tactic(auto)]

pub mod alike;
pub mod lent;
pub mod prints;
