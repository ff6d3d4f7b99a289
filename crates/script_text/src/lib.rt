//! The text of a script: a line's words, the numbers and bytes that they write, and the answer's text.
#![tactic(auto)]

pub mod answers;
pub mod reading;
pub mod words;
