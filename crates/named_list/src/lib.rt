//! The list for people, on slices: a line for an answer, with the names of the bench table's elements, and what is kept
//! from line to line.
#![tactic(auto)]

pub mod elements;
pub mod endings;
pub mod floats;
pub mod lines;
pub mod meanings;
pub mod seen;
pub mod types;
pub mod words;
