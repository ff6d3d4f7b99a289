//! The event lister's work on slices: what is printed for an answer, and what is done with the buffer between two reads.
#![tactic(auto)]

pub mod lines;
pub mod listing;
pub mod types;
