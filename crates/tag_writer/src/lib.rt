//! The writer: a list of Starts, Ends and values becomes an EBML document with every size filled in.
#![tactic(auto)]

mod asking;
pub mod errors;
mod items;
mod matching;
mod putting;
mod sizes;
pub mod types;
mod widths;
pub mod writing;
