//! The library `ebml` for a program in C: an export for each of its calls, under the call's own name and with its clauses,
//! which makes the call; include/ebml.h declares them. A crate is a library or a static library, and so it stands apart.
#![tactic(auto)]

pub mod checks;
pub mod decoder;
pub mod numbers;
pub mod record;
pub mod text;
pub mod writer;
