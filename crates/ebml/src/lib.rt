//! The calls of the library for a program in C, on numbers and lent bytes; include/ebml.h declares them and ebml_c
//! exports them.
#![tactic(auto)]

mod answers;
pub mod checks;
pub mod decoder;
pub mod numbers;
pub mod record;
pub mod text;
pub mod writer;
