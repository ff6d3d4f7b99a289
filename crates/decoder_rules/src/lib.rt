//! The decoder's record, what its calls answer, and the refusals' numbers. The rules of its calls are the definitions
//! in specs/. tag_decoder.rs of the Rust.
#![tactic(auto)]

pub mod errors;
pub mod types;
