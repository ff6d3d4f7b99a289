//! The decoder's record stored as a block of bytes and restored from one. What is stored are words,
//! and the bytes of those.
#![tactic(auto)]

pub mod blocks;
pub mod errors;
mod layout1;
mod places;
pub mod taken;
pub mod types;
pub mod words;
