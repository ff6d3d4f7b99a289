//! The decoder's calls on the 320 words that hold its record, answered in numbers, for a program that keeps no record of
//! the decoder's type.
#![tactic(auto)]

pub mod blocks;
pub mod calls;
mod replies;
pub mod settings;
pub mod types;
