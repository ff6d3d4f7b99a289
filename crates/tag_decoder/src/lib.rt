//! The decoder: one call, the end of input, recovery and the settings. `TagDecoder` of tag_decoder.rs, whose record
//! goes in by value and comes back in the answer.
#![tactic(auto)]

pub mod calls;
mod cut;
mod end_of_input;
pub mod recovery;
pub mod settings;
