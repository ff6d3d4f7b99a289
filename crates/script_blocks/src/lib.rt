//! The calls of a script that keep the decoder's record: `store` and `restore`.
#![tactic(auto)]

pub mod restoring;
pub mod storing;
