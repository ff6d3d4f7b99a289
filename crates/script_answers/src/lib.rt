//! A decoder's answers and its record as text of a script.
#![tactic(auto)]

pub mod answers;
pub mod record;
