//! The call of a script on the writer: `write`.
#![tactic(auto)]

pub mod calls;
pub mod items;
