//! Answers a script of calls, a line for a call.
#![tactic(auto)]

pub mod run;
pub mod session;
