//! As many events a call as a lent list has room for, 8 words each: calls in a row on one stretch of bytes.
#![tactic(auto)]

mod events;
mod quick;
pub mod run;
pub mod types;
