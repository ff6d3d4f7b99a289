//! For the bench alone: what its drivers call to measure and to compare. Proved safe and ending; a contract says no
//! more than a caller here needs.
#![tactic(auto)]

pub mod blocks;
pub mod lines;
pub mod recovery;
pub mod seen;
pub mod speed;
