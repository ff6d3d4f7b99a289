//! Is a night whole? What is kept of the answers to an input, the verdict at the last of them, and its line; the verdict
//! on a record in memory, and a verdict as numbers.
#![tactic(auto)]

pub mod check;
pub mod line;
pub mod memory;
pub mod numbers;
pub mod types;
