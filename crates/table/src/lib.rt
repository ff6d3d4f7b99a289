//! The lent table, which stands for the Rust's `TSpec`: two slices of words, entries and path parts.
//! Every routine answers on any words; what each answer is stands in specs/.
#![tactic(auto)]

pub mod bench;
pub mod check;
mod entry;
pub mod lookup;
pub mod parts;
pub mod shape;
pub mod types;
