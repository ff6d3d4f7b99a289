//! The decoder's record lent by reference, as `&mut self` lends it in the Rust: each call takes the record out, makes
//! the call by value and stores the record that it answers. The toolchain takes methods only of a type of the same
//! crate, so these are functions that take the record first.
#![tactic(auto)]

pub mod calls;
pub mod settings;
pub mod types;
