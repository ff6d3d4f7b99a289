//! The calls on a lent table: `table`, which lends one; `check`, `ended`, `path`, `sended` and `spath`, which ask it.
#![tactic(auto)]

mod asking;
pub mod calls;
pub mod lending;
pub mod lists;
mod stack;
