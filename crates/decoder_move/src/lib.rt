//! How the record moves, and what is answered: every move, opening too.
#![tactic(auto)]

pub mod answers;
pub mod moves;
