//! One look at the decoder's record: what the tests of a call ask of it, and its open masters in lent words. Nothing
//! after it takes the record but the move.
#![tactic(auto)]

pub mod places;
pub mod summary;
