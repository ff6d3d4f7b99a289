//! What a call on a lent record returns: the answer by value without its record.

use decoder_rules::types::{Answer, Refusal, Search};

/// The answer of a call, and the count of bytes taken.
#[derive(Clone, Copy)]
pub struct Reply {
    pub answer: Result<Answer, Refusal>,
    pub taken: usize,
}

/// The same of a recovery. It is no generic `Reply`: the theorems of guarantees and joining name both types.
#[derive(Clone, Copy)]
pub struct RecoveryReply {
    pub answer: Result<Search, Refusal>,
    pub taken: usize,
}
