//! What the lister keeps from one call to the next, and what a call tells it to do.

use decoder_rules::types::{Answer, Refusal, TagDecoder};

/// The unread bytes are those of the buffer from `from` up to `upto`; `ended` once a read has given nothing.
#[derive(Clone, Copy)]
pub struct Listing {
    pub decoder: TagDecoder,
    pub from: usize,
    pub upto: usize,
    pub ended: bool,
}

/// What is to be done after a call.
#[derive(Clone, Copy, Debug, PartialEq, Eq)]
pub enum Next {
    /// Print the answer's line and go on.
    Line,
    /// Print the answer's line, the last.
    Last,
    /// Read more; nothing is printed.
    Read,
}

/// What one call answered, what is to be done after it, and what is kept for the next.
#[derive(Clone, Copy)]
pub struct CallResult {
    pub answer: Result<Answer, Refusal>,
    pub next: Next,
    pub listing: Listing,
}
