//! Calls in a row, as they are answered at once.

use decoder_rules::types::{Refusal, TagDecoder};

/// The words of one event.
pub const EVENT_WORDS: usize = 8;

/// Why calls in a row stop that no refusal stops: there is no room for another event, or the first answer that is no
/// event.
#[derive(Clone, Copy, Debug, PartialEq, Eq)]
pub enum Stop {
    Full,
    /// So many bytes are missing, at least.
    NeedMore { missing: usize },
    Finished,
}

/// How many events were handed out, how many bytes were taken for them, why the calls stop, and the record after them.
#[derive(Clone, Copy)]
pub struct Ran {
    pub count: usize,
    pub taken: usize,
    pub stop: Result<Stop, Refusal>,
    pub state: TagDecoder,
}
