//! What storing and restoring answer.

use decoder_rules::types::TagDecoder;

/// A record is so many words.
pub const WORD_COUNT: usize = 320;

/// A block is so many bytes.
pub const BLOCK_LENGTH: usize = 2560;

/// Why a block is not written, or not taken: its length; a layout that is not known; a yes-or-no word over 1, or an
/// unused byte that is set; a record that the decoder refuses by 11.
#[derive(Clone, Copy, Debug, PartialEq, Eq)]
pub enum StoreError {
    BlockLength,
    UnknownLayout,
    UnusedSet,
    BadState,
}

/// Whether a block is taken, and the record after it.
#[derive(Clone, Copy)]
pub struct Restored {
    pub answer: Result<(), StoreError>,
    pub state: TagDecoder,
}
