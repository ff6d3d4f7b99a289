//! `store N`: the record into a lent block of N bytes.

use decoder_rules::types::TagDecoder;
use script_text::answers::{BadLine, Line};
use script_text::reading::read_decimal;
use std::fmt;
use std::fmt::Display;
use stored_decoder::blocks::store;
use stored_decoder::errors::error_number;
use stored_decoder::types::BLOCK_LENGTH;
use tools::integer::unsigned_of;

// Any number of bytes over a block's is as good as another.
const MORE_THAN_BLOCK: usize = BLOCK_LENGTH + 1;

// What a lent block holds before the call.
const OLD: u8 = 0xAA;

// `K` and the words of a block, in hex.
#[derive(Clone, Copy)]
struct BlockText<'a>(&'a [u8]);

impl Display for BlockText<'_> {
    fn fmt<W: fmt::Write>(&self, f: &mut fmt::Formatter<W>) -> fmt::Result {
        write!(f, "K")?;
        for (i, word) in self.0.chunks_exact(8).enumerate() {
            let separator = if i == 0 { ' ' } else { ',' };
            write!(f, "{separator}{:X}", unsigned_of(word))?;
        }
        Ok(())
    }
}

/// Answers `store` by the word after it: the record's words as they stand in the block, or `X` and a refusal.
pub fn answer_store(word: &[u8], decoder: &TagDecoder, out: &mut Line) -> Result<(), BadLine> {
    let number = read_decimal(word).ok_or(BadLine)?;
    let mut block = [OLD; MORE_THAN_BLOCK];
    let lent = &mut block[..MORE_THAN_BLOCK.min(number as usize)];
    match store(*decoder, lent) {
        Ok(()) => write!(out, "{}", BlockText(lent)),
        Err(error) => write!(out, "X {}", error_number(error)),
    }
    Ok(())
}
