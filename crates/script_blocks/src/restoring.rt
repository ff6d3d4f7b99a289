//! `restore W,W,.. TAIL`: the record from a block, which is these words, big-endian, and then the bytes of TAIL.

ghost use Rattle.std.specs.Prelude.{◌≡◌, OnErr};

use decoder_rules::types::TagDecoder;
use script_table::lists::{is_word_list, read_words};
use script_text::answers::{BadLine, Line};
use script_text::reading::{MOST_BYTES, read_hex};
use script_text::words::split_once;
use stored_decoder::blocks::restore;
use stored_decoder::errors::error_number;

// One word more than a block has: more words than these are too many as well.
const MOST_WORDS: usize = 321;

// The bytes of so many words, and of TAIL.
const BLOCK_BYTES: usize = 8 * MOST_WORDS + MOST_BYTES;

/// Answers `restore` by the words after it: `ok`, and the record is the block's, or `X` and a refusal, and it stays.
pub fn answer_restore(words: &[u8], decoder: &mut TagDecoder, out: &mut Line) -> Result<(), BadLine>
    ensures { OnErr result (decoder.new ≡ decoder.old) }
{
    let (list, tail) = split_once(words, b' ').ok_or(BadLine)?;
    if !is_word_list(list) {
        return Err(BadLine);
    }
    let mut words = [0; MOST_WORDS];
    let word_count = read_words(list, &mut words);
    let mut block = [0u8; BLOCK_BYTES];
    let (front, rest) = block.split_at_mut(8 * word_count);
    for (bytes, word) in front.chunks_exact_mut(8).zip(&words[..word_count]) {
        bytes.copy_from_slice(&word.to_be_bytes());
    }
    let count = front.len() + read_hex(tail, rest).ok_or(BadLine)?;
    let restored = restore(*decoder, &block[..count]);
    *decoder = restored.state;
    match restored.answer {
        Ok(()) => out.put(b"ok"),
        Err(error) => write!(out, "X {}", error_number(error)),
    }
    Ok(())
}
