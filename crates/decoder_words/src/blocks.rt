//! The decoder of lent words stored as a block, and lent words from one.

ghost use Rattle.tools.specs.Answers.{Gives};
ghost use Rattle.decoder_words.specs.Calls.{store_from_words, restore_to_words};

use crate::replies::{DONE, acceptance_code, words_refused};
use stored_decoder::taken::check_words;
use stored_decoder::types::{Restored, StoreError, WORD_COUNT};
use stored_decoder::words::{put_words, record_of};

/// Stores the decoder in the lent block; a refusal writes nothing.
pub fn store(words: &[u64], block: &mut [u8]) -> u64
    ensures { Gives result block.new (store_from_words words.now block.old) }
{
    match check_words(words) {
        Ok(()) => {
            let d = record_of(words);
            acceptance_code(stored_decoder::blocks::store(d, block))
        }
        Err(e) => words_refused(e),
    }
}

/// The decoder of the lent block in the lent words, whatever they held; a refusal writes nothing.
#[tactic(auto, using(crate::proofs::Answered::restore_length, crate::proofs::Answered::restore_taken))]
pub fn restore(words: &mut [u64], block: &[u8]) -> u64
    ensures { Gives result words.new (restore_to_words words.old block.now) }
{
    if words.len() != WORD_COUNT {
        return words_refused(StoreError::BlockLength);
    }
    let Restored { answer, state } = stored_decoder::blocks::restore(
        tag_decoder::settings::new(),
        block,
    );
    match answer {
        Ok(()) => {
            put_words(state, words);
            DONE
        }
        Err(e) => words_refused(e),
    }
}
