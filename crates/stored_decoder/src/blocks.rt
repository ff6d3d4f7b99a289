//! A record stored as a block, and restored from one.

ghost use Rattle.std.specs.Prelude.{Ok, ◌≡◌, ◌+◌, ◌*◌, ◌≤◌, length};
ghost use Rattle.tools.specs.Answers.{Gives};
ghost use Rattle.stored_decoder.specs.Words.{word_count};
ghost use Rattle.decoder_rules.specs.declared.types.TagDecoder.{TagDecoder};
ghost use Rattle.stored_decoder.specs.Writing.{may_store};
ghost use Rattle.stored_decoder.specs.Block.{block_length, bytes_of, words_of, store_words, store_out, record_if_taken, restore_words, restore_from};

use crate::layout1::{IN_USE, all_zero, from_layout_1};
use crate::taken::{check_words, good_state};
use crate::types::{BLOCK_LENGTH, Restored, StoreError, WORD_COUNT};
use crate::words::{put_words, record_of};
use decoder_rules::types::TagDecoder;

// The words of a block.
fn read_words(block: &[u8], words: &mut [u64])
    requires { (length block.now ≡ block_length) × (length words.old ≡ word_count) }
    ensures { words.new ≡ words_of block.now }
{
    let (chunks, _) = block.as_chunks::<8>();
    for i in 0..WORD_COUNT {
        words[i] = u64::from_be_bytes(chunks[i]);
    }
}

// The bytes of words.
fn put_bytes(words: &[u64], block: &mut [u8])
    requires { (length words.now ≡ word_count) × (length block.old ≡ block_length) }
    ensures { block.new ≡ bytes_of words.now }
{
    for i in 0..WORD_COUNT {
        block[8 * i..8 * i + 8].copy_from_slice(&words[i].to_be_bytes());
    }
}

// Whether the record may be stored in lent room of this length, of which so much is wanted.
fn check_store(d: TagDecoder, length: usize, wanted: usize) -> Result<(), StoreError>
    ensures { result ≡ may_store wanted «length» d }
{
    if length != wanted {
        return Err(StoreError::BlockLength);
    }
    if !good_state(d) {
        return Err(StoreError::BadState);
    }
    Ok(())
}

/// Stores the record in the lent words; a refusal (90, 11) writes nothing.
#[tactic(auto, using(crate::proofs::Checks::stores_refused, crate::proofs::Checks::stores_all))]
pub fn store_words(d: TagDecoder, words: &mut [u64]) -> Result<(), StoreError>
    ensures { Gives result words.new (store_words d words.old) }
{
    check_store(d, words.len(), WORD_COUNT)?;
    put_words(d, words);
    Ok(())
}

/// Stores the record in the lent block; a refusal (90, 11) writes nothing.
#[tactic(auto, using(crate::proofs::Checks::stores_refused, crate::proofs::Checks::stores_all))]
pub fn store(d: TagDecoder, block: &mut [u8]) -> Result<(), StoreError>
    ensures { Gives result block.new (store_out d block.old) }
{
    check_store(d, block.len(), BLOCK_LENGTH)?;
    let mut words = [0u64; WORD_COUNT];
    put_words(d, &mut words);
    put_bytes(&words, block);
    Ok(())
}

// Reads the block, in either layout, as words in layout 2; whether they are a record's, and why not. After a refusal
// the words may be any.
#[tactic(auto, using(crate::proofs::Checks::restores_length, crate::proofs::Checks::restores_layout2, crate::proofs::Checks::restores_unused, crate::proofs::Checks::restores_layout1))]
fn read_block(block: &[u8], words: &mut [u64]) -> Result<(), StoreError>
    requires { length words.old ≡ word_count }
    ensures length { length words.new ≡ word_count }
    ensures taken { (d : TagDecoder) → record_if_taken d words.new result ≡ restore_from d block.now }
{
    if block.len() != BLOCK_LENGTH {
        return Err(StoreError::BlockLength);
    }
    read_words(block, words);
    if words[0] != 1 {
        return check_words(words);
    }
    if !all_zero(&words[IN_USE..]) {
        return Err(StoreError::UnusedSet);
    }
    let mut layout_1 = [0u64; WORD_COUNT];
    layout_1.copy_from_slice(words);
    from_layout_1(&layout_1, words);
    check_words(words)
}

// The answer, and the record after it: the words' where they are taken, else the old one.
fn record_if_taken(d: TagDecoder, words: &[u64], answer: Result<(), StoreError>) -> Restored
    requires { answer ≡ Ok tt → length words.now ≡ word_count }
    ensures { result ≡ record_if_taken d words.now answer }
{
    let state = if answer.is_ok() { record_of(words) } else { d };
    Restored { answer, state }
}

/// The record of words in layout 2; a refusal (90, 91, 92, 11) leaves the record as it is.
#[tactic(auto, using(crate::proofs::Checks::accepted_length))]
pub fn restore_words(d: TagDecoder, words: &[u64]) -> Restored
    ensures { result ≡ restore_words d words.now }
{
    record_if_taken(d, words, check_words(words))
}

/// The record that the lent block holds, in either layout; a refusal (90, 91, 92, 11) leaves the record as it is.
pub fn restore(d: TagDecoder, block: &[u8]) -> Restored
    ensures { result ≡ restore_from d block.now }
{
    let mut words = [0u64; WORD_COUNT];
    let answer = read_block(block, &mut words);
    record_if_taken(d, &words, answer)
}
