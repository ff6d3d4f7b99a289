//! The decoder in the 320 words that a program lends: a new one, its settings, its calls, and the block that it is
//! stored in.

ghost use Rattle.std.specs.Prelude.{true, false, ◌≡◌};
ghost use Rattle.tools.specs.Answers.{Gives};
ghost use Rattle.stored_decoder.specs.Words.{is_yes};
ghost use Rattle.decoder_words.specs.Calls.{new_words, allow_words, strict_words, limit_words, position_words, finished_words, decode_words, recover_words, store_from_words, restore_to_words, GivesThree};
ghost use Rattle.ebml.specs.Decoding.{greatest_size};

use decoder_words::types::{Number, Reply};

// ---- a new decoder, and its settings

/// A fresh decoder in the lent words, whatever they held.
pub fn ebml_decoder_new(words: &mut [u64; 320]) -> u64
    ensures { Gives result words.new (new_words words.old) }
{
    decoder_words::settings::new(words)
}

/// Exactly those of the tests are switched off whose number is not 0.
pub fn ebml_allow_errors(words: &mut [u64; 320], ids: u64, hierarchy: u64, oversized: u64) -> u64
    ensures { Gives result words.new (allow_words words.old (is_yes ids) (is_yes hierarchy) (is_yes oversized)) }
{
    decoder_words::settings::allow_errors(words, ids != 0, hierarchy != 0, oversized != 0)
}

/// From now on reading is strict, or with 0 as ported.
pub fn ebml_set_strict(words: &mut [u64; 320], strict: u64) -> u64
    ensures { Gives result words.new (strict_words words.old (is_yes strict)) }
{
    decoder_words::settings::set_strict(words, strict != 0)
}

// The greatest size, or none where it is not given.
fn greatest_size(given: u64, size: u64) -> Option<u64>
    ensures { result ≡ greatest_size given size }
{
    if given == 0 { None } else { Some(size) }
}

/// From now on elements of more than this size are refused, or with `given` 0 none is for its size.
pub fn ebml_set_max_allowable_tag_size(words: &mut [u64; 320], given: u64, size: u64) -> u64
    ensures { Gives result words.new (limit_words words.old (greatest_size given size)) }
{
    decoder_words::settings::set_max_allowable_tag_size(words, greatest_size(given, size))
}

// ---- what a decoder tells of itself

/// The position: how many bytes were taken.
pub fn ebml_position(words: &[u64; 320]) -> Number
    ensures { result ≡ position_words words.now }
{
    decoder_words::settings::position(words)
}

/// 1 where the end of input was told and every End is handed out, else 0.
pub fn ebml_is_finished(words: &[u64; 320]) -> Number
    ensures { result ≡ finished_words words.now }
{
    decoder_words::settings::is_finished(words)
}

// ---- decoding

/// The next event, in the 8 words lent for it.
pub fn ebml_decode(
    words: &mut [u64; 320],
    entries: &[u64],
    parts: &[u64],
    input: &[u8],
    event: &mut [u64; 8],
) -> Reply
    ensures { GivesThree result words.new event.new (decode_words false entries.now parts.now words.old input.now event.old) }
{
    decoder_words::calls::decode_many(false, entries, parts, words, input, event)
}

/// The same at the end of input.
pub fn ebml_decode_eof(
    words: &mut [u64; 320],
    entries: &[u64],
    parts: &[u64],
    input: &[u8],
    event: &mut [u64; 8],
) -> Reply
    ensures { GivesThree result words.new event.new (decode_words true entries.now parts.now words.old input.now event.old) }
{
    decoder_words::calls::decode_many(true, entries, parts, words, input, event)
}

/// As many events as the lent list has room for, 8 words each.
pub fn ebml_decode_many(
    words: &mut [u64; 320],
    entries: &[u64],
    parts: &[u64],
    input: &[u8],
    events: &mut [u64],
) -> Reply
    ensures { GivesThree result words.new events.new (decode_words false entries.now parts.now words.old input.now events.old) }
{
    decoder_words::calls::decode_many(false, entries, parts, words, input, events)
}

/// The same at the end of input.
pub fn ebml_decode_many_eof(
    words: &mut [u64; 320],
    entries: &[u64],
    parts: &[u64],
    input: &[u8],
    events: &mut [u64],
) -> Reply
    ensures { GivesThree result words.new events.new (decode_words true entries.now parts.now words.old input.now events.old) }
{
    decoder_words::calls::decode_many(true, entries, parts, words, input, events)
}

/// The search for the next valid header.
pub fn ebml_try_recover(
    words: &mut [u64; 320],
    entries: &[u64],
    parts: &[u64],
    input: &[u8],
) -> Reply
    ensures { Gives result words.new (recover_words entries.now parts.now words.old input.now) }
{
    decoder_words::calls::try_recover(entries, parts, words, input)
}

// ---- over a restart

/// The decoder as a block in the lent bytes.
pub fn ebml_store(words: &[u64; 320], block: &mut [u8]) -> u64
    ensures { Gives result block.new (store_from_words words.now block.old) }
{
    decoder_words::blocks::store(words, block)
}

/// The decoder of a block in the lent words, whatever they held.
pub fn ebml_restore(words: &mut [u64; 320], block: &[u8]) -> u64
    ensures { Gives result words.new (restore_to_words words.old block.now) }
{
    decoder_words::blocks::restore(words, block)
}
