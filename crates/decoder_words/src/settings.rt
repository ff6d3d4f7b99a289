//! A new decoder in lent words, its settings, and what it tells of itself.

ghost use Rattle.std.specs.Prelude.{◌≡◌, ℕ};
ghost use Rattle.decoder_rules.specs.declared.types.TagDecoder.{TagDecoder};
ghost use Rattle.tools.specs.Answers.{Gives};
ghost use Rattle.stored_decoder.specs.Words.{yes_no};
ghost use Rattle.decoder_words.specs.Replies.{told, untold};
ghost use Rattle.decoder_words.specs.Calls.{new_words, set_words, number_words, allow_words, strict_words, limit_words, position_words, finished_words};

use crate::replies::{DONE, words_refused};
use crate::types::Number;
use decoder_rules::types::TagDecoder;
use stored_decoder::taken::check_words;
use stored_decoder::types::{StoreError, WORD_COUNT};
use stored_decoder::words::{put_words, record_of};

/// A fresh decoder in the lent words, whatever they held.
#[tactic(auto, using(crate::proofs::Answered::new_length, crate::proofs::Answered::new_written))]
pub fn new(words: &mut [u64]) -> u64
    ensures { Gives result words.new (new_words words.old) }
{
    if words.len() != WORD_COUNT {
        return words_refused(StoreError::BlockLength);
    }
    let d = tag_decoder::settings::new();
    put_words(d, words);
    DONE
}

// The record of the lent words is changed; 0, or why the words are no decoder's. The contract speaks of any definition
// that the change computes.
fn set<F: FnOnce(TagDecoder) -> TagDecoder>(words: &mut [u64], change: F) -> u64
    requires { F.IsAlwaysCallable change }
    ensures { (set : TagDecoder → TagDecoder) → ((d e : TagDecoder) → F.post change d e → e ≡ set d) → Gives result words.new (set_words set words.old) }
{
    match check_words(words) {
        Ok(()) => {
            put_words(change(record_of(words)), words);
            DONE
        }
        Err(e) => words_refused(e),
    }
}

/// Exactly these tests are switched off.
pub fn allow_errors(words: &mut [u64], ids: bool, hierarchy: bool, oversized: bool) -> u64
    ensures { Gives result words.new (allow_words words.old ids hierarchy oversized) }
{
    set(words, |d| {
        tag_decoder::settings::allow_errors(d, ids, hierarchy, oversized)
    })
}

/// From now on reading is strict, or as ported.
pub fn set_strict(words: &mut [u64], strict: bool) -> u64
    ensures { Gives result words.new (strict_words words.old strict) }
{
    set(words, |d| tag_decoder::settings::set_strict(d, strict))
}

/// The greatest size, or none.
pub fn set_max_allowable_tag_size(words: &mut [u64], size: Option<u64>) -> u64
    ensures { Gives result words.new (limit_words words.old size) }
{
    set(
        words,
        |d| tag_decoder::settings::set_max_allowable_tag_size(d, size),
    )
}

// A number that is told of the decoder.
fn told(value: u64) -> Number
    ensures { result ≡ told value }
{
    Number { code: DONE, value }
}

// No number, since the words are no decoder's.
fn untold(e: StoreError) -> Number
    ensures { result ≡ untold e }
{
    Number {
        code: words_refused(e),
        value: 0,
    }
}

// A number of the record of the lent words, or why they are no decoder's. The contract speaks of any definition that is
// computed.
fn tell<F: FnOnce(TagDecoder) -> u64>(words: &[u64], number: F) -> Number
    requires { F.IsAlwaysCallable number }
    ensures { (told : TagDecoder → ℕ) → ((d : TagDecoder) (n : ℕ) → F.post number d n → n ≡ told d) → result ≡ number_words told words.now }
{
    match check_words(words) {
        Ok(()) => told(number(record_of(words))),
        Err(e) => untold(e),
    }
}

// A yes-or-no number.
fn yes_no(b: bool) -> u64
    ensures { result ≡ yes_no b }
{
    u64::from(b)
}

/// The position: how many bytes were taken.
pub fn position(words: &[u64]) -> Number
    ensures { result ≡ position_words words.now }
{
    tell(words, |d| d.position)
}

/// 1 where the decoder is finished and every End handed out, else 0.
pub fn is_finished(words: &[u64]) -> Number
    ensures { result ≡ finished_words words.now }
{
    tell(words, |d| yes_no(tag_decoder::settings::is_finished(d)))
}
