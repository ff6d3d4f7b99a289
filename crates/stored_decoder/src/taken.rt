//! Which words are taken for a record's.

ghost use Rattle.std.specs.Prelude.{◌≡◌};
ghost use Rattle.decoder_rules.specs.OneCall.{good_state};
ghost use Rattle.stored_decoder.specs.Check.{check_words};

use crate::types::{StoreError, WORD_COUNT};
use crate::words::{put_words, record_of};
use decoder_look::summary::{good_ends, summarize};
use decoder_rules::types::TagDecoder;
use spec_util::types::MOST_OPEN;

/// What refusal 11 asks of the record.
pub fn good_state(d: TagDecoder) -> bool
    ensures { result ≡ good_state d }
{
    let mut ids = [0u64; MOST_OPEN];
    let mut knowns = [false; MOST_OPEN];
    let ends = good_ends(d);
    let summary = summarize(d, ends, &mut ids, &mut knowns);
    summary.is_state_good
}

/// Whether words in layout 2 are a record's, and why not. They have no yes-or-no word over 1 and no unused byte set just
/// where they are the words of the record that they hold.
#[tactic(auto, using(crate::proofs::Checks::checked_length, crate::proofs::Checks::checked_layout, crate::proofs::Checks::checked_unused, crate::proofs::Checks::checked_bad, crate::proofs::Checks::checked_good))]
pub fn check_words(words: &[u64]) -> Result<(), StoreError>
    ensures { result ≡ check_words words.now }
{
    if words.len() != WORD_COUNT {
        return Err(StoreError::BlockLength);
    }
    if words[0] != 2 {
        return Err(StoreError::UnknownLayout);
    }
    let d = record_of(words);
    let mut own = [0u64; WORD_COUNT];
    put_words(d, &mut own);
    if words != &own[..] {
        return Err(StoreError::UnusedSet);
    }
    if !good_state(d) {
        return Err(StoreError::BadState);
    }
    Ok(())
}
