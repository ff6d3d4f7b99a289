//! Calls in a row, and `try_recover`, on lent words.

ghost use Rattle.tools.specs.Answers.{Gives};
ghost use Rattle.decoder_words.specs.Calls.{decode_words, recover_words, GivesThree};

use crate::replies::{plain, ran_reply, search_reply, words_refused};
use crate::types::Reply;
use many_events::run::run;
use stored_decoder::taken::check_words;
use stored_decoder::words::{put_words, record_of};

/// As many events as the lent list has room for, at the end of input or before it.
pub fn decode_many(
    eof: bool,
    entries: &[u64],
    parts: &[u64],
    words: &mut [u64],
    input: &[u8],
    events: &mut [u64],
) -> Reply
    ensures { GivesThree result words.new events.new (decode_words eof entries.now parts.now words.old input.now events.old) }
{
    match check_words(words) {
        Ok(()) => {
            let d = record_of(words);
            let r = run(eof, entries, parts, d, input, events);
            put_words(r.state, words);
            ran_reply(r)
        }
        Err(e) => plain(words_refused(e), 0, 0, 0, 0),
    }
}

/// The search for the next valid header.
pub fn try_recover(entries: &[u64], parts: &[u64], words: &mut [u64], input: &[u8]) -> Reply
    ensures { Gives result words.new (recover_words entries.now parts.now words.old input.now) }
{
    match check_words(words) {
        Ok(()) => {
            let d = record_of(words);
            let r = tag_decoder::recovery::try_recover(entries, parts, d, input);
            put_words(r.state, words);
            search_reply(r.answer, r.taken)
        }
        Err(e) => plain(words_refused(e), 0, 0, 0, 0),
    }
}
