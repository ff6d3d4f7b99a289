//! A record's 320 words, and the record of words.

ghost use Rattle.std.specs.Prelude.{◌≡◌, length, replicate};
ghost use Rattle.stored_decoder.specs.Words.{word_count, rest_count, present, front_words, decoder_words, settings_of, record_of};
ghost use Rattle.stored_decoder.specs.Writing.{over};

use crate::places::{present, put_places, read_places};
use decoder_move::moves::no_end;
use decoder_rules::types::{Settings, TagDecoder};
use spec_util::types::{MOST_OPEN, no_tag};

// ---- a record's words

// The words before the masters.
#[tactic(auto, unfolding(crate::specs::Words::front_words))]
fn put_front(
    words: &mut [u64],
    s: Settings,
    position: u64,
    settled: bool,
    finished: bool,
    open: usize,
)
    requires { length words.old ≡ word_count }
    ensures { words.new ≡ over 0 (front_words s position settled finished «open») words.old }
{
    words[..11].copy_from_slice(&[
        2,
        u64::from(s.allow_ids),
        u64::from(s.allow_hierarchy),
        u64::from(s.allow_oversized),
        u64::from(s.strict),
        u64::from(s.max_given),
        present(s.max_given, s.max_size),
        position,
        u64::from(settled),
        u64::from(finished),
        open as u64,
    ]);
}

/// The words of the rest, which are not in use, hold 0.
#[tactic(auto, using(crate::proofs::Overwriting::zeros_put))]
pub fn put_rest(words: &mut [u64])
    requires { length words.old ≡ word_count }
    ensures { words.new ≡ over 300 (replicate rest_count 0) words.old }
{
    words[300..].fill(0);
}

/// The words of a record.
pub fn put_words(d: TagDecoder, words: &mut [u64])
    requires { length words.old ≡ word_count }
    ensures { words.new ≡ decoder_words d }
{
    let settings = d.settings;
    let open = d.open;
    let waiting = d.waiting;
    put_front(
        words,
        settings,
        d.position,
        d.settled,
        d.finished,
        d.open_count,
    );
    put_places(words, 11, &open, d.open_count);
    words[203] = d.waiting_count as u64;
    put_places(words, 204, &waiting, d.waiting_count);
    put_rest(words);
}

// ---- the record of words

// The settings. A yes-or-no word says no by 0.
#[tactic(auto, unfolding(crate::specs::Words::settings_of))]
fn settings_of(words: &[u64]) -> Settings
    requires { length words.now ≡ word_count }
    ensures { result ≡ settings_of words.now }
{
    Settings {
        allow_ids: words[1] != 0,
        allow_hierarchy: words[2] != 0,
        allow_oversized: words[3] != 0,
        strict: words[4] != 0,
        max_given: words[5] != 0,
        max_size: words[6],
    }
}

/// The record that words in layout 2 hold.
#[tactic(auto, unfolding(crate::specs::Words::record_of))]
pub fn record_of(words: &[u64]) -> TagDecoder
    requires { length words.now ≡ word_count }
    ensures { result ≡ record_of words.now }
{
    let settings = settings_of(words);
    let mut open = [no_tag(); MOST_OPEN];
    read_places(words, 11, &mut open);
    let mut waiting = [no_end(); MOST_OPEN];
    read_places(words, 204, &mut waiting);
    TagDecoder {
        settings,
        position: words[7],
        settled: words[8] != 0,
        finished: words[9] != 0,
        open,
        open_count: words[10] as usize,
        waiting,
        waiting_count: words[203] as usize,
    }
}
