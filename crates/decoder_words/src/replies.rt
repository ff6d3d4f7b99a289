//! The answers of the decoder as replies in numbers.

ghost use Rattle.std.specs.Prelude.{cond, ◌≡◌};
ghost use Rattle.std.specs.Option.{is_some};
ghost use Rattle.decoder_words.specs.Replies.{number_of, begin_of, end_of, plain, cut_named, cut_reply, refusal_reply, stop_reply, ran_reply, search_reply, acceptance_code, words_refused};

use crate::types::Reply;
use decoder_rules::errors::error_number;
use decoder_rules::types::{Cut, DecodeError, Refusal, Search};
use many_events::types::{Ran, Stop};
use stored_decoder::types::StoreError;
use tag_parse::types::Range;

/// The code where the call was made.
pub const DONE: u64 = 0;

// The code where the input has ended and every event of it is handed out.
const FINISHED: u64 = 1;

// The code where a recovery found a valid header.
const FOUND: u64 = 2;

// The code where it found none.
const NOT_FOUND: u64 = 3;

// What is added to a refusal's number in its code.
const REFUSED: u64 = 256;

// The code where more bytes are needed.
const NEEDS_MORE: u64 = 512;

// ---- codes

/// The code of a refusal of words, or of a block.
pub fn words_refused(e: StoreError) -> u64
    ensures { result ≡ words_refused e }
{
    REFUSED + stored_decoder::errors::error_number(e)
}

/// The code of what storing or restoring answers.
pub fn acceptance_code(a: Result<(), StoreError>) -> u64
    ensures { result ≡ acceptance_code a }
{
    match a {
        Ok(()) => DONE,
        Err(e) => words_refused(e),
    }
}

// ---- what refusal 23 names

// So much where there is something, else 0.
fn if_some<T: Copy>(o: Option<T>, n: u64) -> u64
    ensures { result ≡ cond (is_some o) n 0 }
{
    if o.is_some() { n } else { 0 }
}

// The number, where there is one, else 0.
fn number_of(o: Option<u64>) -> u64
    ensures { result ≡ number_of o }
{
    o.unwrap_or(0)
}

// Where the bytes begin, where there are any, else 0.
fn begin_of(p: Option<Range>) -> u64
    ensures { result ≡ begin_of p }
{
    p.map_or(0, |range| range.begin)
}

// Where they end.
fn end_of(p: Option<Range>) -> u64
    ensures { result ≡ end_of p }
{
    p.map_or(0, |range| range.end)
}

// Which of ID, size and bytes there are.
#[tactic(auto, using(crate::proofs::Bounds::named))]
fn cut_named(id: Option<u64>, size: Option<u64>, part: Option<Range>) -> u64
    ensures { result ≡ cut_named id size part }
{
    if_some(id, 1) + (if_some(size, 2) + if_some(part, 4))
}

// ---- replies

/// A reply that names nothing.
pub fn plain(code: u64, events: usize, taken: usize, place: u64, missing: usize) -> Reply
    ensures { result ≡ plain code events taken place missing }
{
    Reply {
        code,
        events: events as u64,
        taken: taken as u64,
        place,
        missing: missing as u64,
        cut_named: 0,
        cut_start: 0,
        cut_id: 0,
        cut_size: 0,
        cut_begin: 0,
        cut_end: 0,
    }
}

// The reply that names the element that the end cuts.
fn cut_reply(code: u64, events: usize, taken: usize, place: u64, c: Cut) -> Reply
    ensures { result ≡ cut_reply code events taken place c }
{
    let id = c.id;
    let size = c.size;
    let part = c.part;
    Reply {
        code,
        events: events as u64,
        taken: taken as u64,
        place,
        missing: 0,
        cut_named: cut_named(id, size, part),
        cut_start: c.start,
        cut_id: number_of(id),
        cut_size: number_of(size),
        cut_begin: begin_of(part),
        cut_end: end_of(part),
    }
}

// The reply of a refusal by the decoder, after so many events and bytes.
fn refusal_reply(refusal: Refusal, events: usize, taken: usize) -> Reply
    ensures { result ≡ refusal_reply refusal events taken }
{
    let error = refusal.error;
    let code = REFUSED + error_number(error);
    if let DecodeError::UnexpectedEOF(cut) = error {
        return cut_reply(code, events, taken, refusal.place, cut);
    }
    plain(code, events, taken, refusal.place, 0)
}

// The reply of why calls in a row stop.
fn stop_reply(events: usize, taken: usize, stop: Result<Stop, Refusal>) -> Reply
    ensures { result ≡ stop_reply events taken stop }
{
    match stop {
        Ok(Stop::Full) => plain(DONE, events, taken, 0, 0),
        Ok(Stop::NeedMore { missing }) => plain(NEEDS_MORE, events, taken, 0, missing),
        Ok(Stop::Finished) => plain(FINISHED, events, taken, 0, 0),
        Err(refusal) => refusal_reply(refusal, events, taken),
    }
}

/// The reply to calls in a row.
pub fn ran_reply(r: Ran) -> Reply
    ensures { result ≡ ran_reply r }
{
    let stop = r.stop;
    stop_reply(r.count, r.taken, stop)
}

/// The reply to a recovery that took so many bytes.
pub fn search_reply(search: Result<Search, Refusal>, taken: usize) -> Reply
    ensures { result ≡ search_reply search taken }
{
    match search {
        Ok(Search::Found { .. }) => plain(FOUND, 0, taken, 0, 0),
        Ok(Search::NotFound { .. }) => plain(NOT_FOUND, 0, taken, 0, 0),
        Err(refusal) => refusal_reply(refusal, 0, taken),
    }
}
