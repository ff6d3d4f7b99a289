//! One call of the lister, and its buffer before and after a read.

ghost use Rattle.std.specs.Prelude.{◌≡◌, ◌++◌, ◌+◌, ◌≤◌, min, nat_abs, length, take, drop};
ghost use Rattle.tools.specs.Answers.{Gives};
ghost use Rattle.event_list.specs.Reading.{started, called, next_of, call_once, unread_moved_to_front, filled_by, after_read};

use crate::types::{CallResult, Listing, Next};
use decoder_rules::types::{Answer, Decoded, Refusal, TagDecoder};
use table::bench::{entries, parts};
use tag_decoder::calls::{decode, decode_eof};
use tag_decoder::settings::{new, set_strict};

/// What is kept before the first read: a fresh decoder, reading strictly or as ported, and nothing unread.
pub fn start(strict: bool) -> Listing
    ensures { result ≡ started strict }
{
    let decoder = set_strict(new(), strict);
    Listing {
        decoder,
        from: 0,
        upto: 0,
        ended: false,
    }
}

// The call of the decoder that is due.
#[tactic(auto, using(crate::proofs::Buffers::called_over, crate::proofs::Buffers::called_on))]
fn call(ended: bool, d: TagDecoder, unread: &[u8]) -> Decoded
    ensures { result ≡ called ended d unread.now }
{
    let table = entries();
    let paths = parts();
    if ended {
        decode_eof(&table, &paths, d, unread)
    } else {
        decode(&table, &paths, d, unread)
    }
}

// What is to be done after an answer, with so many bytes unread in a buffer of so many.
fn next_of(answer: Result<Answer, Refusal>, unread: usize, room: usize) -> Next
    ensures { result ≡ next_of answer unread room }
{
    match answer {
        Ok(Answer::Event(_)) => Next::Line,
        Ok(Answer::NeedMore { .. }) if unread < room => Next::Read,
        _ => Next::Last,
    }
}

/// One call on the unread bytes, and what is to be done after it.
pub fn call_once(buffer: &[u8], l: Listing) -> CallResult
    ensures { result ≡ call_once l buffer.now }
{
    let upto = l.upto.min(buffer.len());
    let from = l.from.min(upto);
    let Decoded {
        answer,
        taken,
        state,
    } = call(l.ended, l.decoder, &buffer[from..upto]);
    CallResult {
        answer,
        next: next_of(answer, upto - from, buffer.len()),
        listing: Listing {
            decoder: state,
            from: from + taken,
            upto,
            ended: l.ended,
        },
    }
}

// So many bytes from a place on move to the front.
fn shift(buffer: &mut [u8], from: usize, count: usize)
    requires { from + count ≤ length buffer.old }
    ensures { buffer.new ≡ take count (drop from buffer.old) ++ drop count buffer.old }
{
    buffer.copy_within(from..from + count, 0);
}

/// The unread bytes move to the front, so that the buffer can be filled behind them.
pub fn move_unread_to_front(buffer: &mut [u8], l: Listing) -> Listing
    ensures { Gives result buffer.new (unread_moved_to_front l buffer.old) × (result.upto ≤ length buffer.old) }
{
    let upto = l.upto.min(buffer.len());
    let from = l.from.min(upto);
    shift(buffer, from, upto - from);
    Listing {
        from: 0,
        upto: upto - from,
        ..l
    }
}

// A read put so many bytes behind the unread ones.
fn filled_by(room: usize, mut l: Listing, count: usize) -> Listing
    ensures { result ≡ filled_by room l count }
{
    if count == 0 {
        l.ended = true;
        return l;
    }
    let upto = l.upto.min(room);
    l.upto = upto + count.min(room - upto);
    l
}

/// A read behind the unread bytes, in a buffer of so many bytes, has answered.
#[tactic(auto, using(crate::proofs::Buffers::interrupted, crate::proofs::Buffers::answered))]
pub fn after_read(room: usize, l: Listing, got: isize) -> Listing
    ensures { result ≡ after_read room l got }
{
    if got < 0 {
        return l;
    }
    filled_by(room, l, got as usize)
}
