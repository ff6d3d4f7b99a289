//! The line of an answer in the list for people.

ghost use Rattle.std.specs.Prelude.{◌+◌, ◌*◌, ◌≤◌, length, ◌++◌};
ghost use Rattle.tools.specs.Answers.{Gives};
ghost use Rattle.numerals.specs.Puts.{Puts};
ghost use Rattle.named_list.specs.Words.{indentation};
ghost use Rattle.named_list.specs.Named.{depth_of, event_text, answer_text, named_line_out};

use crate::elements::{depth_of, put_event};
use crate::endings::{put_finish, put_refusal, put_too_large};
use crate::types::Seen;
use crate::words::put_indentation;
use decoder_rules::types::{Answer, Event, Refusal, TagDecoder};
use numerals::put;

/// No line is longer than this and four bytes for each byte taken.
pub const MOST_NAMED: usize = 256;

// An event, indented by the masters around it.
fn put_indented(e: Event, d: TagDecoder, starts: u64, taken: &[u8], out: &mut [u8]) -> usize
    requires { 255 + 4 * length taken.now ≤ length out.old }
    ensures { Puts (255 + 4 * length taken.now) result out.new out.old 0 (indentation (depth_of e d) ++ event_text e d starts taken.now) }
{
    let next = put_indentation(depth_of(e, d), out, 0);
    put_event(e, d, starts, taken, out, next)
}

// An answer, with the record that it left, what was seen before it and the bytes taken so far.
#[tactic(auto, using(numerals::proofs::Putting::within), unfolding(crate::specs::Named::answer_text))]
fn put_answer(
    answer: Result<Answer, Refusal>,
    d: TagDecoder,
    s: Seen,
    taken: &[u8],
    out: &mut [u8],
) -> usize
    requires { 255 + 4 * length taken.now ≤ length out.old }
    ensures { Puts (255 + 4 * length taken.now) result out.new out.old 0 (answer_text answer d s taken.now) }
{
    match answer {
        Ok(Answer::Event(e)) => put_indented(e, d, s.starts, taken, out),
        Ok(Answer::NeedMore { .. }) => put_too_large(d.position, out, 0),
        Ok(Answer::Finished) => put_finish(d.position, s.front_missing, s.size_missing, out, 0),
        Err(r) => put_refusal(r, d.position, out, 0),
    }
}

/// Puts the line of an answer at the front of the lent bytes, with the record that it left, what was seen before it and
/// the bytes taken so far, the answer's own last: its length, or 0 and nothing written where too few bytes are lent.
#[tactic(auto, using(texts::proofs::Putting::put_none), unfolding(crate::specs::Named::named_line_out))]
pub fn put_named_line(
    answer: Result<Answer, Refusal>,
    d: TagDecoder,
    s: Seen,
    taken: &[u8],
    out: &mut [u8],
) -> usize
    ensures { Gives result out.new (named_line_out answer d s taken.now out.old) × (result ≤ length out.old) }
{
    if out.len() < MOST_NAMED || (out.len() - MOST_NAMED) / 4 < taken.len() {
        return 0;
    }
    let next = put_answer(answer, d, s, taken, out);
    put(b'\n', out, next)
}
