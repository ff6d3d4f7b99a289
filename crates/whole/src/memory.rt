//! The verdict on a record that is all in memory.

ghost use Rattle.std.specs.Prelude.{◌≡◌};
ghost use Rattle.whole.specs.Checking.{verdict_of};
ghost use Rattle.whole.specs.Night.{is_event, answers_to};

use crate::check::{seen_after, start, verdict_at};
use crate::types::Verdict;
use decoder_rules::types::{Answer, Refusal};
use tag_decoder::calls::decode_eof;
use tag_decoder::settings::{new, set_strict};

// Whether an answer is an event.
fn is_event(answer: Result<Answer, Refusal>) -> bool
    ensures { result ≡ is_event answer }
{
    matches!(answer, Ok(Answer::Event(_)))
}

/// The verdict on a record that is all in the lent bytes, with a lent table, read strictly or as ported.
pub fn verdict_on(entries: &[u64], parts: &[u64], strict: bool, input: &[u8]) -> Verdict
    ensures { result ≡ verdict_of (answers_to strict entries.now parts.now input.now) }
{
    let mut decoder = set_strict(new(), strict);
    let mut seen = start();
    let mut at: usize = 0;
    loop {
        let r = decode_eof(entries, parts, decoder, &input[at..]);
        let answer = r.answer;
        decoder = r.state;
        if !is_event(answer) {
            return verdict_at(seen, answer, decoder);
        }
        seen = seen_after(seen, answer, decoder);
        at += r.taken;
    }
}
