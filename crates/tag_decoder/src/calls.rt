//! `decode` and `decode_eof`.

ghost use Rattle.std.specs.Prelude.{◌≡◌};
ghost use Rattle.decoder_rules.specs.Moving.{decode};
ghost use Rattle.decoder_rules.specs.EndOfInput.{decode_eof};

use crate::end_of_input::end_of_input;
use decoder_decide::decide::decide;
use decoder_look::summary::{good_ends, summarize};
use decoder_move::answers::{answer_to, taken_by, top_place};
use decoder_move::moves::{closed_to, handed_out, master_at, settled_to, with_child};
use decoder_rules::types::{Action, Answer, Decoded, TagDecoder};
use spec_util::types::MOST_OPEN;

/// One call: the next event, or need more, finished, or a refusal. The record is looked at once, and what was seen of
/// it decides. The note and the moves are made in place, and the answer's record once, since a record that goes through
/// a call is copied.
// An arm stands for each action, also where nothing moves: of an or-pattern the proof learns nothing.
pub fn decode(entries: &[u64], parts: &[u64], mut d: TagDecoder, input: &[u8]) -> Decoded
    ensures { result ≡ decode entries.now parts.now d input.now }
{
    let mut ids = [0u64; MOST_OPEN];
    let mut knowns = [false; MOST_OPEN];
    let ends = d.waiting_count == 0 || good_ends(d);
    let summary = summarize(d, ends, &mut ids, &mut knowns);
    let decision = decide(entries, parts, summary, &ids, &knowns, input);
    let note = decision.note;
    let action = decision.action;
    if let Some(path) = note {
        d = settled_to(d, parts, path);
    }
    let top = top_place(d.open_count);
    let answer = answer_to(action, d.position, d.waiting[0], d.open[top]);
    let taken = taken_by(action);
    match action {
        Err(_) => {}
        Ok(Action::NeedMore { .. }) => {}
        Ok(Action::Finish) => {}
        Ok(Action::HandOut) => d = handed_out(d),
        Ok(Action::Close(k)) => d = closed_to(d, k),
        Ok(Action::Start { id, size, len }) => {
            let n = d.open_count;
            d.open[top] = with_child(d.open[top], n);
            d.open[n] = master_at(id, size, d.position, len);
            d.open_count = n + 1;
            d.position += len as u64;
        }
        Ok(Action::Data { taken: n, .. }) => {
            d.open[top] = with_child(d.open[top], d.open_count);
            d.position += n as u64;
        }
    }
    Decoded {
        answer,
        taken,
        state: d,
    }
}

/// The same once the input has ended for good.
pub fn decode_eof(entries: &[u64], parts: &[u64], d: TagDecoder, input: &[u8]) -> Decoded
    ensures { result ≡ decode_eof entries.now parts.now d input.now }
{
    let r = decode(entries, parts, d, input);
    let answer = r.answer;
    let state = r.state;
    // Arms with one body stand apart: of an or-pattern the proof learns nothing.
    match answer {
        Ok(Answer::Event(_)) => r,
        Ok(Answer::NeedMore { .. }) => end_of_input(entries, parts, state, input),
        Ok(Answer::Finished) => end_of_input(entries, parts, state, input),
        Err(_) => r,
    }
}
