//! What is answered and taken where the record moves.

ghost use Rattle.std.specs.Prelude.{◌≡◌, ◌-◌, min, ◌≤◌, ◌<◌, Ok};
ghost use Rattle.decoder_rules.specs.Moving.{gives, refuse, move};
ghost use Rattle.decoder_rules.specs.declared.types.Action.TheVariants.{Close};
ghost use Rattle.decoder_move.specs.Answers.{answer_to, taken_by};
ghost use Rattle.spec_util.specs.Walk.{most_open};

use crate::moves::{LAST_PLACE, closed_to, end_for};
use decoder_rules::types::{
    Action, Answer, DecodeError, Decoded, Event, Refusal, TagDecoder, WaitingEnd,
};
use spec_util::types::OpenTag;

/// An answer that takes no byte.
pub fn taking_none(answer: Result<Answer, Refusal>, state: TagDecoder) -> Decoded
    ensures { result ≡ gives answer 0 state }
{
    Decoded {
        answer,
        taken: 0,
        state,
    }
}

/// A refusal at a place.
pub fn refuse(error: DecodeError, place: u64, state: TagDecoder) -> Decoded
    ensures { result ≡ refuse error place state }
{
    taking_none(Err(Refusal { error, place }), state)
}

/// The masters above the first k close, and the first End is handed out.
pub fn close(d: TagDecoder, k: usize) -> Decoded
    requires { (k < d.open_count) × (d.open_count ≤ most_open) }
    ensures { result ≡ move d (Ok (Close k)) }
{
    let top = d.open_count - 1;
    let master = d.open[top];
    let event = Event::End(end_for(master));
    taking_none(Ok(Answer::Event(event)), closed_to(d, k))
}

/// The index of the last of so many; 0 for none, that of the last place for more than there are places.
pub fn top_place(count: usize) -> usize
    ensures { result ≡ min (count - 1) (most_open - 1) }
{
    count.saturating_sub(1).min(LAST_PLACE)
}

/// What is answered: `first` is the first waiting End, `top` the top master.
#[tactic(auto, unfolding(crate::specs::Answers::answer_to))]
pub fn answer_to(
    action: Result<Action, DecodeError>,
    position: u64,
    first: WaitingEnd,
    top: OpenTag,
) -> Result<Answer, Refusal>
    ensures { result ≡ answer_to action position first top }
{
    match action {
        Err(error) => Err(Refusal {
            error,
            place: position,
        }),
        Ok(Action::NeedMore { missing }) => Ok(Answer::NeedMore { missing }),
        Ok(Action::Finish) => Ok(Answer::Finished),
        Ok(Action::HandOut) => Ok(Answer::Event(Event::End(first))),
        Ok(Action::Close(_)) => Ok(Answer::Event(Event::End(end_for(top)))),
        Ok(Action::Start { id, .. }) => Ok(Answer::Event(Event::Start {
            id,
            offset: position,
        })),
        Ok(Action::Data { id, value, .. }) => Ok(Answer::Event(Event::Data {
            id,
            offset: position,
            value,
        })),
    }
}

/// How many bytes are taken.
#[tactic(auto, unfolding(crate::specs::Answers::taken_by))]
pub fn taken_by(action: Result<Action, DecodeError>) -> usize
    ensures { result ≡ taken_by action }
{
    match action {
        Ok(Action::Start { len, .. }) => len,
        Ok(Action::Data { taken, .. }) => taken,
        _ => 0,
    }
}
