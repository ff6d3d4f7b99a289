//! What is kept from line to line.

ghost use Rattle.std.specs.Prelude.{◌≡◌, ◌||◌, not, ◌+◌, ◌-◌, ◌≤◌, min};
ghost use Rattle.named_list.specs.Seen.{nothing_seen, innermost, seen_event, seen_after};

use crate::types::Seen;
use decoder_rules::types::{Answer, Event, Refusal, TagDecoder};
use spec_util::types::{MOST_OPEN, OpenTag};

/// Before the first line: nothing.
pub fn nothing_seen() -> Seen
    ensures { result ≡ nothing_seen }
{
    Seen {
        starts: 0,
        front_missing: false,
        size_missing: false,
    }
}

// The place of the innermost of so many open masters.
fn innermost_place(count: usize) -> usize
    ensures { (result ≡ min (count - 1) 31) × (result ≤ 31) }
{
    count.saturating_sub(1).min(MOST_OPEN - 1)
}

/// The innermost open master of a record; what an empty place holds where none is open.
pub fn innermost_of(d: TagDecoder) -> OpenTag
    ensures { result ≡ innermost d }
{
    d.open[innermost_place(d.open_count)]
}

// After an event, with the record that it left.
#[tactic(auto, using(std::proofs::lemmas::Bool::Decides::nat_tests), unfolding(crate::specs::Seen::seen_event))]
fn seen_event(e: Event, d: TagDecoder, s: Seen) -> Seen
    ensures { result ≡ seen_event e d s }
{
    match e {
        Event::Start { .. } => {
            let is_open_ended = !innermost_of(d).known;
            Seen {
                starts: s.starts.saturating_add(1).min(MOST_OPEN as u64),
                front_missing: s.front_missing,
                size_missing: s.size_missing || is_open_ended,
            }
        }
        Event::End(_) => Seen {
            starts: s.starts.saturating_sub(1),
            front_missing: s.front_missing || s.starts == 0,
            size_missing: s.size_missing,
        },
        Event::Data { .. } => s,
    }
}

/// What is kept after an answer, with the record that it left.
#[tactic(auto, using(std::proofs::lemmas::Bool::Decides::nat_tests), unfolding(crate::specs::Seen::seen_after))]
pub fn seen_after(answer: Result<Answer, Refusal>, d: TagDecoder, s: Seen) -> Seen
    ensures { result ≡ seen_after answer d s }
{
    match answer {
        Ok(Answer::Event(e)) => seen_event(e, d, s),
        Ok(Answer::NeedMore { .. }) => s,
        Ok(Answer::Finished) => s,
        Err(_) => s,
    }
}
