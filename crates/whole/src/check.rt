//! What is kept of the answers to an input, and the verdict at the last of them.

ghost use Rattle.std.specs.Prelude.{◌≡◌, Ok};
ghost use Rattle.whole.specs.Checking.{at_start, counted_if, front_after, top_is_sized, start_seen, other_seen, seen_after, size_given, root_of, bytes_there, refused_as, finished_as, if_front, verdict_at};

use crate::types::{Root, Seen, Verdict};
use decoder_rules::errors::error_number;
use decoder_rules::types::{Answer, DecodeError, Event, Refusal, TagDecoder};
use spec_util::types::{MOST_OPEN, OpenTag};
use tag_parse::types::Range;

/// What is kept before the first answer.
pub fn start() -> Seen
    ensures { result ≡ at_start }
{
    Seen {
        begun: false,
        front: true,
        sized: true,
        id: 0,
        start: 0,
        records: 0,
        feeds: 0,
    }
}

// One more, where the condition holds, up to the greatest number.
fn counted_if(is: bool, n: u64) -> u64
    ensures { result ≡ counted_if is n }
{
    if is && n < u64::MAX { n + 1 } else { n }
}

// Whether the front is there after an event.
fn front_after(c: Seen, is: bool) -> bool
    ensures { result ≡ front_after c is }
{
    if c.begun { c.front } else { is }
}

// Whether the innermost open master has a known size.
fn top_is_sized(d: TagDecoder) -> bool
    ensures { result ≡ top_is_sized d }
{
    let count = d.open_count;
    0 < count && count <= MOST_OPEN && d.open[count - 1].known
}

// After a Start at an offset, with so many open now.
fn start_seen(c: Seen, id: u64, offset: u64, depth: usize, sized: bool) -> Seen
    ensures { result ≡ start_seen c id offset depth sized }
{
    Seen {
        begun: true,
        front: front_after(c, offset == 0 && depth == 1),
        sized: c.sized && sized,
        id: if c.sized { id } else { c.id },
        start: if c.sized { offset } else { c.start },
        records: counted_if(depth == 1, c.records),
        feeds: counted_if(depth == 2, c.feeds),
    }
}

// After another event, which is a record or not.
fn other_seen(c: Seen, is_record: bool) -> Seen
    ensures { result ≡ other_seen c is_record }
{
    Seen {
        begun: true,
        front: front_after(c, false),
        records: counted_if(is_record, c.records),
        ..c
    }
}

// After an event, with the record that it left.
fn event_seen(c: Seen, e: Event, d: TagDecoder) -> Seen
    ensures { result ≡ seen_after c (Ok (Answer.Event e)) d }
{
    match e {
        Event::Start { id, offset } => start_seen(c, id, offset, d.open_count, top_is_sized(d)),
        Event::End(_) => other_seen(c, false),
        Event::Data { .. } => other_seen(c, d.open_count == 0),
    }
}

/// What is kept after an answer, with the record that it left.
pub fn seen_after(c: Seen, answer: Result<Answer, Refusal>, d: TagDecoder) -> Seen
    ensures { result ≡ seen_after c answer d }
{
    match answer {
        Ok(Answer::Event(e)) => event_seen(c, e, d),
        Ok(Answer::NeedMore { .. } | Answer::Finished) => c,
        Err(_) => c,
    }
}

// The size of a master, where it has one.
fn size_given(m: OpenTag) -> Option<u64>
    ensures { result ≡ size_given m }
{
    if m.known { Some(m.size) } else { None }
}

// The outermost open master.
fn root_of(d: TagDecoder) -> Option<Root>
    ensures { result ≡ root_of d }
{
    if d.open_count == 0 {
        return None;
    }
    let m = d.open[0];
    Some(Root {
        id: m.id,
        start: m.tag_start,
        size: size_given(m),
    })
}

// How many bytes an input has that is cut at this position.
fn bytes_there(part: Option<Range>, position: u64) -> u64
    ensures { result ≡ bytes_there part position }
{
    match part {
        Some(range) => range.end,
        None => position,
    }
}

// A refusal, with the record that it left.
fn refused_as(error: DecodeError, place: u64, d: TagDecoder) -> Verdict
    ensures { result ≡ refused_as error place d }
{
    if let DecodeError::UnexpectedEOF(cut) = error {
        return Verdict::Cut {
            at: d.position,
            root: root_of(d),
            bytes: bytes_there(cut.part, d.position),
        };
    }
    Verdict::Refused {
        number: error_number(error),
        place,
    }
}

// The finish at a position.
fn finished_as(c: Seen, position: u64) -> Verdict
    ensures { result ≡ finished_as c position }
{
    if c.sized {
        if c.records == 1 {
            return Verdict::Whole {
                feeds: c.feeds,
                bytes: position,
            };
        }
        return Verdict::More {
            records: c.records,
            feeds: c.feeds,
            bytes: position,
        };
    }
    Verdict::CannotTell {
        id: c.id,
        start: c.start,
    }
}

// This verdict, unless the front is missing.
fn if_front(c: Seen, v: Verdict) -> Verdict
    ensures { result ≡ if_front c v }
{
    if c.front { v } else { Verdict::FrontMissing }
}

/// The verdict at an answer, with the record that it left: it is the last.
pub fn verdict_at(c: Seen, answer: Result<Answer, Refusal>, d: TagDecoder) -> Verdict
    ensures { result ≡ verdict_at c answer d }
{
    match answer {
        Ok(Answer::Event(_)) => Verdict::NotEnded,
        Ok(Answer::NeedMore { .. }) => if_front(c, Verdict::TooLarge(d.position)),
        Ok(Answer::Finished) => {
            if c.begun {
                return if_front(c, finished_as(c, d.position));
            }
            Verdict::Empty
        }
        Err(r) => if_front(c, refused_as(r.error, r.place, d)),
    }
}
