//! The answers of `decode`, `eof` and `recover`.

use decoder_rules::errors::error_number;
use decoder_rules::types::{Answer, Cut, DecodeError, Decoded, Event, Recovered, Refusal, Search};
use script_text::answers::is_nan;
use std::fmt;
use std::fmt::Display;
use tag_parse::types::{Range, TagValue};

/// What a call of `decode` or `eof` answers: an event, an End with the count of its children; `N` where more bytes are
/// needed, with how many; `F` where the stream has ended. How many bytes were taken and the position after the call
/// stand with it. Or `X` and a refusal.
#[derive(Clone, Copy)]
pub struct DecodedText<'a>(pub &'a Decoded);

impl Display for DecodedText<'_> {
    fn fmt<W: fmt::Write>(&self, f: &mut fmt::Formatter<W>) -> fmt::Result {
        let reached = Reached {
            taken: self.0.taken,
            position: self.0.state.position,
        };
        match self.0.answer {
            Ok(Answer::Event(event)) => {
                write!(f, "{} {reached}", EventText(event))?;
                match event {
                    Event::End(end) => write!(f, " count={}", end.count),
                    _ => Ok(()),
                }
            }
            Ok(Answer::NeedMore { missing }) => write!(f, "N {reached} need={missing}"),
            Ok(Answer::Finished) => write!(f, "F {reached}"),
            Err(refusal) => write!(f, "{}", RefusalText(refusal)),
        }
    }
}

/// What a call of `recover` answers: `Y` where it has found a header, `Q` where it has not, with how many bytes were
/// taken, the position after the call and how many bytes it passed over. Or `X` and a refusal.
#[derive(Clone, Copy)]
pub struct RecoveredText<'a>(pub &'a Recovered);

impl Display for RecoveredText<'_> {
    fn fmt<W: fmt::Write>(&self, f: &mut fmt::Formatter<W>) -> fmt::Result {
        let reached = Reached {
            taken: self.0.taken,
            position: self.0.state.position,
        };
        match self.0.answer {
            Ok(Search::Found { passed }) => write!(f, "Y {reached} passed={passed}"),
            Ok(Search::NotFound { passed }) => write!(f, "Q {reached} passed={passed}"),
            Err(refusal) => write!(f, "{}", RefusalText(refusal)),
        }
    }
}

// How many bytes a call took, and the position after it.
#[derive(Clone, Copy)]
struct Reached {
    taken: usize,
    position: u64,
}

impl Display for Reached {
    fn fmt<W: fmt::Write>(&self, f: &mut fmt::Formatter<W>) -> fmt::Result {
        write!(f, "t={} p={}", self.taken, self.position)
    }
}

// A letter, the ID and the offset, and what a value has.
#[derive(Clone, Copy)]
struct EventText(Event);

impl Display for EventText {
    fn fmt<W: fmt::Write>(&self, f: &mut fmt::Formatter<W>) -> fmt::Result {
        match self.0 {
            Event::Start { id, offset } => write!(f, "S {id:X} {offset}"),
            Event::End(end) => write!(f, "E {:X} {}", end.id, end.offset),
            Event::Data { id, offset, value } => {
                write!(
                    f,
                    "{} {id:X} {offset} {}",
                    letter_of(value),
                    ValueText(value)
                )
            }
        }
    }
}

// The letter of an event with this value.
fn letter_of(value: TagValue) -> char {
    match value {
        TagValue::UnsignedInt(_) => 'U',
        TagValue::Integer(_) => 'I',
        TagValue::Float(_) => 'D',
        TagValue::Utf8(_) => 'T',
        TagValue::Binary(_) => 'B',
        TagValue::Raw(_) => 'R',
    }
}

// A number, the 16 hex digits of a float's bits, or a range of the stream. What is compared of a NaN is only that it is
// one.
#[derive(Clone, Copy)]
struct ValueText(TagValue);

impl Display for ValueText {
    fn fmt<W: fmt::Write>(&self, f: &mut fmt::Formatter<W>) -> fmt::Result {
        match self.0 {
            TagValue::UnsignedInt(number) => write!(f, "{number}"),
            TagValue::Integer(number) => write!(f, "{number}"),
            TagValue::Float(bits) if is_nan(bits) => write!(f, "NaN"),
            TagValue::Float(bits) => write!(f, "{bits:016X}"),
            TagValue::Utf8(range) | TagValue::Binary(range) | TagValue::Raw(range) => {
                write!(f, "{} {}", range.begin, range.end)
            }
        }
    }
}

// A refusal's number, its place, and what a cut element names.
#[derive(Clone, Copy)]
struct RefusalText(Refusal);

impl Display for RefusalText {
    fn fmt<W: fmt::Write>(&self, f: &mut fmt::Formatter<W>) -> fmt::Result {
        let error = self.0.error;
        write!(f, "X {} {}", error_number(error), self.0.place)?;
        match error {
            DecodeError::UnexpectedEOF(cut) => write!(f, " {}", CutText(cut)),
            _ => Ok(()),
        }
    }
}

// Where an element that the end cuts starts, and its ID, its size and its bytes as far as they are there.
#[derive(Clone, Copy)]
struct CutText(Cut);

impl Display for CutText {
    fn fmt<W: fmt::Write>(&self, f: &mut fmt::Formatter<W>) -> fmt::Result {
        let cut = self.0;
        write!(f, "start={}", cut.start)?;
        match cut.id {
            None => write!(f, " id=-")?,
            Some(id) => write!(f, " id={id:X}")?,
        }
        match cut.size {
            None => write!(f, " size=-")?,
            Some(size) => write!(f, " size={size}")?,
        }
        match cut.part {
            None => write!(f, " part=-"),
            Some(Range { begin, end }) => write!(f, " part={begin}-{end}"),
        }
    }
}
