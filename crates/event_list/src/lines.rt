//! The line of an answer: a list has a line for each event, and one for its end.

ghost use Rattle.std.specs.Prelude.{◌≡◌, ◌++◌, ◌∷◌, [], ◌+◌, ◌≤◌, length};
ghost use Rattle.tools.specs.Answers.{Gives};
ghost use Rattle.event_list.specs.Line.{field, element_text, range_text, letter_of, value_text, event_text, refusal_text, position_text, answer_text, line, line_out};
ghost use Rattle.numerals.specs.Numeral.{hex, hex16, decimal, signed_decimal};
ghost use Rattle.numerals.specs.Puts.{Puts};

use decoder_rules::errors::error_number;
use decoder_rules::types::{Answer, Event, Refusal};
use numerals::{put, put_decimal, put_hex, put_hex16, put_signed};
use tag_parse::types::{Range, TagValue};

/// No line is longer.
pub const MOST_LINE: usize = 82;

// A number in decimal, after a space.
fn put_number(n: u64, out: &mut [u8], at: usize) -> usize
    requires { at + 21 ≤ length out.old }
    ensures { Puts 21 result out.new out.old at (field (decimal n)) }
{
    let next = put(b' ', out, at);
    put_decimal(n, out, next)
}

// An ID in hex, after a space.
fn put_id(id: u64, out: &mut [u8], at: usize) -> usize
    requires { at + 17 ≤ length out.old }
    ensures { Puts 17 result out.new out.old at (field (hex id)) }
{
    let next = put(b' ', out, at);
    put_hex(id, out, next)
}

// Kind, ID and offset.
fn put_element(kind: u8, id: u64, offset: u64, out: &mut [u8]) -> usize
    requires { 39 ≤ length out.old }
    ensures { Puts 39 result out.new out.old 0 (element_text kind id offset) }
{
    let after_kind = put(kind, out, 0);
    let after_id = put_id(id, out, after_kind);
    put_number(offset, out, after_id)
}

// Begin and end.
fn put_range(range: Range, out: &mut [u8], at: usize) -> usize
    requires { at + 42 ≤ length out.old }
    ensures { Puts 42 result out.new out.old at (range_text range) }
{
    let next = put_number(range.begin, out, at);
    put_number(range.end, out, next)
}

// The letter of a kind of value.
fn letter_of(value: TagValue) -> u8
    ensures { result ≡ letter_of value }
{
    match value {
        TagValue::UnsignedInt(_) => b'U',
        TagValue::Integer(_) => b'I',
        TagValue::Utf8(_) => b'T',
        TagValue::Binary(_) => b'B',
        TagValue::Float(_) => b'D',
        TagValue::Raw(_) => b'R',
    }
}

// A signed number in decimal, after a space.
fn put_integer(v: i64, out: &mut [u8], at: usize) -> usize
    requires { at + 22 ≤ length out.old }
    ensures { Puts 22 result out.new out.old at (field (signed_decimal v)) }
{
    let next = put(b' ', out, at);
    put_signed(v, out, next)
}

// A float's bits as 16 hex digits, after a space.
fn put_float(bits: u64, out: &mut [u8], at: usize) -> usize
    requires { at + 17 ≤ length out.old }
    ensures { Puts 17 result out.new out.old at (field (hex16 bits)) }
{
    let next = put(b' ', out, at);
    put_hex16(bits, out, next)
}

// A value after its element: the number, the bits, or the range.
fn put_value(value: TagValue, out: &mut [u8], at: usize) -> usize
    requires { at + 42 ≤ length out.old }
    ensures { Puts 42 result out.new out.old at (value_text value) }
{
    match value {
        TagValue::UnsignedInt(n) => put_number(n, out, at),
        TagValue::Integer(v) => put_integer(v, out, at),
        TagValue::Utf8(range) => put_range(range, out, at),
        TagValue::Binary(range) => put_range(range, out, at),
        TagValue::Float(bits) => put_float(bits, out, at),
        TagValue::Raw(range) => put_range(range, out, at),
    }
}

// An element that holds a value.
fn put_data(id: u64, offset: u64, value: TagValue, out: &mut [u8]) -> usize
    requires { 81 ≤ length out.old }
    ensures { Puts 81 result out.new out.old 0 (element_text (letter_of value) id offset ++ value_text value) }
{
    let next = put_element(letter_of(value), id, offset, out);
    put_value(value, out, next)
}

// An event, by its kind.
fn put_event(e: Event, out: &mut [u8]) -> usize
    requires { 81 ≤ length out.old }
    ensures { Puts 81 result out.new out.old 0 (event_text e) }
{
    match e {
        Event::Start { id, offset } => put_element(b'S', id, offset, out),
        Event::End(end) => put_element(b'E', end.id, end.offset, out),
        Event::Data { id, offset, value } => put_data(id, offset, value, out),
    }
}

// A refusal: X, its number and its place.
fn put_refusal(refusal: Refusal, out: &mut [u8]) -> usize
    requires { 43 ≤ length out.old }
    ensures { Puts 43 result out.new out.old 0 (refusal_text refusal) }
{
    let error = refusal.error;
    let after_letter = put(b'X', out, 0);
    let after_number = put_number(error_number(error), out, after_letter);
    put_number(refusal.place, out, after_number)
}

// M or Z, and a position.
fn put_position(letter: u8, position: u64, out: &mut [u8]) -> usize
    requires { 22 ≤ length out.old }
    ensures { Puts 22 result out.new out.old 0 (position_text letter position) }
{
    let next = put(letter, out, 0);
    put_number(position, out, next)
}

// An answer, with the decoder at a position.
fn put_answer(answer: Result<Answer, Refusal>, position: u64, out: &mut [u8]) -> usize
    requires { 81 ≤ length out.old }
    ensures { Puts 81 result out.new out.old 0 (answer_text answer position) }
{
    match answer {
        Ok(Answer::Event(e)) => put_event(e, out),
        Ok(Answer::NeedMore { .. }) => put_position(b'M', position, out),
        Ok(Answer::Finished) => put_position(b'Z', position, out),
        Err(r) => put_refusal(r, out),
    }
}

/// The line of an answer, with the decoder at a position, at the front of the lent bytes: its length, or 0 where fewer
/// than MOST_LINE bytes are lent.
pub fn put_line(answer: Result<Answer, Refusal>, position: u64, out: &mut [u8]) -> usize
    ensures { Gives result out.new (line_out answer position out.old) × (result ≤ length out.old) }
{
    if out.len() < MOST_LINE {
        return 0;
    }
    let next = put_answer(answer, position, out);
    put(b'\n', out, next)
}
