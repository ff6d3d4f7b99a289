//! The text of an event: a master's start or end, or an element with its value.

ghost use Rattle.std.specs.Prelude.{◌≡◌, ◌++◌, ◌+◌, ◌-◌, ◌*◌, ◌≤◌, min, length};
ghost use Rattle.numerals.specs.Numeral.{decimal};
ghost use Rattle.numerals.specs.Puts.{Puts};
ghost use Rattle.texts.specs.Ascii.{ascii};
ghost use Rattle.named_list.specs.Words.{name_of};
ghost use Rattle.named_list.specs.Named.{depth_of, end_text, start_text, ending_text, bytes_text, quoted_text, value_text, event_text};

use crate::floats::put_float;
use crate::seen::innermost_of;
use crate::words::{put_name, put_shown};
use decoder_rules::types::{Event, TagDecoder};
use numerals::{put, put_decimal, put_signed};
use spec_util::types::OpenTag;
use tag_parse::types::{Range, TagValue};
use texts::put_text;

/// How many masters stand around an event, with the record that it left: at most 32.
#[tactic(auto, using(std::proofs::lemmas::Bool::Decides::nat_tests), unfolding(crate::specs::Named::depth_of))]
pub fn depth_of(e: Event, d: TagDecoder) -> usize
    ensures { (result ≡ depth_of e d) × (result ≤ 32) }
{
    match e {
        Event::Start { .. } => d.open_count.saturating_sub(1).min(32),
        Event::End(_) => d.open_count.saturating_add(d.waiting_count).min(32),
        Event::Data { .. } => d.open_count.min(32),
    }
}

// Where a master ends, or `?`.
#[tactic(auto, using(std::proofs::lemmas::Bool::Decides::nat_tests, numerals::proofs::Putting::within), unfolding(crate::specs::Named::end_text))]
fn put_master_end(known: bool, start: u64, size: u64, out: &mut [u8], at: usize) -> usize
    requires { at + 20 ≤ length out.old }
    ensures { Puts 20 result out.new out.old at (end_text known start size) }
{
    if known && size <= u64::MAX - start {
        return put_decimal(start + size, out, at);
    }
    put(b'?', out, at)
}

/// Puts words, and then a number in decimal.
pub fn put_words_number(words: &[u8], n: u64, out: &mut [u8], at: usize) -> usize
    requires { at + (length words.now + 20) ≤ length out.old }
    ensures { Puts (length words.now + 20) result out.new out.old at (words.now ++ decimal n) }
{
    let next = put_text(words, out, at);
    put_decimal(n, out, next)
}

// A Start: name, begin and end.
fn put_start(id: u64, offset: u64, m: OpenTag, out: &mut [u8], at: usize) -> usize
    requires { at + 64 ≤ length out.old }
    ensures { Puts 64 result out.new out.old at (start_text id offset m) }
{
    let after_name = put_name(id, out, at);
    let after_begin = put_words_number(b" ", offset, out, after_name);
    let after_dots = put_text(b"..", out, after_begin);
    put_master_end(m.known, m.data_start, m.size, out, after_dots)
}

// An End, and whether its Start is missing.
fn put_ending(id: u64, starts: u64, out: &mut [u8], at: usize) -> usize
    requires { at + 64 ≤ length out.old }
    ensures { Puts 64 result out.new out.old at (ending_text id starts) }
{
    let after_words = put_text(b"end of ", out, at);
    let after_name = put_name(id, out, after_words);
    if starts == 0 {
        return put_text(b" (its start is missing)", out, after_name);
    }
    after_name
}

// Bytes: begin and end.
fn put_bytes(range: Range, out: &mut [u8], at: usize) -> usize
    requires { at + 48 ≤ length out.old }
    ensures { Puts 48 result out.new out.old at (bytes_text range) }
{
    let next = put_words_number(b"bytes ", range.begin, out, at);
    put_words_number(b"..", range.end, out, next)
}

// Where the bytes from an offset on begin, among so many that end at a position.
fn place_of(offset: u64, position: u64, count: usize) -> usize
    ensures { (result ≡ count - (position - offset)) × (result ≤ count) }
{
    count.saturating_sub(position.saturating_sub(offset) as usize)
}

// Where the bytes of a range end, among so many, if they begin at a place.
fn place_past(range: Range, from: usize, count: usize) -> usize
    requires { from ≤ count }
    ensures { (result ≡ min (from + (range.end - range.begin)) count) × (from ≤ result) × (result ≤ count) }
{
    let length = range.end.saturating_sub(range.begin) as usize;
    from.saturating_add(length).min(count)
}

// A text between quotation marks, of the bytes taken up to a position.
fn put_quoted(range: Range, position: u64, taken: &[u8], out: &mut [u8], at: usize) -> usize
    requires { at + (2 + 4 * length taken.now) ≤ length out.old }
    ensures { Puts (2 + 4 * length taken.now) result out.new out.old at (quoted_text range position taken.now) }
{
    let from = place_of(range.begin, position, taken.len());
    let upto = place_past(range, from, taken.len());
    let after_mark = put(b'"', out, at);
    let after_text = put_shown(&taken[from..upto], out, after_mark);
    put(b'"', out, after_text)
}

// A value, with the bytes taken up to a position.
#[tactic(auto, using(numerals::proofs::Putting::within), unfolding(crate::specs::Named::value_text))]
fn put_value(value: TagValue, position: u64, taken: &[u8], out: &mut [u8], at: usize) -> usize
    requires { at + (48 + 4 * length taken.now) ≤ length out.old }
    ensures { Puts (48 + 4 * length taken.now) result out.new out.old at (value_text value position taken.now) }
{
    match value {
        TagValue::UnsignedInt(n) => put_decimal(n, out, at),
        TagValue::Integer(v) => put_signed(v, out, at),
        TagValue::Utf8(range) => put_quoted(range, position, taken, out, at),
        TagValue::Binary(range) => put_bytes(range, out, at),
        TagValue::Float(bits) => put_float(bits, out, at),
        TagValue::Raw(range) => put_bytes(range, out, at),
    }
}

// An element that holds a value, with the bytes taken up to a position.
fn put_data(
    id: u64,
    value: TagValue,
    position: u64,
    taken: &[u8],
    out: &mut [u8],
    at: usize,
) -> usize
    requires { at + (65 + 4 * length taken.now) ≤ length out.old }
    ensures { Puts (65 + 4 * length taken.now) result out.new out.old at (name_of id ++ ascii " " ++ value_text value position taken.now) }
{
    let after_name = put_name(id, out, at);
    let after_space = put(b' ', out, after_name);
    put_value(value, position, taken, out, after_space)
}

/// Puts an event, with the record that it left, the Starts that were open before it and the bytes taken so far.
#[tactic(auto, using(numerals::proofs::Putting::within), unfolding(crate::specs::Named::event_text))]
pub fn put_event(
    e: Event,
    d: TagDecoder,
    starts: u64,
    taken: &[u8],
    out: &mut [u8],
    at: usize,
) -> usize
    requires { at + (65 + 4 * length taken.now) ≤ length out.old }
    ensures { Puts (65 + 4 * length taken.now) result out.new out.old at (event_text e d starts taken.now) }
{
    match e {
        Event::Start { id, offset } => put_start(id, offset, innermost_of(d), out, at),
        Event::End(end) => put_ending(end.id, starts, out, at),
        Event::Data { id, value, .. } => put_data(id, value, d.position, taken, out, at),
    }
}
