//! The line of a verdict.

ghost use Rattle.std.specs.Prelude.{◌≡◌, ◌++◌, ◌+◌, ◌≤◌, length};
ghost use Rattle.tools.specs.Answers.{Gives};
ghost use Rattle.numerals.specs.Puts.{Puts};
ghost use Rattle.texts.specs.Out.{text_out};
ghost use Rattle.numerals.specs.Numeral.{hex, decimal};
ghost use Rattle.whole.specs.Line.{counted, counts, size_text, root_text, verdict_text, verdict_line, most_line};
ghost use Rattle.whole.specs.declared.types.Verdict.TheVariants.{Refused, Cut, CannotTell, More};

use crate::types::{Root, Verdict};
use numerals::{put, put_decimal, put_hex};
use texts::put_text;

/// No line is longer.
pub const MOST_LINE: usize = 156;

// A number, and the word for what is counted.
fn put_counted(n: u64, word: &[u8], out: &mut [u8], at: usize) -> usize
    requires { (length word.now ≤ 6) × (at + 28 ≤ length out.old) }
    ensures { Puts 28 result out.new out.old at (counted n word.now) }
{
    let after_number = put_decimal(n, out, at);
    let after_space = put(b' ', out, after_number);
    let after_word = put_text(word, out, after_space);
    if n == 1 {
        return after_word;
    }
    put(b's', out, after_word)
}

// A text, and then a number.
fn put_number(text: &[u8], n: u64, out: &mut [u8], at: usize) -> usize
    requires { (length text.now ≤ 13) × (at + 33 ≤ length out.old) }
    ensures { Puts 33 result out.new out.old at (text.now ++ decimal n) }
{
    let next = put_text(text, out, at);
    put_decimal(n, out, next)
}

// An ID, a text, and then a number.
fn put_id(id: u64, text: &[u8], n: u64, out: &mut [u8], at: usize) -> usize
    requires { (length text.now ≤ 13) × (at + 49 ≤ length out.old) }
    ensures { Puts 49 result out.new out.old at (hex id ++ (text.now ++ decimal n)) }
{
    let next = put_hex(id, out, at);
    put_number(text, n, out, next)
}

// Numbers of feeds and of bytes.
fn put_counts(feed_count: u64, byte_count: u64, out: &mut [u8], at: usize) -> usize
    requires { at + 58 ≤ length out.old }
    ensures { Puts 58 result out.new out.old at (counts feed_count byte_count) }
{
    let after_feeds = put_counted(feed_count, b"feed", out, at);
    let after_comma = put_text(b", ", out, after_feeds);
    put_counted(byte_count, b"byte", out, after_comma)
}

// The size of a master, or that it has none.
fn put_size(size: Option<u64>, out: &mut [u8], at: usize) -> usize
    requires { at + 35 ≤ length out.old }
    ensures { Puts 35 result out.new out.old at (size_text size) }
{
    match size {
        None => put_text(b"no size, ", out, at),
        Some(n) => {
            let after_size = put_number(b"size ", n, out, at);
            put_text(b", ", out, after_size)
        }
    }
}

// The root that is open where the input ends.
fn put_root(root: Option<Root>, out: &mut [u8], at: usize) -> usize
    requires { at + 86 ≤ length out.old }
    ensures { Puts 86 result out.new out.old at (root_text root) }
{
    match root {
        None => at,
        Some(Root { id, start, size }) => {
            let after_start = put_id(id, b" began at ", start, out, at);
            let after_comma = put_text(b", ", out, after_start);
            put_size(size, out, after_comma)
        }
    }
}

// A refusal.
fn put_refused(number: u64, place: u64, out: &mut [u8]) -> usize
    requires { 66 ≤ length out.old }
    ensures { Puts 66 result out.new out.old 0 (verdict_text (Refused number place)) }
{
    let after_number = put_number(b"REFUSED ", number, out, 0);
    put_number(b" at ", place, out, after_number)
}

// A cut.
fn put_cut(position: u64, root: Option<Root>, byte_count: u64, out: &mut [u8]) -> usize
    requires { 155 ≤ length out.old }
    ensures { Puts 155 result out.new out.old 0 (verdict_text (Cut position root byte_count)) }
{
    let after_position = put_number(b"CUT at ", position, out, 0);
    let after_colon = put_text(b": ", out, after_position);
    let after_root = put_root(root, out, after_colon);
    let after_bytes = put_counted(byte_count, b"byte", out, after_root);
    put_text(b" there", out, after_bytes)
}

// A master that has no size.
fn put_cannot_tell(id: u64, start: u64, out: &mut [u8]) -> usize
    requires { 74 ≤ length out.old }
    ensures { Puts 74 result out.new out.old 0 (verdict_text (CannotTell id start)) }
{
    let after_words = put_text(b"CANNOT TELL: ", out, 0);
    let after_start = put_id(id, b" at ", start, out, after_words);
    put_text(b" has no size", out, after_start)
}

// Several records.
fn put_more(records: u64, feed_count: u64, byte_count: u64, out: &mut [u8]) -> usize
    requires { 94 ≤ length out.old }
    ensures { Puts 94 result out.new out.old 0 (verdict_text (More records feed_count byte_count)) }
{
    let after_word = put_text(b"MORE: ", out, 0);
    let after_records = put_counted(records, b"record", out, after_word);
    let after_comma = put_text(b", ", out, after_records);
    put_counts(feed_count, byte_count, out, after_comma)
}

// What is said of an input.
fn put_words(v: Verdict, out: &mut [u8]) -> usize
    requires { 155 ≤ length out.old }
    ensures { Puts 155 result out.new out.old 0 (verdict_text v) }
{
    match v {
        Verdict::Whole { feeds, bytes } => {
            let after_word = put_text(b"WHOLE ", out, 0);
            put_counts(feeds, bytes, out, after_word)
        }
        Verdict::Empty => put_text(b"EMPTY", out, 0),
        Verdict::FrontMissing => put_text(b"FRONT MISSING", out, 0),
        Verdict::Refused { number, place } => put_refused(number, place, out),
        Verdict::TooLarge(position) => put_number(b"TOO LARGE at ", position, out, 0),
        Verdict::Cut { at, root, bytes } => put_cut(at, root, bytes, out),
        Verdict::CannotTell { id, start } => put_cannot_tell(id, start, out),
        Verdict::More {
            records,
            feeds,
            bytes,
        } => put_more(records, feeds, bytes, out),
        Verdict::NotEnded => put_text(b"NOT ENDED", out, 0),
    }
}

/// The line of a verdict at the front of the lent bytes: its length, or 0 where fewer than MOST_LINE bytes are lent.
pub fn put_verdict(v: Verdict, out: &mut [u8]) -> usize
    ensures { Gives result out.new (text_out most_line (verdict_line v) out.old) × (result ≤ length out.old) }
{
    if out.len() < MOST_LINE {
        return 0;
    }
    let next = put_words(v, out);
    put(b'\n', out, next)
}
