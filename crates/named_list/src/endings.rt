//! How the list ends: a refusal, the finish, or an element that is too large.

ghost use Rattle.std.specs.Prelude.{◌≡◌, ◌+◌, ◌≤◌, length};
ghost use Rattle.numerals.specs.Puts.{Puts};
ghost use Rattle.named_list.specs.Named.{cut_id, cut_name, cut_text, refused_text, refusal_text, finish_word, finish_text, too_large_text};

use crate::elements::put_words_number;
use crate::meanings::put_meaning;
use crate::words::put_name;
use decoder_rules::errors::error_number;
use decoder_rules::types::{DecodeError, Refusal};
use numerals::put_decimal;
use texts::put_text;

// The ID that refusal 23 names.
fn cut_id(error: DecodeError) -> Option<u64>
    ensures { result ≡ cut_id error }
{
    match error {
        DecodeError::TableShape => None,
        DecodeError::BadState => None,
        DecodeError::TooFar => None,
        DecodeError::AfterFinish => None,
        DecodeError::InvalidTagData => None,
        DecodeError::InvalidTagId => None,
        DecodeError::HierarchyError => None,
        DecodeError::InvalidTagSize => None,
        DecodeError::OversizedChildElement => None,
        DecodeError::TooManyOpen => None,
        DecodeError::FromUtf8Error => None,
        DecodeError::ReadF64Mismatch => None,
        DecodeError::UnexpectedEOF(cut) => cut.id,
        DecodeError::NotAMaster => None,
        DecodeError::InvalidIdForm => None,
        DecodeError::UnknownSizePastEnd => None,
    }
}

// The name of a cut element, as far as it was read.
fn put_cut_name(id: Option<u64>, out: &mut [u8], at: usize) -> usize
    requires { at + 16 ≤ length out.old }
    ensures { Puts 16 result out.new out.old at (cut_name id) }
{
    match id {
        None => put_text(b"an element", out, at),
        Some(x) => put_name(x, out, at),
    }
}

// Refusal 23: how far the input was read, and what it ends inside of.
fn put_cut(id: Option<u64>, place: u64, position: u64, out: &mut [u8], at: usize) -> usize
    requires { at + 128 ≤ length out.old }
    ensures { Puts 128 result out.new out.old at (cut_text id place position) }
{
    let after_position = put_words_number(b"cut at ", position, out, at);
    let after_number = put_text(b": 23, the input ends inside ", out, after_position);
    let after_name = put_cut_name(id, out, after_number);
    put_words_number(b", which began at ", place, out, after_name)
}

// Any other refusal: its place, its number and what it means.
fn put_refused(number: u64, place: u64, out: &mut [u8], at: usize) -> usize
    requires { at + 128 ≤ length out.old }
    ensures { Puts 128 result out.new out.old at (refused_text number place) }
{
    let after_place = put_words_number(b"refused at ", place, out, at);
    let after_number = put_words_number(b": ", number, out, after_place);
    let after_comma = put_text(b", ", out, after_number);
    put_meaning(number, out, after_comma)
}

/// Puts a refusal, with the decoder at a position.
#[tactic(auto, using(std::proofs::lemmas::Bool::Decides::nat_tests), unfolding(crate::specs::Named::refusal_text))]
pub fn put_refusal(refusal: Refusal, position: u64, out: &mut [u8], at: usize) -> usize
    requires { at + 128 ≤ length out.old }
    ensures { Puts 128 result out.new out.old at (refusal_text refusal position) }
{
    let error = refusal.error;
    let number = error_number(error);
    if number == 23 {
        return put_cut(cut_id(error), refusal.place, position, out, at);
    }
    put_refused(number, refusal.place, out, at)
}

// What a finish at a position means.
#[tactic(auto, using(std::proofs::lemmas::Bool::Decides::nat_tests, numerals::proofs::Putting::within), unfolding(crate::specs::Named::finish_word))]
fn put_finish_word(position: u64, front: bool, size: bool, out: &mut [u8], at: usize) -> usize
    requires { at + 32 ≤ length out.old }
    ensures { Puts 32 result out.new out.old at (finish_word position front size) }
{
    if position == 0 {
        return put_text(b"empty: ", out, at);
    }
    if front {
        return put_text(b"the front is missing: ", out, at);
    }
    if size {
        return put_text(b"cannot tell, a size is missing: ", out, at);
    }
    put_text(b"whole: ", out, at)
}

/// Puts the finish at a position, after what was seen.
pub fn put_finish(position: u64, front: bool, size: bool, out: &mut [u8], at: usize) -> usize
    requires { at + 64 ≤ length out.old }
    ensures { Puts 64 result out.new out.old at (finish_text position front size) }
{
    let after_word = put_finish_word(position, front, size, out, at);
    let after_position = put_decimal(position, out, after_word);
    put_text(b" bytes", out, after_position)
}

/// Puts that an element at a position is larger than the buffer.
pub fn put_too_large(position: u64, out: &mut [u8], at: usize) -> usize
    requires { at + 80 ≤ length out.old }
    ensures { Puts 80 result out.new out.old at (too_large_text position) }
{
    let next = put_words_number(b"too large at ", position, out, at);
    put_text(b": the element does not fit into the buffer", out, next)
}
