//! What a refusal means, in a few words.

ghost use Rattle.std.specs.Prelude.{◌+◌, ◌≤◌, length};
ghost use Rattle.numerals.specs.Puts.{Puts};
ghost use Rattle.named_list.specs.Meaning.{inner_meaning, header_meaning, content_meaning, strict_meaning, meaning};

use texts::put_text;

// What 10 to 13 and 24 mean.
#[tactic(auto, using(std::proofs::lemmas::Bool::Decides::nat_tests, numerals::proofs::Putting::within), unfolding(crate::specs::Meaning::inner_meaning))]
fn put_inner_meaning(number: u64, out: &mut [u8], at: usize) -> usize
    requires { at + 48 ≤ length out.old }
    ensures { Puts 48 result out.new out.old at (inner_meaning number) }
{
    match number {
        10 => put_text(b"the table has a bad shape", out, at),
        11 => put_text(b"the decoder's record is damaged", out, at),
        12 => put_text(b"the input is longer than 2^62 bytes", out, at),
        13 => put_text(b"bytes come after the finish", out, at),
        _ => put_text(b"an element closes that is no master", out, at),
    }
}

// What 14 to 18 mean.
#[tactic(auto, using(std::proofs::lemmas::Bool::Decides::nat_tests, numerals::proofs::Putting::within), unfolding(crate::specs::Meaning::header_meaning))]
fn put_header_meaning(number: u64, out: &mut [u8], at: usize) -> usize
    requires { at + 48 ≤ length out.old }
    ensures { Puts 48 result out.new out.old at (header_meaning number) }
{
    match number {
        14 => put_text(b"the size of the element is damaged", out, at),
        15 => put_text(b"the table has no such element", out, at),
        16 => put_text(b"the element does not belong here", out, at),
        17 => put_text(b"the element is too large", out, at),
        _ => put_text(b"the element ends past the end of its master", out, at),
    }
}

// What 19 to 23 mean.
#[tactic(auto, using(std::proofs::lemmas::Bool::Decides::nat_tests, numerals::proofs::Putting::within), unfolding(crate::specs::Meaning::content_meaning))]
fn put_content_meaning(number: u64, out: &mut [u8], at: usize) -> usize
    requires { at + 48 ≤ length out.old }
    ensures { Puts 48 result out.new out.old at (content_meaning number) }
{
    match number {
        19 => put_text(b"32 masters are open already", out, at),
        20 => put_text(b"the text is not UTF-8", out, at),
        21 => put_text(b"the float has neither 0, 4 nor 8 bytes", out, at),
        _ => put_text(b"the input ends inside an element", out, at),
    }
}

// What 80 and 81 mean.
#[tactic(auto, using(std::proofs::lemmas::Bool::Decides::nat_tests, numerals::proofs::Putting::within), unfolding(crate::specs::Meaning::strict_meaning))]
fn put_strict_meaning(number: u64, out: &mut [u8], at: usize) -> usize
    requires { at + 48 ≤ length out.old }
    ensures { Puts 48 result out.new out.old at (strict_meaning number) }
{
    match number {
        80 => put_text(b"the ID has a wrong form or over 4 bytes", out, at),
        _ => put_text(b"the header ends past the end of its master", out, at),
    }
}

/// Puts what the number of a refusal means.
#[tactic(auto, using(std::proofs::lemmas::Bool::Decides::nat_tests), unfolding(crate::specs::Meaning::meaning))]
pub fn put_meaning(number: u64, out: &mut [u8], at: usize) -> usize
    requires { at + 48 ≤ length out.old }
    ensures { Puts 48 result out.new out.old at (meaning number) }
{
    match number {
        0..=13 => put_inner_meaning(number, out, at),
        14..=18 => put_header_meaning(number, out, at),
        19..=23 => put_content_meaning(number, out, at),
        24..=79 => put_inner_meaning(number, out, at),
        _ => put_strict_meaning(number, out, at),
    }
}
