//! The words of a line: names, spaces, and text that came from outside.

ghost use Rattle.std.specs.Prelude.{◌≡◌, ◌∷◌, [], ◌+◌, ◌*◌, ◌/◌, ◌%◌, ◌≤◌, ◌<◌, length, get_or};
ghost use Rattle.numerals.specs.Numeral.{glyph};
ghost use Rattle.numerals.specs.Puts.{Puts};
ghost use Rattle.named_list.specs.Words.{indentation, inner_name_of, name_of, is_late_control, is_control, shown_octet, shown};

use numerals::{glyph_of, put, put_hex};
use texts::put_text;

/// Puts two spaces for each of so many masters.
pub fn put_indentation(depth: usize, out: &mut [u8], at: usize) -> usize
    requires { (depth ≤ 32) × (at + 64 ≤ length out.old) }
    ensures { Puts 64 result out.new out.old at (indentation depth) }
{
    let spaces = [b' '; 64];
    put_text(&spaces[0..2 * depth], out, at)
}

// The name of an element that is neither a Session nor a Void, or its ID.
#[tactic(auto, using(std::proofs::lemmas::Bool::Decides::nat_tests, numerals::proofs::Putting::within), unfolding(crate::specs::Words::inner_name_of))]
fn put_inner_name(id: u64, out: &mut [u8], at: usize) -> usize
    requires { at + 16 ≤ length out.old }
    ensures { Puts 16 result out.new out.old at (inner_name_of id) }
{
    match id {
        0xA1 => put_text(b"Feed", out, at),
        0xA2 => put_text(b"Amount", out, at),
        0xA3 => put_text(b"Unit", out, at),
        0xA4 => put_text(b"Blob", out, at),
        0xA5 => put_text(b"Shift", out, at),
        0xA6 => put_text(b"Rate", out, at),
        _ => put_hex(id, out, at),
    }
}

/// Puts the name of an element, or its ID in hex.
#[tactic(auto, using(std::proofs::lemmas::Bool::Decides::nat_tests, numerals::proofs::Putting::within), unfolding(crate::specs::Words::name_of))]
pub fn put_name(id: u64, out: &mut [u8], at: usize) -> usize
    requires { at + 16 ≤ length out.old }
    ensures { Puts 16 result out.new out.old at (name_of id) }
{
    match id {
        0x4E01 => put_text(b"Session", out, at),
        0xEC => put_text(b"Void", out, at),
        _ => put_inner_name(id, out, at),
    }
}

// The second octet of U+0080 to U+009F.
fn is_late_control(b: u8) -> bool
    ensures { result ≡ is_late_control b }
{
    matches!(b, 128..=159)
}

// Whether an octet between two others belongs to a control character.
#[tactic(auto, using(std::proofs::lemmas::Bool::Decides::nat_tests), unfolding(crate::specs::Words::is_control))]
fn is_control(before: u8, b: u8, after: u8) -> bool
    ensures { result ≡ is_control before b after }
{
    match b {
        0..=31 | 127 => true,
        0xC2 => is_late_control(after),
        _ => before == 0xC2 && is_late_control(b),
    }
}

// \x and the two hex digits of an octet.
fn put_escape(b: u8, out: &mut [u8], at: usize) -> usize
    requires { at + 4 ≤ length out.old }
    ensures { Puts 4 result out.new out.old at (92 ∷ 120 ∷ glyph (b / 16) ∷ glyph (b % 16) ∷ []) }
{
    let after_mark = put_text(b"\\x", out, at);
    let after_high = put(glyph_of((b / 16) as u64), out, after_mark);
    put(glyph_of((b % 16) as u64), out, after_high)
}

// A \ and then the octet.
fn put_marked(b: u8, out: &mut [u8], at: usize) -> usize
    requires { at + 2 ≤ length out.old }
    ensures { Puts 2 result out.new out.old at (92 ∷ b ∷ []) }
{
    let next = put(b'\\', out, at);
    put(b, out, next)
}

// An octet between two others, as it is shown.
#[tactic(auto, using(std::proofs::lemmas::Bool::Decides::nat_tests, numerals::proofs::Putting::within), unfolding(crate::specs::Words::shown_octet))]
fn put_shown_octet(before: u8, b: u8, after: u8, out: &mut [u8], at: usize) -> usize
    requires { at + 4 ≤ length out.old }
    ensures { Puts 4 result out.new out.old at (shown_octet before b after) }
{
    if is_control(before, b, after) {
        return put_escape(b, out, at);
    }
    match b {
        b'"' | b'\\' => put_marked(b, out, at),
        _ => put(b, out, at),
    }
}

// The octet before a place, or 0.
fn octet_before(text: &[u8], i: usize) -> u8
    requires { i < length text.now }
    ensures { result ≡ get_or (0 ∷ text.now) i 0 }
{
    if i == 0 { 0 } else { text[i - 1] }
}

// The octet at a place, or 0.
fn octet_at(text: &[u8], i: usize) -> u8
    ensures { result ≡ get_or text.now i 0 }
{
    text.get(i).copied().unwrap_or(0)
}

/// Puts a text as it is shown: control characters escaped, a `\` before `\` and `"`.
pub fn put_shown(text: &[u8], out: &mut [u8], at: usize) -> usize
    requires { at + 4 * length text.now ≤ length out.old }
    ensures { Puts (4 * length text.now) result out.new out.old at (shown text.now) }
{
    let mut to = at;
    for i in 0..text.len() {
        to = put_shown_octet(
            octet_before(text, i),
            octet_at(text, i),
            octet_at(text, i + 1),
            out,
            to,
        );
    }
    to
}
