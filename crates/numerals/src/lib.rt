//! Numbers as text, put at a place of lent bytes. Each function answers the place after what it put.
#![tactic(auto)]

ghost use Rattle.std.specs.Prelude.{◌≡◌, [], ◌∷◌, ◌+◌, ◌≤◌, ◌<◌, length};
ghost use Rattle.numerals.specs.Numeral.{glyph, digits, places, hex, hex16, decimal, signed_decimal};
ghost use Rattle.numerals.specs.Puts.{Puts};

use tools::integer::absolute_value;

/// Puts one byte at the place `at`.
pub fn put(b: u8, out: &mut [u8], at: usize) -> usize
    requires { at + 1 ≤ length out.old }
    ensures { Puts 1 result out.new out.old at (b ∷ []) }
{
    out[at] = b;
    at + 1
}

/// The ASCII code of a digit below 16: `0` to `9`, then `A` to `F`.
pub fn glyph_of(d: u64) -> u8
    requires { d < 16 }
    ensures { result ≡ glyph d }
{
    if d < 10 {
        b'0' + d as u8
    } else {
        b'A' + (d - 10) as u8
    }
}

// The last k digits of n.
#[tactic(auto, using(crate::proofs::Putting::nothing), unfolding(crate::specs::Numeral::digits))]
fn put_digits(n: u64, base: u64, k: usize, out: &mut [u8], at: usize) -> usize
    requires { (1 < base) × (base ≤ 16) × (at + k ≤ length out.old) }
    ensures { Puts k result out.new out.old at (digits base k n) }
{
    if k == 0 {
        return at;
    }
    let next = put_digits(n / base, base, k - 1, out, at);
    put(glyph_of(n % base), out, next)
}

// How many digits n has, at most so many.
#[tactic(auto, using(crate::proofs::Digits::places_one, crate::proofs::Digits::places_more), unfolding(crate::specs::Numeral::places))]
fn places_of(n: u64, base: u64, most: usize) -> usize
    requires { 1 < base }
    ensures { (result ≡ places base most n) × (result ≤ most) }
{
    if most == 0 {
        return 0;
    }
    if n < base {
        return 1;
    }
    places_of(n / base, base, most - 1) + 1
}

// All the digits of n, of which there are at most so many.
#[tactic(auto, using(crate::proofs::Digits::all_digits))]
fn put_all(n: u64, base: u64, most: usize, out: &mut [u8], at: usize) -> usize
    requires { (1 < base) × (base ≤ 16) × (at + most ≤ length out.old) }
    ensures { Puts most result out.new out.old at (digits base (places base most n) n) }
{
    put_digits(n, base, places_of(n, base, most), out, at)
}

/// Puts a number in hex, with no zero in front: at most 16 digits.
pub fn put_hex(n: u64, out: &mut [u8], at: usize) -> usize
    requires { at + 16 ≤ length out.old }
    ensures { Puts 16 result out.new out.old at (hex n) }
{
    put_all(n, 16, 16, out, at)
}

/// Puts a number in 16 hex digits, zeros in front too.
pub fn put_hex16(n: u64, out: &mut [u8], at: usize) -> usize
    requires { at + 16 ≤ length out.old }
    ensures { Puts 16 result out.new out.old at (hex16 n) }
{
    put_digits(n, 16, 16, out, at)
}

/// Puts a number in decimal, with no zero in front: at most 20 digits.
pub fn put_decimal(n: u64, out: &mut [u8], at: usize) -> usize
    requires { at + 20 ≤ length out.old }
    ensures { Puts 20 result out.new out.old at (decimal n) }
{
    put_all(n, 10, 20, out, at)
}

/// Puts a signed number in decimal, after a `-` if it is negative: at most 21 bytes.
#[tactic(auto, using(crate::proofs::Digits::put_negative, crate::proofs::Digits::put_natural))]
pub fn put_signed(v: i64, out: &mut [u8], at: usize) -> usize
    requires { at + 21 ≤ length out.old }
    ensures { Puts 21 result out.new out.old at (signed_decimal v) }
{
    if v < 0 {
        let next = put(b'-', out, at);
        return put_decimal(absolute_value(v), out, next);
    }
    put_decimal(absolute_value(v), out, at)
}
