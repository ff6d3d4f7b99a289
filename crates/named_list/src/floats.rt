//! A float in decimal, where it is a multiple of 1/8, or its bits.

ghost use Rattle.std.specs.Prelude.{◌≡◌, ◌++◌, ◌+◌, ◌^◌, ◌≤◌, ◌<◌, length};
ghost use Rattle.numerals.specs.Numeral.{hex16};
ghost use Rattle.numerals.specs.Puts.{Puts};
ghost use Rattle.texts.specs.Ascii.{ascii};
ghost use Rattle.named_list.specs.Floats.{eighths_of, eighths_text, decimal_text, float_text};

use numerals::{put, put_decimal, put_hex16};
use texts::put_text;

// 2 to the power k.
fn power_of_two(k: usize) -> u64
    requires { k < 64 }
    ensures { result ≡ 2 ^ k }
{
    1u64 << k
}

// How many eighths a float has, its sign left out, or 0.
#[tactic(auto, using(crate::proofs::Eighths::too_small, crate::proofs::Eighths::too_large, crate::proofs::Eighths::whole_eighths, crate::proofs::Eighths::no_eighths))]
fn eighths_of(bits: u64) -> u64
    ensures { result ≡ eighths_of bits }
{
    let exponent = bits / 0x10_0000_0000_0000 % 0x800;
    if exponent < 1020 || 1072 < exponent {
        return 0;
    }
    let significand = bits % 0x10_0000_0000_0000 + 0x10_0000_0000_0000;
    let unit = power_of_two((1072 - exponent) as usize);
    if significand % unit == 0 {
        return significand / unit;
    }
    0
}

// So many eighths, below 8, behind the whole number.
#[tactic(auto, using(std::proofs::lemmas::Bool::Decides::nat_tests, numerals::proofs::Putting::within, numerals::proofs::Putting::nothing), unfolding(crate::specs::Floats::eighths_text))]
fn put_eighths(n: u64, out: &mut [u8], at: usize) -> usize
    requires { at + 4 ≤ length out.old }
    ensures { Puts 4 result out.new out.old at (eighths_text n) }
{
    match n {
        1 => put_text(b".125", out, at),
        2 => put_text(b".25", out, at),
        3 => put_text(b".375", out, at),
        4 => put_text(b".5", out, at),
        5 => put_text(b".625", out, at),
        6 => put_text(b".75", out, at),
        7 => put_text(b".875", out, at),
        _ => at,
    }
}

// So many eighths in decimal.
fn put_in_decimal(n: u64, out: &mut [u8], at: usize) -> usize
    requires { at + 24 ≤ length out.old }
    ensures { Puts 24 result out.new out.old at (decimal_text n) }
{
    let next = put_decimal(n / 8, out, at);
    put_eighths(n % 8, out, next)
}

// So many eighths in decimal, negative.
fn put_negative(n: u64, out: &mut [u8], at: usize) -> usize
    requires { at + 25 ≤ length out.old }
    ensures { Puts 25 result out.new out.old at (ascii "-" ++ decimal_text n) }
{
    let next = put(b'-', out, at);
    put_in_decimal(n, out, next)
}

// A float's bits in hex.
fn put_bits(bits: u64, out: &mut [u8], at: usize) -> usize
    requires { at + 22 ≤ length out.old }
    ensures { Puts 22 result out.new out.old at (ascii "float " ++ hex16 bits) }
{
    let next = put_text(b"float ", out, at);
    put_hex16(bits, out, next)
}

/// Puts the float of a binary64 pattern: 0, a multiple of 1/8 in decimal, or its bits in hex.
#[tactic(auto, using(std::proofs::lemmas::Bool::Decides::nat_tests, numerals::proofs::Putting::within), unfolding(crate::specs::Floats::float_text))]
pub fn put_float(bits: u64, out: &mut [u8], at: usize) -> usize
    requires { at + 25 ≤ length out.old }
    ensures { Puts 25 result out.new out.old at (float_text bits) }
{
    if bits == 0 {
        return put(b'0', out, at);
    }
    let n = eighths_of(bits);
    if n == 0 {
        return put_bits(bits, out, at);
    }
    if bits < 0x8000_0000_0000_0000 {
        return put_in_decimal(n, out, at);
    }
    put_negative(n, out, at)
}
