//! Two's complement in a number of bits. Helpers of this crate alone.

ghost use Rattle.std.specs.Prelude.{◌≡◌, not, ◌-◌, ◌^◌, ◌≤◌, ◌<◌, pos, negsuc};
ghost use Rattle.std.specs.Int.Signed.{mag, non_neg};
ghost use Rattle.tools.specs.Twos.{signed_of, bits_of};

use crate::bytes::pow2;

// x itself, which 63 bits hold.
fn plus(x: u64) -> i64
    requires { x < 2 ^ 63 }
    ensures { result ≡ pos x }
{
    x as i64
}

// -1 - x
fn minus(x: u64) -> i64
    requires { x < 2 ^ 63 }
    ensures { result ≡ negsuc x }
{
    -1 - (x as i64)
}

/// The two's complement reading of a number of so many bits.
#[tactic(auto, using(crate::proofs::Complement::doubled, crate::proofs::Complement::signed_low, crate::proofs::Complement::signed_high))]
pub fn signed_of(value: u64, bits: usize) -> i64
    requires { (1 ≤ bits) × (bits ≤ 64) × (value < 2 ^ bits) }
    ensures { result ≡ signed_of bits value }
{
    let half = pow2(bits - 1);
    if value < half {
        plus(value)
    } else {
        minus(half - 1 - (value - half))
    }
}

/// Whether a number is below 0.
pub fn is_negative(val: i64) -> bool
    ensures { result ≡ not (non_neg val) }
{
    val < 0
}

/// The number itself, or of a negative one how far below -1 it is.
pub fn mag_of(val: i64) -> u64
    ensures { result ≡ mag val }
{
    if val < 0 { (!val) as u64 } else { val as u64 }
}

// So many bits, all of them ones.
fn ones(bits: usize) -> u64
    requires { bits ≤ 64 }
    ensures { result ≡ 2 ^ bits - 1 }
{
    if bits == 64 {
        return 0xffff_ffff_ffff_ffff;
    }
    pow2(bits) - 1
}

/// The two's complement of val in so many bits.
pub fn bits_of(val: i64, bits: usize) -> u64
    requires { (bits ≤ 64) × (mag val < 2 ^ bits) }
    ensures { result ≡ bits_of bits val }
{
    if is_negative(val) {
        ones(bits) - mag_of(val)
    } else {
        mag_of(val)
    }
}
