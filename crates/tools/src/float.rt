//! Payloads that are floats, RFC 8794, section 7.3: `arr_to_f64` of tools.rs. A float is answered as the 64 bits of its binary64 pattern.

ghost use Rattle.std.specs.Prelude.{◌≡◌, ◌^◌, ◌<◌};
ghost use Rattle.tools.specs.Float.{widened, subnormal_of, arr_to_f64};

use crate::bytes::be_number;
use crate::errors::ToolError;

// The exponent and the fraction of a binary32 subnormal, whose highest set bit becomes the hidden one.
fn subnormal(fraction: u64) -> u64
    requires { (0 < fraction) × (fraction < 2 ^ 23) }
    ensures { (result ≡ subnormal_of fraction) × (result < 2 ^ 63) }
{
    let zeros = u64::leading_zeros(fraction) as u64;
    (63 - zeros + 874) * 0x10_0000_0000_0000 + ((fraction << (zeros - 11)) - 0x10_0000_0000_0000)
}

// The binary64 pattern of what a binary32 pattern denotes, by bits alone.
#[tactic(auto, using(crate::proofs::Widening::nan_over, crate::proofs::Widening::to_inf, crate::proofs::Widening::to_normal, crate::proofs::Widening::to_zero, crate::proofs::Widening::to_sub), unfolding(crate::specs::Float::widened))]
fn widen(b: u32) -> u64
    ensures { result ≡ widened b }
{
    let n = u64::from(b);
    let sign = n / 0x8000_0000 * 0x8000_0000_0000_0000;
    let rest = n % 0x8000_0000;
    let exponent = rest / 0x80_0000;
    let fraction = n % 0x80_0000;
    if 0x7f80_0000 < rest {
        return sign + 0x7ff8_0000_0000_0000 + n % 0x40_0000 * 0x2000_0000;
    }
    if exponent == 255 {
        return sign + 0x7ff0_0000_0000_0000;
    }
    if 0 < exponent {
        return sign + (exponent + 896) * 0x10_0000_0000_0000 + fraction * 0x2000_0000;
    }
    if fraction == 0 {
        return sign;
    }
    sign + subnormal(fraction)
}

/// The 64 bits of a float of 4 or 8 bytes; another length is refused.
#[tactic(auto, unfolding(crate::specs::Float::arr_to_f64))]
pub fn arr_to_f64(arr: &[u8]) -> Result<u64, ToolError>
    ensures { result ≡ arr_to_f64 arr.now }
{
    match arr.len() {
        4 => Ok(widen(be_number(arr) as u32)),
        8 => Ok(be_number(arr)),
        _ => Err(ToolError::ReadF64Mismatch),
    }
}
