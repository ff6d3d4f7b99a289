//! Signed vints: `trait SignedVint` and `read_signed_vint` of tools.rs. The value is two's complement in the 7 bits of
//! each byte.

ghost use Rattle.std.specs.Prelude.{◌≡◌};
ghost use Rattle.tools.specs.Answers.{Gives};
ghost use Rattle.tools.specs.SignedVint.{read_signed_vint, as_signed_vint, as_signed_vint_with_length};

use crate::bytes::{least_width, pow2};
use crate::errors::ToolError;
use crate::integer::absolute_value;
use crate::status::Status;
use crate::twos::{bits_of, mag_of, signed_of};
use crate::vint::{as_vint_with_length, read_vint};

// No number is written whose distance from 0 is this or greater.
const SIGNED_VINT_LIMIT: u64 = 0x0080_0000_0000_0000;

/// The signed vint at the front of the bytes: its value and its length, as `read_vint` answers.
#[tactic(auto, using(crate::proofs::Rfc8794::read_sound), unfolding(crate::specs::SignedVint::taken_signed))]
pub fn read_signed_vint(buffer: &[u8]) -> Result<Status<(i64, usize)>, ToolError>
    ensures { result ≡ read_signed_vint buffer.now }
{
    Ok(match read_vint(buffer)? {
        Status::Complete((value, length)) => {
            Status::Complete((signed_of(value, 7 * length), length))
        }
        Status::NeedMore { missing } => Status::NeedMore { missing },
    })
}

/// The signed vint of a number, of the least width, at the front of `out`, and that width.
#[tactic(auto, using(crate::proofs::Complement::mag_le, crate::proofs::Complement::mag_fits, crate::proofs::Widths::width_holds), unfolding(crate::specs::SignedVint::as_signed_vint))]
pub fn as_signed_vint(val: i64, out: &mut [u8]) -> Result<usize, ToolError>
    ensures { Gives result out.new (as_signed_vint val out.old) }
{
    if SIGNED_VINT_LIMIT <= absolute_value(val) {
        return Err(ToolError::WriteSignedVintOverflow);
    }
    let width = least_width(mag_of(val), 1);
    as_vint_with_length(bits_of(val, 7 * width), width, out)
}

/// The signed vint of a number in so many bytes, 1 to 8, at the front of `out`, and how many they are.
#[tactic(auto, using(crate::proofs::Complement::mag_le, crate::proofs::Complement::mag_fits), unfolding(crate::specs::SignedVint::as_signed_vint_with_length))]
pub fn as_signed_vint_with_length(
    val: i64,
    width: usize,
    out: &mut [u8],
) -> Result<usize, ToolError>
    ensures { Gives result out.new (as_signed_vint_with_length val width out.old) }
{
    if width == 0 || 8 < width {
        return Err(ToolError::WidthMismatch);
    }
    if pow2(7 * width - 1) <= absolute_value(val) {
        return Err(ToolError::WriteSignedVintOverflow);
    }
    as_vint_with_length(bits_of(val, 7 * width), width, out)
}
