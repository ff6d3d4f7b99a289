//! Variable-size integers, RFC 8794, section 4: `trait Vint`, `read_vint` and `is_vint` of tools.rs.

ghost use Rattle.std.specs.Prelude.{◌≡◌};
ghost use Rattle.tools.specs.Answers.{Gives};
ghost use Rattle.tools.specs.Vint.{read_vint, as_vint, as_vint_with_length, is_vint};

use crate::bytes::{be_number, least_width, pow2, put_be};
use crate::errors::ToolError;
use crate::page::length_on_page;
use crate::status::Status;

// No vint holds this value or a greater one: 8 bytes have 56 bits of data.
const VINT_LIMIT: u64 = 0x0100_0000_0000_0000;

/// The vint at the front of the bytes: its value and its length, or how many bytes it lacks at least. A first byte 0 is
/// refused.
#[tactic(auto, using(crate::proofs::Cases::read_none, crate::proofs::Cases::read_zero, crate::proofs::Cases::read_short, crate::proofs::Cases::read_whole, crate::proofs::PageRule::rule_vint, crate::proofs::Marker::marked))]
pub fn read_vint(buffer: &[u8]) -> Result<Status<(u64, usize)>, ToolError>
    ensures { result ≡ read_vint buffer.now }
{
    let Some(&first) = buffer.first() else {
        return Ok(Status::NeedMore { missing: 1 });
    };
    if first == 0 {
        return Err(ToolError::ReadVintOverflow);
    }
    let length = length_on_page(first);
    if buffer.len() < length {
        return Ok(Status::NeedMore {
            missing: length - buffer.len(),
        });
    }
    Ok(Status::Complete((be_number(&buffer[..length]) - pow2(7 * length), length)))
}

/// The vint of a value, of the least width, at the front of `out`, and that width.
#[tactic(auto, using(crate::proofs::Widths::vint_width_lem), unfolding(crate::specs::Vint::as_vint))]
pub fn as_vint(val: u64, out: &mut [u8]) -> Result<usize, ToolError>
    ensures { Gives result out.new (as_vint val out.old) }
{
    if VINT_LIMIT <= val {
        return Err(ToolError::WriteVintOverflow);
    }
    as_vint_with_length(val, least_width(val + 1, 0), out)
}

/// The vint of a value in so many bytes, 1 to 8, at the front of `out`, and how many they are.
#[tactic(auto, unfolding(crate::specs::Vint::as_vint_with_length))]
pub fn as_vint_with_length(val: u64, width: usize, out: &mut [u8]) -> Result<usize, ToolError>
    ensures { Gives result out.new (as_vint_with_length val width out.old) }
{
    if width == 0 || 8 < width {
        return Err(ToolError::WidthMismatch);
    }
    let marker = pow2(7 * width);
    if marker <= val {
        return Err(ToolError::WriteVintOverflow);
    }
    if out.len() < width {
        return Err(ToolError::OutputTooShort);
    }
    put_be(marker + val, width, out);
    Ok(width)
}

/// Whether the highest set bit is where a vint has its marker.
#[tactic(auto, unfolding(crate::specs::Vint::is_vint))]
pub fn is_vint(val: u64) -> bool
    ensures { result ≡ is_vint val }
{
    val != 0 && (63 - u64::leading_zeros(val)) % 7 == 0
}
