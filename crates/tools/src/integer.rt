//! Payloads that are integers, RFC 8794, sections 7.1 and 7.2: `arr_to_u64` and `arr_to_i64` of tools.rs; and |v|.

ghost use Rattle.std.specs.Prelude.{◌≡◌, ◌≤◌, length};
ghost use Rattle.tools.specs.Answers.{Gives};
ghost use Rattle.tools.specs.Bytes.{be_number};
ghost use Rattle.tools.specs.Integer.{absolute_value, integer_of, arr_to_u64, arr_to_i64, u64_to_arr, i64_to_arr};

use crate::bytes::{be_number, put_be};
use crate::errors::ToolError;
use crate::twos::{bits_of, signed_of};

/// The number of bytes that are known to be at most 8, big-endian.
pub fn unsigned_of(arr: &[u8]) -> u64
    requires { length arr.now ≤ 8 }
    ensures { result ≡ be_number arr.now }
{
    be_number(arr)
}

/// The same in two's complement.
#[tactic(auto, unfolding(crate::specs::Integer::integer_of))]
pub fn integer_of(arr: &[u8]) -> i64
    requires { length arr.now ≤ 8 }
    ensures { result ≡ integer_of arr.now }
{
    if arr.is_empty() {
        return 0;
    }
    signed_of(be_number(arr), 8 * arr.len())
}

/// The number of 0 to 8 bytes, big-endian; more are refused.
#[tactic(auto, unfolding(crate::specs::Integer::arr_to_u64))]
pub fn arr_to_u64(arr: &[u8]) -> Result<u64, ToolError>
    ensures { result ≡ arr_to_u64 arr.now }
{
    if 8 < arr.len() {
        return Err(ToolError::ReadU64Overflow);
    }
    Ok(unsigned_of(arr))
}

/// The same in two's complement.
#[tactic(auto, unfolding(crate::specs::Integer::arr_to_i64))]
pub fn arr_to_i64(arr: &[u8]) -> Result<i64, ToolError>
    ensures { result ≡ arr_to_i64 arr.now }
{
    if 8 < arr.len() {
        return Err(ToolError::ReadI64Overflow);
    }
    Ok(integer_of(arr))
}

/// |val|: how far a number is from 0.
pub fn absolute_value(val: i64) -> u64
    ensures { result ≡ absolute_value val }
{
    val.unsigned_abs()
}

/// A number as the C calls hand it back: eight bytes, big-endian, at the front of the lent ones, and how many they are.
/// Fewer than eight lent bytes are refused.
#[tactic(auto, unfolding(crate::specs::Integer::u64_to_arr))]
pub fn u64_to_arr(val: u64, out: &mut [u8]) -> Result<usize, ToolError>
    ensures { Gives result out.new (u64_to_arr val out.old) }
{
    if out.len() < 8 {
        return Err(ToolError::OutputTooShort);
    }
    put_be(val, 8, out);
    Ok(8)
}

/// The same of a signed number, in two's complement.
pub fn i64_to_arr(val: i64, out: &mut [u8]) -> Result<usize, ToolError>
    ensures { Gives result out.new (i64_to_arr val out.old) }
{
    u64_to_arr(bits_of(val, 64), out)
}
