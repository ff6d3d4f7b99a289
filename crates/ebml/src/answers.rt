//! An answer of the library as one result number, with its value at the front of the lent bytes.

ghost use Rattle.std.specs.Prelude.{◌≡◌, ◌≤◌};
ghost use Rattle.tools.specs.Answers.{Gives};
ghost use Rattle.ebml.specs.Numbers.{refusal_of, need_more_of, code_of, result_of, value_out, signed_out};

use tools::errors::{ToolError, number_and_place};
use tools::integer::{i64_to_arr, u64_to_arr};

/// A refusal's result.
pub fn refusal(e: ToolError) -> u64
    ensures { result ≡ refusal_of e }
{
    256 + number_and_place(e).number
}

/// The result where so many bytes of a vint are missing.
pub fn need_more(missing: usize) -> u64
    requires { missing ≤ 8 }
    ensures { result ≡ need_more_of missing }
{
    512 + missing as u64
}

/// The result of a writer: the length written, or a refusal.
pub fn code_of(w: Result<usize, ToolError>) -> u64
    ensures { result ≡ code_of w }
{
    match w {
        Ok(n) => n as u64,
        Err(e) => refusal(e),
    }
}

// The result of a call whose value was handed to the lent bytes.
fn result_of(res: u64, w: Result<usize, ToolError>) -> u64
    ensures { result ≡ result_of res w }
{
    match w {
        Ok(_) => res,
        Err(e) => refusal(e),
    }
}

/// The value at the front of the lent bytes, and the result, or a refusal where they are too few.
pub fn hand_out(res: u64, value: u64, out: &mut [u8]) -> u64
    ensures { Gives result out.new (value_out res value out.old) }
{
    result_of(res, u64_to_arr(value, out))
}

/// The same of a signed value.
pub fn hand_out_signed(res: u64, value: i64, out: &mut [u8]) -> u64
    ensures { Gives result out.new (signed_out res value out.old) }
{
    result_of(res, i64_to_arr(value, out))
}
