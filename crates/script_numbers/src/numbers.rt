//! The answers of the number routines.

ghost use Rattle.std.specs.Prelude.{◌≡◌, OnErr};

use crate::calls::{Call, Vint, read_call};
use script_text::answers::{BadLine, Line, is_nan};
use script_text::reading::MOST_BYTES;
use std::fmt::Display;
use tools::element_id::is_element_id;
use tools::errors::{ToolError, number};
use tools::float::arr_to_f64;
use tools::integer::{arr_to_i64, arr_to_u64};
use tools::page::length_on_page;
use tools::signed_vint::{as_signed_vint, as_signed_vint_with_length, read_signed_vint};
use tools::status::Status;
use tools::vint::{as_vint, as_vint_with_length, is_vint, read_vint};

/// A number routine's refusal. Its place is 0, and is not printed.
fn put_refusal(error: ToolError, out: &mut Line) {
    write!(out, "X {}", number(error));
}

// A vint of either kind, or how many bytes of it are missing.
fn put_vint<T: Display + Drop>(read: Result<Status<(T, usize)>, ToolError>, out: &mut Line) {
    match read {
        Ok(Status::Complete((value, length))) => write!(out, "V {value} {length}"),
        Ok(Status::NeedMore { missing }) => write!(out, "N need={missing}"),
        Err(error) => put_refusal(error, out),
    }
}

// A number of either kind.
fn put_number<T: Display + Drop>(read: Result<T, ToolError>, out: &mut Line) {
    match read {
        Ok(value) => write!(out, "V {value}"),
        Err(error) => put_refusal(error, out),
    }
}

fn put_f64_bits(read: Result<u64, ToolError>, out: &mut Line) {
    match read {
        Ok(bits) => write!(out, "D {bits:016X}"),
        Err(error) => put_refusal(error, out),
    }
}

/// What is compared of a NaN is only that it is one.
fn put_f64(read: Result<u64, ToolError>, out: &mut Line) {
    match read {
        Ok(bits) if is_nan(bits) => out.put(b"D NaN"),
        _ => put_f64_bits(read, out),
    }
}

fn write(vint: Vint, bytes: &mut [u8]) -> Result<usize, ToolError> {
    match vint {
        Vint::Shortest(n) => as_vint(n, bytes),
        Vint::OfLength(n, width) => as_vint_with_length(n, width, bytes),
        Vint::ShortestSigned(z) => as_signed_vint(z, bytes),
        Vint::SignedOfLength(z, width) => as_signed_vint_with_length(z, width, bytes),
    }
}

/// The bytes of a vint, which are never more than were lent, or the refusal.
fn put_written(vint: Vint, out: &mut Line) -> Result<(), BadLine>
    ensures { OnErr result (out.new ≡ out.old) }
{
    let mut bytes = [0u8; 8];
    match write(vint, &mut bytes) {
        Ok(count) => {
            let vint = bytes.get(..count).ok_or(BadLine)?;
            out.put(b"B ");
            out.put_hex(vint);
        }
        Err(error) => put_refusal(error, out),
    }
    Ok(())
}

/// Answers a line that calls a number routine; nothing is written where it is no call.
pub fn answer(line: &[u8], out: &mut Line) -> Result<(), BadLine>
    ensures { OnErr result (out.new ≡ out.old) }
{
    let mut bytes = [0u8; MOST_BYTES];
    let call = read_call(line, &mut bytes).ok_or(BadLine)?;
    match call {
        Call::ReadVint(bytes) => put_vint(read_vint(bytes), out),
        Call::ReadSignedVint(bytes) => put_vint(read_signed_vint(bytes), out),
        Call::ArrToU64(bytes) => put_number(arr_to_u64(bytes), out),
        Call::ArrToI64(bytes) => put_number(arr_to_i64(bytes), out),
        Call::ArrToF64(bytes) => put_f64(arr_to_f64(bytes), out),
        Call::ArrToF64Bits(bytes) => put_f64_bits(arr_to_f64(bytes), out),
        Call::IsVint(n) => write!(out, "{}", u8::from(is_vint(n))),
        Call::IsElementId(id) => write!(out, "{}", u8::from(is_element_id(id))),
        Call::LengthOnPage(first) => write!(out, "{}", length_on_page(first)),
        Call::Write(vint) => put_written(vint, out)?,
    }
    Ok(())
}
