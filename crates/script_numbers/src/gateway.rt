//! The answers of the C calls: `g`, a number call, and the lent output as it is before the call.

ghost use Rattle.std.specs.Prelude.{◌≡◌, OnErr};

use crate::calls::{Call, Vint, read_call};
use ebml::numbers::{
    ebml_arr_to_f64, ebml_arr_to_i64, ebml_arr_to_u64, ebml_as_signed_vint,
    ebml_as_signed_vint_with_length, ebml_as_vint, ebml_as_vint_with_length, ebml_is_vint,
    ebml_read_signed_vint, ebml_read_vint,
};
use script_text::answers::{BadLine, Line};
use script_text::reading::{MOST_BYTES, read_hex};
use script_text::words::rsplit_once;

fn write(vint: Vint, lent: &mut [u8]) -> u64 {
    match vint {
        Vint::Shortest(n) => ebml_as_vint(n, lent),
        Vint::OfLength(n, width) => ebml_as_vint_with_length(n, width, lent),
        Vint::ShortestSigned(z) => ebml_as_signed_vint(z, lent),
        Vint::SignedOfLength(z, width) => ebml_as_signed_vint_with_length(z, width, lent),
    }
}

/// The result number of a call that has a C form.
fn result_of(call: Call, lent: &mut [u8]) -> Option<u64> {
    match call {
        Call::ReadVint(bytes) => Some(ebml_read_vint(bytes, lent)),
        Call::ReadSignedVint(bytes) => Some(ebml_read_signed_vint(bytes, lent)),
        Call::ArrToU64(bytes) => Some(ebml_arr_to_u64(bytes, lent)),
        Call::ArrToI64(bytes) => Some(ebml_arr_to_i64(bytes, lent)),
        Call::ArrToF64(bytes) => Some(ebml_arr_to_f64(bytes, lent)),
        Call::IsVint(n) => Some(ebml_is_vint(n)),
        Call::Write(vint) => Some(write(vint, lent)),
        Call::ArrToF64Bits(_) | Call::LengthOnPage(_) | Call::IsElementId(_) => None,
    }
}

/// Answers what stands after the `g` and its space; nothing is written where it is no call.
pub fn answer(text: &[u8], out: &mut Line) -> Result<(), BadLine>
    ensures { OnErr result (out.new ≡ out.old) }
{
    let (call, output) = rsplit_once(text, b' ').ok_or(BadLine)?;
    let mut bytes = [0u8; MOST_BYTES];
    let call = read_call(call, &mut bytes).ok_or(BadLine)?;
    let mut lent = [0u8; MOST_BYTES];
    let count = read_hex(output, &mut lent).ok_or(BadLine)?;
    let number = result_of(call, &mut lent[..count]).ok_or(BadLine)?;
    write!(out, "{number} ");
    out.put_hex(&lent[..count]);
    Ok(())
}
