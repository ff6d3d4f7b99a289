//! The number calls, as a line writes them.

use script_text::reading::{read_bytes, read_decimal, read_signed, read_word};
use script_text::words::split_once;

/// A call.
#[derive(Clone, Copy)]
pub enum Call<'a> {
    ReadVint(&'a [u8]),
    ReadSignedVint(&'a [u8]),
    ArrToU64(&'a [u8]),
    ArrToI64(&'a [u8]),
    ArrToF64(&'a [u8]),
    /// ArrToF64 with a NaN answered as its bits.
    ArrToF64Bits(&'a [u8]),
    IsVint(u64),
    /// The length page's entry for a first byte; C has no such call.
    LengthOnPage(u8),
    /// The form of an ID; the format has no line for its C call.
    IsElementId(u64),
    Write(Vint),
}

/// A vint to write.
#[derive(Clone, Copy)]
pub enum Vint {
    Shortest(u64),
    OfLength(u64, usize),
    ShortestSigned(i64),
    SignedOfLength(i64, usize),
}

/// The word of a number, and the width that stands after it.
fn split_width(words: &[u8]) -> Option<(&[u8], usize)> {
    let (number, width) = split_once(words, b' ')?;
    Some((number, read_decimal(width)? as usize))
}

/// The vint to write that the words after a name say.
fn read_vint(name: &[u8], words: &[u8]) -> Option<Vint> {
    let vint = match name {
        b"wv" => Vint::Shortest(read_decimal(words)?),
        b"ws" => Vint::ShortestSigned(read_signed(words)?),
        b"wvw" => {
            let (number, width) = split_width(words)?;
            Vint::OfLength(read_decimal(number)?, width)
        }
        b"wsw" => {
            let (number, width) = split_width(words)?;
            Vint::SignedOfLength(read_signed(number)?, width)
        }
        _ => return None,
    };
    Some(vint)
}

/// The call that a text says; its HEX, if it has one, goes to `bytes`.
pub fn read_call<'a>(text: &[u8], bytes: &'a mut [u8]) -> Option<Call<'a>> {
    let (name, words) = split_once(text, b' ')?;
    let call = match name {
        b"rv" => Call::ReadVint(read_bytes(words, bytes)?),
        b"rs" => Call::ReadSignedVint(read_bytes(words, bytes)?),
        b"au" => Call::ArrToU64(read_bytes(words, bytes)?),
        b"ai" => Call::ArrToI64(read_bytes(words, bytes)?),
        b"af" => Call::ArrToF64(read_bytes(words, bytes)?),
        b"afb" => Call::ArrToF64Bits(read_bytes(words, bytes)?),
        b"iv" => Call::IsVint(read_decimal(words)?),
        b"vl" => Call::LengthOnPage(u8::try_from(read_decimal(words)?).ok()?),
        b"idf" => Call::IsElementId(read_word(words)?),
        _ => Call::Write(read_vint(name, words)?),
    };
    Some(call)
}
