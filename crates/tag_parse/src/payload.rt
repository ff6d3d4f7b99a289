//! A payload's bytes and its type to a value: `value_of` for an element whose header was read, `read_data_tag` for any
//! bytes.

ghost use Rattle.std.specs.Prelude.{◌≡◌, true, ◌+◌, ◌^◌, ◌≤◌, ◌<◌, length};
ghost use Rattle.tag_parse.specs.Payload.{is_integer, text_of, before_zero, text_value, float_value, value_of, read_data};

use crate::types::{DataError, ParseError, Range, TagValue};
use table::types::TagDataType;
use tools::float::arr_to_f64;
use tools::integer::{arr_to_i64, arr_to_u64, integer_of, unsigned_of};
use utf8::is_utf8;

// A text, by where it lies, if it is UTF-8.
fn text_of(raw_data: &[u8], range: Range) -> Result<TagValue, ParseError>
    ensures { result ≡ text_of raw_data.now range }
{
    if is_utf8(raw_data) {
        Ok(TagValue::Utf8(range))
    } else {
        Err(ParseError::FromUtf8Error)
    }
}

// How many bytes come before the first zero byte.
fn before_zero(raw_data: &[u8]) -> usize
    ensures { (result ≡ before_zero raw_data.now) × (result ≤ length raw_data.now) }
{
    raw_data
        .iter()
        .position(|&byte| byte == 0)
        .unwrap_or(raw_data.len())
}

// The text of a payload, which strictly ends at its first zero byte.
fn text_value(strict: bool, raw_data: &[u8], range: Range) -> Result<TagValue, ParseError>
    requires { range.begin + length raw_data.now < 2 ^ 64 }
    ensures { result ≡ text_value strict raw_data.now range }
{
    if !strict {
        return text_of(raw_data, range);
    }
    let n = before_zero(raw_data);
    let shown = Range {
        end: range.begin + n as u64,
        ..range
    };
    text_of(&raw_data[..n], shown)
}

// The value of a float.
fn float_value(raw_data: &[u8]) -> Result<TagValue, ParseError>
    ensures { result ≡ float_value raw_data.now }
{
    if raw_data.is_empty() {
        return Ok(TagValue::Float(0));
    }
    let bits = arr_to_f64(raw_data).map_err(|_| ParseError::ReadF64Mismatch)?;
    Ok(TagValue::Float(bits))
}

/// The value of a payload of a type, which has at most 8 bytes where it is an integer's; the range is where the payload
/// lies in the stream.
#[tactic(auto, unfolding(crate::specs::Payload::value_of))]
pub fn value_of(
    strict: bool,
    kind: TagDataType,
    raw_data: &[u8],
    range: Range,
) -> Result<TagValue, ParseError>
    requires raw_data_len_bound { is_integer kind ≡ true → length raw_data.now ≤ 8 }
    requires raw_data_bound { range.begin + length raw_data.now < 2 ^ 64 }
    ensures { result ≡ value_of strict kind raw_data.now range }
{
    match kind {
        TagDataType::UnsignedInt => Ok(TagValue::UnsignedInt(unsigned_of(raw_data))),
        TagDataType::Integer => Ok(TagValue::Integer(integer_of(raw_data))),
        TagDataType::Utf8 => text_value(strict, raw_data, range),
        TagDataType::Binary => Ok(TagValue::Binary(range)),
        TagDataType::Float => float_value(raw_data),
        // a Master has no payload of its own; the Rust calls this unreachable
        TagDataType::Master => Ok(TagValue::Raw(range)),
        TagDataType::Untyped => Ok(TagValue::Raw(range)),
    }
}

/// The value of a payload of a type, whatever its bytes are: an integer of over 8 bytes is refused as `arr_to_u64` and
/// `arr_to_i64` refuse it.
#[tactic(auto, unfolding(crate::specs::Payload::read_data))]
pub fn read_data_tag(
    kind: TagDataType,
    raw_data: &[u8],
    range: Range,
) -> Result<TagValue, DataError>
    ensures { result ≡ read_data kind raw_data.now range }
{
    Ok(match kind {
        TagDataType::UnsignedInt => TagValue::UnsignedInt(arr_to_u64(raw_data)?),
        TagDataType::Integer => TagValue::Integer(arr_to_i64(raw_data)?),
        TagDataType::Utf8 => text_of(raw_data, range)?,
        TagDataType::Binary => TagValue::Binary(range),
        TagDataType::Float => float_value(raw_data)?,
        TagDataType::Master => TagValue::Raw(range),
        TagDataType::Untyped => TagValue::Raw(range),
    })
}
