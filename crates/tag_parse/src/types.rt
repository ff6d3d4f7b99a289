//! What the front of the stream holds, and how reading it answers.

ghost use Rattle.std.specs.Prelude.{◌≡◌};
ghost use Rattle.tag_parse.specs.Refusals.{parse_number};
ghost use Rattle.tag_parse.specs.declared.types.DataError.TheVariants.{Parse, Number};

use table::types::{Path, TagDataType};
use tools::errors::ToolError;

/// The Rust's errors of an element: `InvalidTagData` of CorruptedFileError, and those problems of CorruptedTagData that
/// an element can have whose header was read. An integer of over 8 bytes is none: its header was refused.
#[derive(Clone, Copy, Debug, PartialEq, Eq)]
pub enum ParseError {
    /// A size that is no vint, or a number of over 8 bytes.
    InvalidTagData,
    /// A text that is not UTF-8, RFC 3629.
    FromUtf8Error,
    /// A float of 1 to 3 bytes, of 5 to 7, or of over 8.
    ReadF64Mismatch,
}

/// The refusal's number in the interface.
pub fn parse_number(e: ParseError) -> u64
    ensures { result ≡ parse_number e }
{
    match e {
        ParseError::InvalidTagData => 14,
        ParseError::FromUtf8Error => 20,
        ParseError::ReadF64Mismatch => 21,
    }
}

/// The size that a header says. It is no Option, under the Rust's name and RFC 8794's: an unknown size is a size, and
/// not the lack of one.
#[derive(Clone, Copy, Debug, PartialEq, Eq)]
pub enum EBMLSize {
    /// So many bytes.
    Known(u64),
    /// All data bits are ones, RFC 8794, section 6.2.
    Unknown,
}

/// An element's header. The path comes with the type, so that one look-up serves the whole call.
#[derive(Clone, Copy, Debug, PartialEq, Eq)]
pub struct TagHeader {
    /// The ID, its marker kept.
    pub id: u64,
    /// What the table says of the ID: its type.
    pub kind: TagDataType,
    /// Where its path stands among the table's parts.
    pub path: Path,
    /// The size of the payload.
    pub size: EBMLSize,
    /// How many bytes the header itself has.
    pub len: usize,
}

/// From begin up to end, end not included, counted from the stream's first byte.
#[derive(Clone, Copy, Debug, PartialEq, Eq)]
pub struct Range {
    /// The place of the first byte.
    pub begin: u64,
    /// The place behind the last byte.
    pub end: u64,
}

/// The six kinds of value. A float is the 64 bits of its binary64 pattern.
#[derive(Clone, Copy, Debug, PartialEq, Eq)]
pub enum TagValue {
    /// An unsigned integer; an empty one is 0.
    UnsignedInt(u64),
    /// A signed integer; an empty one is 0.
    Integer(i64),
    /// A text, by where it lies.
    Utf8(Range),
    /// Bytes, by where they lie.
    Binary(Range),
    /// A float; an empty one is 0.0.
    Float(u64),
    /// The bytes of an element without a type, by where they lie.
    Raw(Range),
}

/// Why any bytes are no payload of a type: the refusal of an element's payload, or a number routine's.
#[derive(Clone, Copy, Debug, PartialEq, Eq)]
pub enum DataError {
    /// As an element's payload is refused.
    Parse(ParseError),
    /// As `arr_to_u64` or `arr_to_i64` refuses.
    Number(ToolError),
}

impl From<ParseError> for DataError {
    ghost from_gives = { λ e d. d ≡ Parse e };

    fn from(e: ParseError) -> DataError {
        DataError::Parse(e)
    }
}

impl From<ToolError> for DataError {
    ghost from_gives = { λ e d. d ≡ Number e };

    fn from(e: ToolError) -> DataError {
        DataError::Number(e)
    }
}
