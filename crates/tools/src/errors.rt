//! The refusals of the number routines, under the names of errors.rs, and their numbers in the interface.

ghost use Rattle.std.specs.Prelude.{◌≡◌};
ghost use Rattle.tools.specs.Refusals.{number_of, number_and_place};

/// Why a number routine answers no number. The Rust's variants carry the refused number or bytes, which the caller here
/// has lent and still holds. `WidthMismatch` and `OutputTooShort` have no counterpart: there a width is a constant of the
/// type, and the output a Vec.
#[derive(Clone, Copy, Debug, PartialEq, Eq)]
pub enum ToolError {
    /// A first byte 0, which begins no vint.
    ReadVintOverflow,
    /// A value that no vint holds, or none of the given width.
    WriteVintOverflow,
    /// A number that no signed vint holds, or none of the given width.
    WriteSignedVintOverflow,
    /// A width of 0 or of over 8 bytes.
    WidthMismatch,
    /// Fewer lent bytes than the answer takes.
    OutputTooShort,
    /// An unsigned integer of over 8 bytes.
    ReadU64Overflow,
    /// A signed integer of over 8 bytes.
    ReadI64Overflow,
    /// A float of neither 4 nor 8 bytes.
    ReadF64Mismatch,
}

/// A refusal as it is told: its number, and the place in the stream, which is 0 where there is none.
#[derive(Clone, Copy, Debug, PartialEq, Eq)]
pub struct Refusal {
    /// The refusal's number in the interface.
    pub number: u64,
    /// The place in the stream, in bytes from its first.
    pub place: u64,
}

/// The refusal's number in the interface.
pub fn number(e: ToolError) -> u64
    ensures { result ≡ number_of e }
{
    match e {
        ToolError::ReadVintOverflow => 1,
        ToolError::WriteVintOverflow => 2,
        ToolError::WriteSignedVintOverflow => 3,
        ToolError::WidthMismatch => 4,
        ToolError::OutputTooShort => 5,
        ToolError::ReadU64Overflow => 6,
        ToolError::ReadI64Overflow => 6,
        ToolError::ReadF64Mismatch => 7,
    }
}

/// The refusal's number and place.
pub fn number_and_place(e: ToolError) -> Refusal
    ensures { result ≡ number_and_place e }
{
    Refusal {
        number: number(e),
        place: 0,
    }
}
