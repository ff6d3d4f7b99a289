//! The refusals' numbers.

ghost use Rattle.std.specs.Prelude.{◌≡◌};
ghost use Rattle.tag_writer.specs.Refusals.{error_number, number_and_place};

use crate::types::WriteError;
use tools::errors::Refusal;

/// The number of a refusal.
pub fn error_number(e: WriteError) -> u64
    ensures { result ≡ error_number e }
{
    match e {
        WriteError::TableFails => 40,
        WriteError::TooManyItems => 41,
        WriteError::Unmatched => 42,
        WriteError::WrongItem => 43,
        WriteError::OutputTooShort => 44,
    }
}

/// The refusal's number and place.
pub fn number_and_place(e: WriteError) -> Refusal
    ensures { result ≡ number_and_place e }
{
    Refusal {
        number: error_number(e),
        place: 0,
    }
}
