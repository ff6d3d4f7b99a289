//! The refusals' numbers.

ghost use Rattle.std.specs.Prelude.{◌≡◌};
ghost use Rattle.stored_decoder.specs.Refusals.{error_number, number_and_place};

use crate::types::StoreError;
use tools::errors::Refusal;

/// The number of a refusal.
pub fn error_number(e: StoreError) -> u64
    ensures { result ≡ error_number e }
{
    match e {
        StoreError::BlockLength => 90,
        StoreError::UnknownLayout => 91,
        StoreError::UnusedSet => 92,
        StoreError::BadState => 11,
    }
}

/// The refusal's number and place.
pub fn number_and_place(e: StoreError) -> Refusal
    ensures { result ≡ number_and_place e }
{
    Refusal {
        number: error_number(e),
        place: 0,
    }
}
