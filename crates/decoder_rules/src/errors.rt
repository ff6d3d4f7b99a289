//! The refusals' numbers, and a payload's refusals among them.

ghost use Rattle.std.specs.Prelude.{◌≡◌};
ghost use Rattle.decoder_rules.specs.Numbers.{error_number};

use crate::types::DecodeError;
use tag_parse::types::ParseError;

/// The number of a refusal.
pub fn error_number(e: DecodeError) -> u64
    ensures { result ≡ error_number e }
{
    match e {
        DecodeError::TableShape => 10,
        DecodeError::BadState => 11,
        DecodeError::TooFar => 12,
        DecodeError::AfterFinish => 13,
        DecodeError::InvalidTagData => 14,
        DecodeError::InvalidTagId => 15,
        DecodeError::HierarchyError => 16,
        DecodeError::InvalidTagSize => 17,
        DecodeError::OversizedChildElement => 18,
        DecodeError::TooManyOpen => 19,
        DecodeError::FromUtf8Error => 20,
        DecodeError::ReadF64Mismatch => 21,
        DecodeError::UnexpectedEOF(_) => 23,
        DecodeError::NotAMaster => 24,
        DecodeError::InvalidIdForm => 80,
        DecodeError::UnknownSizePastEnd => 81,
    }
}

/// The decoder's refusal for what reading an element refuses.
impl From<ParseError> for DecodeError {
    ghost use Rattle.decoder_rules.specs.Numbers.{parse_error};
    ghost use Rattle.std.specs.Prelude.{◌≡◌};

    ghost from_gives = { λ e d. d ≡ parse_error e };

    fn from(e: ParseError) -> DecodeError {
        match e {
            ParseError::InvalidTagData => DecodeError::InvalidTagData,
            ParseError::FromUtf8Error => DecodeError::FromUtf8Error,
            ParseError::ReadF64Mismatch => DecodeError::ReadF64Mismatch,
        }
    }
}
