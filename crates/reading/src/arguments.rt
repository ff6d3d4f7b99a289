//! The words that a program is started with. No contract can say which they are.

use std::env::FillError;
use std::rt::Env;

/// How a record is read.
#[derive(Clone, Copy, Debug, PartialEq, Eq)]
pub enum Mode {
    Ported,
    Strict,
}

/// Whether there is an argument at this place.
pub fn is_given<E: Env>(env: &E, place: usize) -> bool {
    !matches!(env.arg(place, &mut []), Err(FillError::NotPresent))
}

/// The mode that the argument at a place names, `ported` or `strict`; as ported where there is no argument, and `None`
/// where it is another word.
pub fn mode_at<E: Env>(env: &E, place: usize) -> Option<Mode> {
    let mut word = [0u8; 6];
    match env.arg(place, &mut word) {
        Ok(n) => match &word[..n] {
            b"ported" => Some(Mode::Ported),
            b"strict" => Some(Mode::Strict),
            _ => None,
        },
        Err(FillError::TooLong) => None,
        Err(FillError::NotPresent) => Some(Mode::Ported),
    }
}
