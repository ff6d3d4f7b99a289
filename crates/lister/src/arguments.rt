//! What the arguments ask for: which list, and how the record is read.

use reading::arguments::{Mode, mode_at};
use std::env::FillError;
use std::fmt;
use std::rt::Env;

/// The plain list, or the one for people.
#[derive(Clone, Copy, Debug, PartialEq, Eq)]
pub enum List {
    Plain,
    Names,
}

/// The list that is asked for, and how the record is read.
#[derive(Clone, Copy, Debug, PartialEq, Eq)]
pub struct Wanted {
    pub list: List,
    pub mode: Mode,
}

/// What an argument names that is not there.
#[derive(Clone, Copy, Debug, PartialEq, Eq)]
pub enum Unknown {
    List,
    Mode,
}

impl fmt::Display for Unknown {
    fn fmt<W: fmt::Write>(&self, f: &mut fmt::Formatter<W>) -> fmt::Result {
        match self {
            Unknown::List => write!(f, "the list is plain or names"),
            Unknown::Mode => write!(f, "the mode is ported or strict"),
        }
    }
}

// The list that the argument at a place names; the plain one where there is no argument, and `None` where it is another
// word.
fn list_at<E: Env>(env: &E, place: usize) -> Option<List> {
    let mut word = [0u8; 5];
    match env.arg(place, &mut word) {
        Ok(n) => match &word[..n] {
            b"plain" => Some(List::Plain),
            b"names" => Some(List::Names),
            _ => None,
        },
        Err(FillError::TooLong) => None,
        Err(FillError::NotPresent) => Some(List::Plain),
    }
}

/// The list that the first argument names and the mode that the second one does. Of two that are not there, the mode is
/// told.
pub fn what_is_wanted<E: Env>(env: &E) -> Result<Wanted, Unknown> {
    let mode = mode_at(env, 2).ok_or(Unknown::Mode)?;
    let list = list_at(env, 1).ok_or(Unknown::List)?;
    Ok(Wanted { list, mode })
}
