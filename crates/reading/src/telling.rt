//! How the programs tell on standard error that they failed.

ghost use Rattle.std.specs.Prelude.{◌≡◌, ◌↔◌, ◌≤◌, length, IsTrue};
ghost use Rattle.std.specs.IoError.{error_kind};

use std::io;
use std::io::{Eprint, ErrorKind, Write};

// The bytes of the system's words for an error, with std's ` (os error N)` behind them.
const MOST_TEXT: usize = 128;

// What std puts behind the system's words, and the error's number after it.
const BEHIND: &str = " (os error ";

// How many bytes the text of an error has at the front of `text`; 0 where it does not fit.
fn put_error(error: &io::Error, text: &mut [u8]) -> usize
    ensures { result ≤ length text.old }
{
    let room = text.len();
    let mut rest = text;
    match write!(rest, "{error}") {
        Ok(()) => room.saturating_sub(rest.len()),
        Err(_) => 0,
    }
}

/// Says on standard error what failed, and why in the system's words. Nothing can be said where that cannot be written.
pub fn fail<P: Eprint>(to: &P, what: &str, error: &io::Error) {
    let mut text = [0u8; MOST_TEXT];
    let n = put_error(error, &mut text);
    let text = str::from_utf8(&text[..n]).unwrap_or("");
    let words = text.split_once(BEHIND).map_or(text, |(words, _)| words);
    let _ = eprintln!(to; "{what}: {words}");
}

/// Whether a write failed because whoever read the output has gone, of which no word is wanted.
pub fn has_no_reader(error: &io::Error) -> bool
    ensures { IsTrue result ↔ (error_kind error.now ≡ ErrorKind.BrokenPipe) }
{
    error.kind() == ErrorKind::BrokenPipe
}
