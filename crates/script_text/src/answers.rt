//! The answer to a line.

ghost use Rattle.std.specs.Prelude.{◌≡◌, ◌-◌, ◌≤◌, ◌<◌, ◌↔◌, ◌++◌, [], length, take, IsTrue};

use arrayvec::ArrayVec;
use std::error::Error;
use std::fmt;
use std::fmt::Display;
use std::marker::Model;

/// More bytes than any answer has, with its newline.
pub const MOST_ANSWER: usize = 20000;

/// A line that says no call.
#[derive(Clone, Copy, Debug, PartialEq, Eq)]
pub struct BadLine;

impl Display for BadLine {
    fn fmt<W: fmt::Write>(&self, f: &mut fmt::Formatter<W>) -> fmt::Result {
        write!(f, "BADLINE")
    }
}

impl Error for BadLine {}

/// A line of text that is being written: `write!(line, ..)`, which answers nothing here, and `put_hex` add to its end.
/// What finds no room is left out.
#[derive(Default, Drop)]
pub struct Line {
    text: ArrayVec<u8, MOST_ANSWER>,
}

impl Model for Line {
    ghost use Rattle.std.specs.Prelude.{ℕ, List};

    ghost Value = { List ℕ };

    ghost view = { λ line. line.text.items };
}

impl Line {
    /// The empty line.
    pub fn new() -> Line
        ensures { result ≡ [] }
    {
        Line {
            text: ArrayVec::new(),
        }
    }

    /// What is written.
    pub fn as_slice(&self) -> &[u8]
        ensures value { result.now ≡ self.now }
        ensures fits { length result.now ≤ MOST_ANSWER }
    {
        self.text.as_slice()
    }

    /// Whether nothing is written.
    pub fn is_empty(&self) -> bool
        ensures { IsTrue result ↔ (self.now ≡ []) }
    {
        self.text.is_empty()
    }

    /// Forgets what is written.
    pub fn clear(&mut self)
        ensures { self.new ≡ [] }
    {
        self.text.clear();
    }

    /// Adds bytes.
    pub fn put(&mut self, bytes: &[u8])
        ensures { self.new ≡ self.old ++ take (MOST_ANSWER - length self.old) bytes.now }
    {
        let count = self.text.remaining_capacity().min(bytes.len());
        // not `try_extend_from_slice`: it calls `memmove`, which the bench's archive for C does not need otherwise
        for &byte in &bytes[..count] {
            self.text.push(byte);
        }
    }

    /// Adds HEX: capitals, and `-` for no bytes.
    pub fn put_hex(&mut self, bytes: &[u8]) {
        if bytes.is_empty() {
            self.put(b"-");
        }
        for &byte in bytes {
            self.put(&[glyph(byte / 16), glyph(byte % 16)]);
        }
    }

    /// Adds what `write!` formats.
    pub fn write_fmt<D: Display + Drop>(&mut self, text: D) {
        let _always = fmt::Write::write(self, text);
    }
}

impl fmt::Write for Line {
    fn write_str(&mut self, text: &str) -> fmt::Result {
        self.put(text.as_bytes());
        Ok(())
    }
}

// The capital that stands for a hex digit.
fn glyph(digit: u8) -> u8
    requires { digit < 16 }
{
    b"0123456789ABCDEF"[usize::from(digit)]
}

/// Whether the 64 bits of a float are those of a NaN.
pub fn is_nan(bits: u64) -> bool {
    0x7ff0_0000_0000_0000 < bits % 0x8000_0000_0000_0000
}
