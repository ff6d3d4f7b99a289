//! Reads the lines of standard input and writes their answers.

ghost use Rattle.std.specs.Prelude.{◌≡◌, ◌+◌, ◌≤◌, [], OnOk};
ghost use Rattle.arrayvec.specs.ArrayVec.{array_vec_len};
ghost use Rattle.script_table.specs.HeldIn.{HeldIn, ShapeTold};

use crate::session::Session;
use arrayvec::ArrayVec;
use script_text::answers::{BadLine, Line, MOST_ANSWER};
use std::io;
use std::io::Read;
use std::rt::HostRuntime;

// The most bytes of a line, without its newline.
const MOST_LINE: usize = 16384;

// The most bytes of a read.
const CHUNK: usize = 65536;

// More words than a line can write: each takes two bytes, with the comma or the space before it.
const MOST_WORDS: usize = 8192;

// The most bytes that wait to be written.
const OUTPUT: usize = 65536;

// What one read leaves for the next: the session and the words of its table, the beginning of a line, and the answers
// that wait to be written. The table's words stand in `entries` and `parts`, and it says whether their shape is good.
#[derive(Drop)]
struct Run {
    session: Session,
    entries: [u64; MOST_WORDS],
    parts: [u64; MOST_WORDS],
    line: ArrayVec<u8, MOST_LINE>,
    // whether the line has had more bytes than a line may have
    is_over: bool,
    answer: Line,
    output: ArrayVec<u8, OUTPUT>,
    ghost held: { HeldIn session.table entries parts },
    ghost told: { ShapeTold session.table entries parts },
}

impl Run {
    fn new() -> Run {
        Run {
            session: Session::new(),
            entries: [0; MOST_WORDS],
            parts: [0; MOST_WORDS],
            line: ArrayVec::new(),
            is_over: false,
            answer: Line::new(),
            output: ArrayVec::new(),
        }
    }

    // Writes the answers so far.
    fn flush(&mut self, rt: &HostRuntime) -> io::Result<()>
        ensures { OnOk result (self.new.output.items ≡ []) }
    {
        rt.write_all(self.output.as_slice())?;
        self.output.clear();
        Ok(())
    }

    // Writes the answers so far where there is no room for any other.
    fn make_room(&mut self, rt: &HostRuntime) -> io::Result<()>
        ensures { OnOk result (array_vec_len self.new.output + MOST_ANSWER ≤ OUTPUT) }
    {
        if self.output.remaining_capacity() < MOST_ANSWER {
            return self.flush(rt);
        }
        Ok(())
    }

    // Answers the line, and begins the next.
    fn end_line(&mut self, rt: &HostRuntime) -> io::Result<()> {
        if self.is_over {
            self.answer.clear();
            write!(self.answer, "{BadLine}");
        } else {
            self.session.answer(
                self.line.as_slice(),
                &mut self.entries,
                &mut self.parts,
                &mut self.answer,
            );
        }
        if !self.answer.is_empty() {
            self.answer.put(b"\n");
        }
        self.make_room(rt)?;
        self.output
            .try_extend_from_slice(self.answer.as_slice())
            .unwrap();
        self.line.clear();
        self.is_over = false;
        Ok(())
    }

    // Adds bytes to the line.
    fn add(&mut self, bytes: &[u8]) {
        if self.line.try_extend_from_slice(bytes).is_err() {
            self.is_over = true;
        }
    }

    // Takes the bytes of a read, and answers each line that they end.
    fn feed(&mut self, rt: &HostRuntime, bytes: &[u8]) -> io::Result<()> {
        for piece in bytes.split_inclusive(|&byte| byte == b'\n') {
            match piece.strip_suffix(b"\n") {
                Some(end) => {
                    self.add(end);
                    self.end_line(rt)?;
                }
                None => self.add(piece),
            }
        }
        Ok(())
    }
}

/// Answers the lines of the standard input on the standard output, the answers of a read before the next read. The last
/// line may lack its newline. An error of a read ends the input; an answer that cannot be written is the last.
pub fn answer_stdin(rt: &HostRuntime) -> io::Result<()> {
    let mut run = Run::new();
    let mut chunk = [0u8; CHUNK];
    for _ in 0..u64::MAX {
        let count = rt.stdin().read(&mut chunk).unwrap_or(0);
        if count == 0 {
            break;
        }
        run.feed(rt, &chunk[..count])?;
        run.flush(rt)?;
    }
    run.end_line(rt)?;
    run.flush(rt)
}
