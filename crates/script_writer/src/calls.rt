//! `write ITEMS BUF OUT`: the writer over the lent table; OUT is the lent output before the call.

ghost use Rattle.std.specs.Prelude.{◌≡◌, OnErr};

use crate::items::{MOST_WORDS, read_items};
use script_table::lending::TableWords;
use script_text::answers::{BadLine, Line};
use script_text::reading::{MOST_BYTES, read_bytes, read_hex};
use script_text::words::split_once;
use tag_writer::errors::error_number;
use tag_writer::types::WriteError;
use tag_writer::writing::write;

/// Whether a name is that of a call on the writer.
pub fn is_call(name: &[u8]) -> bool {
    matches!(name, b"write")
}

/// The three words after the name.
fn three_words(line: &[u8]) -> Option<(&[u8], &[u8], &[u8])> {
    let (_name, words) = split_once(line, b' ')?;
    let (items, bytes) = split_once(words, b' ')?;
    let (buffer, output) = split_once(bytes, b' ')?;
    Some((items, buffer, output))
}

/// `W` and the document's length, or the refusal.
fn put_wrote(wrote: Result<usize, WriteError>, out: &mut Line) {
    match wrote {
        Ok(count) => write!(out, "W {count}"),
        Err(error) => write!(out, "X {}", error_number(error)),
    }
}

/// Answers a line that calls the writer: what the writer answers, and its output after the call. Nothing is written
/// where the line is no call.
pub fn answer(line: &[u8], table: TableWords<'_>, out: &mut Line) -> Result<(), BadLine>
    ensures { OnErr result (out.new ≡ out.old) }
{
    let (items, buffer, output) = three_words(line).ok_or(BadLine)?;
    let mut words = [0; MOST_WORDS];
    let word_count = read_items(items, &mut words).ok_or(BadLine)?;
    let mut values = [0u8; MOST_BYTES];
    let mut document = [0u8; MOST_BYTES];
    let values = read_bytes(buffer, &mut values).ok_or(BadLine)?;
    let count = read_hex(output, &mut document).ok_or(BadLine)?;
    let wrote = write(
        table.entries,
        table.parts,
        &words[..word_count],
        values,
        &mut document[..count],
    );
    put_wrote(wrote, out);
    out.put(b" ");
    out.put_hex(&document[..count]);
    Ok(())
}
