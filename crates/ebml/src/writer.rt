//! The writer, for a program that has a list of items and wants its document.

ghost use Rattle.std.specs.Prelude.{◌≡◌};
ghost use Rattle.tools.specs.Answers.{Gives};
ghost use Rattle.ebml.specs.Writing.{write_refusal_of, wrote_out, write_out, GivesBoth};

use crate::answers::{hand_out, refusal};
use tag_writer::errors::error_number;
use tag_writer::types::WriteError;
use tag_writer::writing::write;
use tools::errors::ToolError;

// The result of a refusal of the writer.
fn write_refusal(e: WriteError) -> u64
    ensures { result ≡ write_refusal_of e }
{
    256 + error_number(e)
}

// The document's length at the front of the lent bytes, or the refusal.
fn hand_out_length(w: Result<usize, WriteError>, written: &mut [u8]) -> u64
    ensures { Gives result written.new (wrote_out w written.old) }
{
    match w {
        Ok(n) => hand_out(8, n as u64, written),
        Err(e) => write_refusal(e),
    }
}

/// The document of a list of items at the front of `out`, and its length in `written`.
pub fn ebml_write(
    entries: &[u64],
    parts: &[u64],
    items: &[u64],
    values: &[u8],
    out: &mut [u8],
    written: &mut [u8],
) -> u64
    ensures { GivesBoth result out.new written.new (write_out entries.now parts.now items.now values.now out.old written.old) }
{
    if written.len() < 8 {
        return refusal(ToolError::OutputTooShort);
    }
    hand_out_length(write(entries, parts, items, values, out), written)
}
