//! A line that begins with the name of a call on the table, and its answer.

ghost use Rattle.std.specs.Prelude.{◌≡◌, OnErr};
ghost use Rattle.script_table.specs.HeldIn.{HeldIn, ShapeTold};

use crate::asking::{answer_question, read_question};
use crate::lending::{LentTable, lend};
use script_text::answers::{BadLine, Line};
use script_text::words::split_once;

/// Whether a name is that of a call on the lent table.
pub fn is_call(name: &[u8]) -> bool {
    matches!(
        name,
        b"table" | b"check" | b"ended" | b"sended" | b"path" | b"spath"
    )
}

/// Answers one line; `table` is the table that is lent after it, and its words stand in `entries` and `parts`, where
/// what finds no room is left out. Where the line is no call, the one that was lent stays, and nothing is written.
pub fn answer(
    line: &[u8],
    table: &mut LentTable,
    entries: &mut [u64],
    parts: &mut [u64],
    out: &mut Line,
) -> Result<(), BadLine>
    ensures held { HeldIn table.old entries.old parts.old → HeldIn table.new entries.new parts.new }
    ensures good { ShapeTold table.old entries.old parts.old → ShapeTold table.new entries.new parts.new }
    ensures table { OnErr result (table.new ≡ table.old) }
    ensures entries { OnErr result (entries.new ≡ entries.old) }
    ensures parts { OnErr result (parts.new ≡ parts.old) }
    ensures out { OnErr result (out.new ≡ out.old) }
{
    if let Some((b"table", words)) = split_once(line, b' ') {
        return lend(words, table, entries, parts, out);
    }
    let question = read_question(line).ok_or(BadLine)?;
    answer_question(question, table.words(entries, parts), out);
    Ok(())
}
