//! The writer.

ghost use Rattle.std.specs.Prelude.{true, ◌≡◌, [], ◌++◌, ◌/◌, ◌≤◌, length, drop};
ghost use Rattle.tools.specs.Answers.{Gives};
ghost use Rattle.tag_writer.specs.Flat.{marks_bytes};
ghost use Rattle.tag_writer.specs.Items.{marks_of, matched};
ghost use Rattle.tag_writer.specs.Sizing.{Sizable, SizesIn};
ghost use Rattle.tag_writer.specs.Write.{write};

use crate::asking::all_asked;
use crate::items::{index, item_count, item_word};
use crate::matching::is_matched;
use crate::putting::{put_datum, put_header};
use crate::sizes::size_of_run;
use crate::types::{MOST_ITEMS, WriteError};
use table::check::check_table;

// The items in turn: a header for each Start, with the size of its children that is kept at its place; a header and the
// payload for each value.
fn put_items(items: &[u64], values: &[u8], sizes: &[u64], out: &mut [u8])
    requires { Sizable (marks_of values.now items.now) × (matched [] (marks_of values.now items.now) ≡ true)
        × (length (marks_bytes (marks_of values.now items.now)) ≤ length out.old)
        × (length items.now / 4 ≤ length sizes.now)
        × SizesIn (marks_of values.now items.now) 0 (length items.now / 4) sizes.now }
    ensures { out.new ≡ marks_bytes (marks_of values.now items.now)
        ++ drop (length (marks_bytes (marks_of values.now items.now))) out.old }
{
    let count = item_count(items);
    let mut at: usize = 0;
    for i in 0..count {
        let kind = item_word(items, i, 0);
        let id = item_word(items, i, 1);
        if kind == 6 {
            continue;
        }
        if kind == 0 {
            at = put_header(id, sizes[i], out, at);
            continue;
        }
        let offset = item_word(items, i, 2);
        let n = item_word(items, i, 3);
        at = put_datum(values, kind, id, offset, n, out, at);
    }
}

/// Writes the document that the items say at the front of out, with every size filled in, or refuses and writes nothing.
pub fn write(
    entries: &[u64],
    parts: &[u64],
    items: &[u64],
    values: &[u8],
    out: &mut [u8],
) -> Result<usize, WriteError>
    ensures { Gives result out.new (write entries.now parts.now items.now values.now out.old) }
{
    check_table(entries, parts)?;
    if MOST_ITEMS < item_count(items) {
        return Err(WriteError::TooManyItems);
    }
    if !is_matched(items) {
        return Err(WriteError::Unmatched);
    }
    if items.len() % 4 != 0 {
        return Err(WriteError::WrongItem);
    }
    if !all_asked(entries, parts, items, values) {
        return Err(WriteError::WrongItem);
    }
    let mut sizes = [0u64; MOST_ITEMS];
    let all = size_of_run(items, values, 0, &mut sizes);
    if !all.fits {
        return Err(WriteError::WrongItem);
    }
    let size = index(all.size);
    if out.len() < size {
        return Err(WriteError::OutputTooShort);
    }
    put_items(items, values, &sizes, out);
    Ok(size)
}
