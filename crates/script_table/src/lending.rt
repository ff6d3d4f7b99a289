//! The lent table as a script keeps it from line to line, and the call `table`.

ghost use Rattle.std.specs.Prelude.{ℕ, List, ◌≡◌, ◌≤◌, length, take, OnErr, OnOk};
ghost use Rattle.script_table.specs.HeldIn.{HeldIn, ShapeTold};

use crate::lists::{is_word_list, read_words};
use script_text::answers::{BadLine, Line};
use script_text::words::split_once;
use table::shape::good_shape;

/// The refusal of a table's shape.
pub const BAD_SHAPE: u64 = 10;

/// A table that a script lends: how many words of it stand at the front of the lent ones, its entries' and its parts',
/// and whether its shape is good. That is told once, where it is lent: it takes as long as the table has parts.
#[derive(Clone, Copy, Debug, PartialEq, Eq)]
pub struct LentTable {
    pub entries: usize,
    pub parts: usize,
    pub is_good: bool,
}

/// The words of a lent table, as the calls that ask it take them.
#[derive(Clone, Copy)]
pub struct TableWords<'a> {
    pub entries: &'a [u64],
    pub parts: &'a [u64],
    pub is_good: bool,
}

impl LentTable {
    /// The empty table, which is lent before the first `table`.
    pub fn new() -> LentTable
        ensures words { (result.entries ≡ 0) × (result.parts ≡ 0) }
        ensures good { (entries : List ℕ) → (parts : List ℕ) → ShapeTold result entries parts }
    {
        LentTable {
            entries: 0,
            parts: 0,
            is_good: good_shape(&[], &[]),
        }
    }

    /// Its words, in the lent ones; what it says beyond these is left out.
    pub fn words<'a>(self, entries: &'a [u64], parts: &'a [u64]) -> TableWords<'a>
        ensures entries { self.entries ≤ length entries.now → result.entries.now ≡ take self.entries entries.now }
        ensures parts { self.parts ≤ length parts.now → result.parts.now ≡ take self.parts parts.now }
        ensures good { result.is_good ≡ self.is_good }
    {
        TableWords {
            entries: &entries[..self.entries.min(entries.len())],
            parts: &parts[..self.parts.min(parts.len())],
            is_good: self.is_good,
        }
    }
}

impl Default for LentTable {
    ghost is_default = { λ table. (table.entries ≡ 0) × (table.parts ≡ 0) × ((entries : List ℕ) → (parts : List ℕ) → ShapeTold table entries parts) };

    fn default() -> LentTable {
        LentTable::new()
    }
}

/// `table`: what stands after the name and its space. Where that is no call, the table that was lent stays, and its words
/// with it.
pub(crate) fn lend(
    words: &[u8],
    table: &mut LentTable,
    entries: &mut [u64],
    parts: &mut [u64],
    out: &mut Line,
) -> Result<(), BadLine>
    ensures held { OnOk result (HeldIn table.new entries.new parts.new) }
    ensures good { OnOk result (ShapeTold table.new entries.new parts.new) }
    ensures table { OnErr result (table.new ≡ table.old) }
    ensures entries { OnErr result (entries.new ≡ entries.old) }
    ensures parts { OnErr result (parts.new ≡ parts.old) }
    ensures out { OnErr result (out.new ≡ out.old) }
{
    let (entry_list, part_list) = split_once(words, b' ').ok_or(BadLine)?;
    if !is_word_list(entry_list) || !is_word_list(part_list) {
        return Err(BadLine);
    }
    let entry_count = read_words(entry_list, entries);
    let part_count = read_words(part_list, parts);
    let is_good = good_shape(&entries[..entry_count], &parts[..part_count]);
    *table = LentTable {
        entries: entry_count,
        parts: part_count,
        is_good,
    };
    if is_good {
        out.put(b"ok");
    } else {
        write!(out, "X {BAD_SHAPE}");
    }
    Ok(())
}
