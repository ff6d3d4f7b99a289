//! One entry of the table, read from its words. Helpers of this crate alone.

ghost use Rattle.std.specs.Prelude.{◌≡◌, ◌/◌, ◌≤◌, length, get_or};
ghost use Rattle.table.specs.Table.{kind_of, clipped, table_of, unlisted, spec_of, FirstWith};

use crate::types::{Path, Spec, TagDataType};

// The type that a word says.
#[tactic(auto, unfolding(crate::specs::Table::kind_of))]
fn kind_of(word: u64) -> TagDataType
    ensures { result ≡ kind_of word }
{
    match word {
        0 => TagDataType::Master,
        1 => TagDataType::UnsignedInt,
        2 => TagDataType::Integer,
        3 => TagDataType::Utf8,
        4 => TagDataType::Binary,
        _ => TagDataType::Float,
    }
}

/// A range, as much of it as lies in all the parts.
#[tactic(auto, unfolding(crate::specs::Table::clipped))]
pub fn clip(all: usize, first: usize, count: usize) -> Path
    ensures { result ≡ clipped all first count }
{
    Path {
        first,
        count: count.min(all.saturating_sub(first)),
    }
}

/// What entry i says.
#[tactic(auto, using(crate::proofs::Entries::table_at, crate::proofs::Entries::table_past, crate::proofs::Words::word_lengths), unfolding(crate::specs::Table::entry_of))]
pub fn spec_at(entries: &[u64], parts: &[u64], i: usize) -> Spec
    ensures { result ≡ spec_of (get_or (table_of entries.now parts.now) i unlisted) }
{
    if entries.len() / 4 <= i {
        return Spec {
            kind: TagDataType::Untyped,
            path: Path { first: 0, count: 0 },
        };
    }
    let kind = kind_of(entries[4 * i + 1]);
    let path = clip(
        parts.len() / 3,
        entries[4 * i + 2] as usize,
        entries[4 * i + 3] as usize,
    );
    Spec { kind, path }
}

/// The place of the first of the first n entries with this ID, or n.
pub fn first_with(entries: &[u64], id: u64, n: usize) -> usize
    requires { n ≤ length entries.now / 4 }
    ensures { FirstWith entries.now id n result }
{
    for i in 0..n {
        if entries[4 * i] == id {
            return i;
        }
    }
    n
}
