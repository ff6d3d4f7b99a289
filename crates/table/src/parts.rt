//! Path parts: read from the lent words, and compared as values.

ghost use Rattle.std.specs.Prelude.{◌≡◌, length, get_or};
ghost use Rattle.table.specs.Table.{bound_of, part_of, parts_of, parts_in, same_bound, same_part, same_path};
ghost use Rattle.table.specs.declared.types.PathPart.TheVariants.{Id};

use crate::entry::clip;
use crate::types::{Path, PathPart};

// The bound that a word says.
#[tactic(auto, unfolding(crate::specs::Table::bound_of))]
fn bound_of(word: u64) -> Option<u64>
    ensures { result ≡ bound_of word }
{
    word.checked_sub(1)
}

// The part that three words say.
#[tactic(auto, unfolding(crate::specs::Table::part_of))]
fn part_of(sort: u64, low: u64, high: u64) -> PathPart
    ensures { result ≡ part_of sort low high }
{
    if sort == 0 {
        PathPart::Id(low)
    } else {
        PathPart::Global {
            min: bound_of(low),
            max: bound_of(high),
        }
    }
}

/// Part i of all the table's parts.
#[tactic(auto, using(crate::proofs::Words::threes_at, crate::proofs::Words::word_lengths))]
pub fn part_at(parts: &[u64], i: usize) -> PathPart
    ensures { result ≡ get_or (parts_of parts.now) i (Id 0) }
{
    if parts.len() / 3 <= i {
        return PathPart::Id(0);
    }
    part_of(parts[3 * i], parts[3 * i + 1], parts[3 * i + 2])
}

/// How many parts of a range are there.
#[tactic(auto, using(crate::proofs::Ranges::length_path), unfolding(crate::specs::Table::clipped))]
pub fn path_length(parts: &[u64], path: Path) -> usize
    ensures { result ≡ length (parts_in (parts_of parts.now) path) }
{
    clip(parts.len() / 3, path.first, path.count).count
}

/// Part i of a range.
#[tactic(auto, using(crate::proofs::Ranges::length_path))]
pub fn path_part(parts: &[u64], path: Path, i: usize) -> PathPart
    ensures { result ≡ get_or (parts_in (parts_of parts.now) path) i (Id 0) }
{
    if path_length(parts, path) <= i {
        return PathPart::Id(0);
    }
    part_at(parts, path.first + i)
}

// Whether two bounds are equal.
#[tactic(auto, unfolding(crate::specs::Table::same_bound))]
fn same_bound(a: Option<u64>, b: Option<u64>) -> bool
    ensures { result ≡ same_bound a b }
{
    a == b
}

// Whether two parts are equal.
#[tactic(auto, unfolding(crate::specs::Table::same_part))]
fn same_part(a: PathPart, b: PathPart) -> bool
    ensures { result ≡ same_part a b }
{
    match (a, b) {
        (PathPart::Id(x), PathPart::Id(y)) => x == y,
        (
            PathPart::Global { min, max },
            PathPart::Global {
                min: least,
                max: most,
            },
        ) => same_bound(min, least) && same_bound(max, most),
        (PathPart::Id(_), PathPart::Global { .. }) => false,
        (PathPart::Global { .. }, PathPart::Id(_)) => false,
    }
}

/// Whether two ranges hold equal parts, wherever they lie.
#[tactic(auto, using(crate::proofs::Same::same_lengths, crate::proofs::Same::same_fails, crate::proofs::Same::same_next, crate::proofs::Same::same_end))]
pub fn same_path(parts: &[u64], a: Path, b: Path) -> bool
    ensures { result ≡ same_path (parts_in (parts_of parts.now) a) (parts_in (parts_of parts.now) b) }
{
    let count = path_length(parts, a);
    if count != path_length(parts, b) {
        return false;
    }
    for i in 0..count {
        if !same_part(path_part(parts, a, i), path_part(parts, b, i)) {
            return false;
        }
    }
    true
}
