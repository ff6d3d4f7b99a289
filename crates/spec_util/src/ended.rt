//! `is_parent`, `is_sibling` and `is_ended_by` of spec_util.rs.

ghost use Rattle.std.specs.Prelude.{◌≡◌};
ghost use Rattle.table.specs.Table.{table_of};
ghost use Rattle.spec_util.specs.Ended.{is_parent, is_sibling, is_ended_by, is_ended_strictly, is_ended_in};

use crate::ids::has_id;
use table::check::only_ids;
use table::lookup::{get_path_by_id, is_typed, look_up};
use table::parts::{path_length, same_path};

/// Whether `test_id` is a parent of `current_id`.
#[tactic(auto, using(table::proofs::Entries::path_of_lem), unfolding(crate::specs::Ended::is_parent))]
pub fn is_parent(entries: &[u64], parts: &[u64], current_id: u64, test_id: u64) -> bool
    ensures { result ≡ is_parent (table_of entries.now parts.now) current_id test_id }
{
    has_id(parts, test_id, get_path_by_id(entries, parts, current_id))
}

/// Whether the two have the same direct parent. Another instance of the current element counts as a sibling.
#[tactic(auto, using(table::proofs::Entries::path_of_lem), unfolding(crate::specs::Ended::is_sibling))]
pub fn is_sibling(entries: &[u64], parts: &[u64], current_id: u64, test_id: u64) -> bool
    ensures { result ≡ is_sibling (table_of entries.now parts.now) current_id test_id }
{
    same_path(
        parts,
        get_path_by_id(entries, parts, current_id),
        get_path_by_id(entries, parts, test_id),
    )
}

/// Whether `test_id` ends the master `current_id` of Unknown size. One look-up for each of the two.
pub fn is_ended_by(entries: &[u64], parts: &[u64], current_id: u64, test_id: u64) -> bool
    ensures { result ≡ is_ended_by (table_of entries.now parts.now) current_id test_id }
{
    let current = get_path_by_id(entries, parts, current_id);
    if has_id(parts, test_id, current) {
        return true;
    }
    let test = look_up(entries, parts, test_id);
    let depth = path_length(parts, test.path);
    same_path(parts, current, test.path) || depth == 0 && is_typed(test.kind)
}

/// The same strictly: `test_id` has a type, and no Global in its path.
pub fn is_ended_strictly(entries: &[u64], parts: &[u64], current_id: u64, test_id: u64) -> bool
    ensures { result ≡ is_ended_strictly (table_of entries.now parts.now) current_id test_id }
{
    let test = look_up(entries, parts, test_id);
    is_typed(test.kind)
        && only_ids(parts, test.path)
        && is_ended_by(entries, parts, current_id, test_id)
}

/// Strictly or as ported: two rules, which are named apart, and the setting picks one here.
#[tactic(auto, unfolding(crate::specs::Ended::is_ended_in))]
pub fn is_ended_in(
    strict: bool,
    entries: &[u64],
    parts: &[u64],
    current_id: u64,
    test_id: u64,
) -> bool
    ensures { result ≡ is_ended_in strict (table_of entries.now parts.now) current_id test_id }
{
    if strict {
        return is_ended_strictly(entries, parts, current_id, test_id);
    }
    is_ended_by(entries, parts, current_id, test_id)
}
