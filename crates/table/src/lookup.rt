//! What the table says of an ID: `get_tag_data_type` and `get_path_by_id` of the Rust's TSpec. The first entry with an
//! ID counts.

ghost use Rattle.std.specs.Prelude.{◌≡◌};
ghost use Rattle.table.specs.Table.{is_master, is_typed, table_of, spec_for, data_type_of, range_of};

use crate::entry::{first_with, spec_at};
use crate::types::{Path, Spec, TagDataType};

/// Type and path of an ID at once.
#[tactic(auto, using(crate::proofs::Entries::for_first))]
pub fn look_up(entries: &[u64], parts: &[u64], id: u64) -> Spec
    ensures { result ≡ spec_for (table_of entries.now parts.now) id }
{
    let first = first_with(entries, id, entries.len() / 4);
    spec_at(entries, parts, first)
}

/// The type of an ID.
pub fn get_tag_data_type(entries: &[u64], parts: &[u64], id: u64) -> TagDataType
    ensures { result ≡ data_type_of (table_of entries.now parts.now) id }
{
    look_up(entries, parts, id).kind
}

/// The range of the path's parts: what stands in it is the path.
pub fn get_path_by_id(entries: &[u64], parts: &[u64], id: u64) -> Path
    ensures { result ≡ range_of (table_of entries.now parts.now) id }
{
    look_up(entries, parts, id).path
}

/// Whether a type is Master.
#[tactic(auto, unfolding(crate::specs::Table::is_master))]
pub fn is_master(kind: TagDataType) -> bool
    ensures { result ≡ is_master kind }
{
    matches!(kind, TagDataType::Master)
}

/// Whether there is a type.
#[tactic(auto, unfolding(crate::specs::Table::is_typed))]
pub fn is_typed(kind: TagDataType) -> bool
    ensures { result ≡ is_typed kind }
{
    !matches!(kind, TagDataType::Untyped)
}
