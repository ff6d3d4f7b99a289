//! The IDs in a path. Helpers of this crate alone.

ghost use Rattle.std.specs.Prelude.{◌≡◌};
ghost use Rattle.table.specs.Table.{parts_of, parts_in};
ghost use Rattle.spec_util.specs.Ended.{is_id_of, has_id};

use table::parts::{path_length, path_part};
use table::types::{Path, PathPart};

/// Whether a part is this ID.
#[tactic(auto, unfolding(crate::specs::Ended::is_id_of))]
pub fn is_id_of(id: u64, part: PathPart) -> bool
    ensures { result ≡ is_id_of id part }
{
    matches!(part, PathPart::Id(x) if x == id)
}

/// Whether the ID stands in a range of parts.
pub fn has_id(parts: &[u64], id: u64, path: Path) -> bool
    ensures { result ≡ has_id id (parts_in (parts_of parts.now) path) }
{
    (0..path_length(parts, path)).any(|i| is_id_of(id, path_part(parts, path, i)))
}
