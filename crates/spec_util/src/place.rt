//! `validate_tag_path` of spec_util.rs over lent words, as ported and strictly.

ghost use Rattle.std.specs.Prelude.{true, not, List, reverse, ◌≡◌, ◌-◌, ◌≤◌, length};
ghost use Rattle.basics.specs.Lists.{every};
ghost use Rattle.table.specs.Table.{table_of, parts_of, parts_in};
ghost use Rattle.spec_util.specs.Walk.{unknown_and_ended, ended_tops, masters_shown, Shown, place_along, validate_tag_path};
ghost use Rattle.spec_util.specs.declared.types.OpenTag.{OpenTag};

use crate::walk::{least_of, unknown_and_ended, walk_along};
use table::lookup::get_path_by_id;
use table::types::Path;

/// How many of the first `count` open masters stay open before the ID: those at the top close that it ends.
pub fn left_open(
    strict: bool,
    entries: &[u64],
    parts: &[u64],
    id: u64,
    ids: &[u64],
    knowns: &[bool],
    count: usize,
) -> usize
    requires { (count ≤ length ids.now) × (count ≤ length knowns.now) }
    ensures { (l : List OpenTag) → Shown ids.now knowns.now count l → result ≡ count - ended_tops strict (table_of entries.now parts.now) id (reverse l) }
{
    // Counted down: `rposition` answers the place below which they stay only after a `map_or`, which is no plainer.
    let mut n = count;
    while 0 < n && unknown_and_ended(strict, entries, parts, knowns[n - 1], ids[n - 1], id) {
        n -= 1;
    }
    n
}

// Whether, strictly, the ID ends none of the first `count` open masters.
fn ends_none(
    entries: &[u64],
    parts: &[u64],
    id: u64,
    ids: &[u64],
    knowns: &[bool],
    count: usize,
) -> bool
    requires { (count ≤ length ids.now) × (count ≤ length knowns.now) }
    ensures { result ≡ every (λ m. not (unknown_and_ended true (table_of entries.now parts.now) m.known m.id id)) (masters_shown ids.now knowns.now count) }
{
    (0..count).all(|i| !unknown_and_ended(true, entries, parts, knowns[i], ids[i], id))
}

/// Whether an ID with this path may stand in the first `n` open masters, outermost first: their IDs, and whether their
/// sizes are known. What lies past the lent words is not there.
pub fn place_along(
    strict: bool,
    entries: &[u64],
    parts: &[u64],
    path: Path,
    id: u64,
    ids: &[u64],
    knowns: &[bool],
    n: usize,
) -> bool
    ensures { result ≡ place_along strict (table_of entries.now parts.now) (parts_in (parts_of parts.now) path) id (masters_shown ids.now knowns.now n) }
{
    if !strict {
        return walk_along(false, entries, parts, path, id, ids, knowns, n);
    }
    let count = least_of(n, ids.len(), knowns.len());
    let kept = left_open(true, entries, parts, id, ids, knowns, count);
    ends_none(entries, parts, id, ids, knowns, kept)
        && walk_along(true, entries, parts, path, id, ids, knowns, kept)
}

/// Whether `tag_id` may stand in the first `count` open masters, as `place_along` takes them: its path is looked up
/// here.
pub fn validate_tag_path(
    strict: bool,
    entries: &[u64],
    parts: &[u64],
    tag_id: u64,
    ids: &[u64],
    knowns: &[bool],
    count: usize,
) -> bool
    ensures { result ≡ validate_tag_path strict (table_of entries.now parts.now) tag_id (masters_shown ids.now knowns.now count) }
{
    let path = get_path_by_id(entries, parts, tag_id);
    place_along(strict, entries, parts, path, tag_id, ids, knowns, count)
}
