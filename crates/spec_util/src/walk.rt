//! The path walk of spec_util.rs over lent words, and its steps.

ghost use Rattle.std.specs.Prelude.{false, not, ◌&&◌, ◌≡◌, ◌-◌, ◌^◌, min, ◌<◌, length};
ghost use Rattle.table.specs.Table.{table_of, parts_of, parts_in};
ghost use Rattle.table.specs.declared.types.PathPart.TheVariants.{Global};
ghost use Rattle.spec_util.specs.Walk.{most_open, over_max, under_min, is_id_at, walk_global, walk_global_strictly, walk_at, walk_part, counted_of, unknown_and_ended, walk_master, min_met, walk_end, walk_from, masters_shown};

use crate::ended::is_ended_in;
use crate::ids::is_id_of;
use crate::types::{MOST_OPEN, Walk};
use table::parts::{path_length, path_part};
use table::types::{Path, PathPart};

// Whether a count is over a bound.
#[tactic(auto, unfolding(crate::specs::Walk::over_max))]
fn over_max(n: u64, max: Option<u64>) -> bool
    ensures { result ≡ over_max n max }
{
    max.is_some_and(|most| most < n)
}

// Whether a count is below a bound.
#[tactic(auto, unfolding(crate::specs::Walk::under_min))]
fn under_min(n: u64, min: Option<u64>) -> bool
    ensures { result ≡ under_min n min }
{
    min.is_some_and(|least| n < least)
}

// Whether part i of a path is there, and is this ID.
#[tactic(auto, unfolding(crate::specs::Walk::is_id_at))]
fn is_id_at(parts: &[u64], path: Path, i: usize, id: u64) -> bool
    ensures { result ≡ is_id_at (parts_in (parts_of parts.now) path) i id }
{
    i < path_length(parts, path) && is_id_of(id, path_part(parts, path, i))
}

// A master at a Global; n counts it.
fn walk_global(
    parts: &[u64],
    path: Path,
    master_id: u64,
    marker: usize,
    n: u64,
    least: Option<u64>,
    most: Option<u64>,
) -> Walk
    requires { marker < length (parts_in (parts_of parts.now) path) }
    ensures { result ≡ walk_global (parts_in (parts_of parts.now) path) master_id marker n least most }
{
    if over_max(n, most) {
        return Walk::Refuse;
    }
    if !is_id_at(parts, path, marker + 1, master_id) {
        return Walk::On { marker, counter: n };
    }
    if under_min(n, least) {
        return Walk::Refuse;
    }
    Walk::On {
        marker: marker + 2,
        counter: 0,
    }
}

// A master at a Global, strictly; n does not count it.
fn walk_global_strictly(
    parts: &[u64],
    path: Path,
    master_id: u64,
    marker: usize,
    n: u64,
    least: Option<u64>,
    most: Option<u64>,
) -> Walk
    requires { (marker < length (parts_in (parts_of parts.now) path)) × (n < 2 ^ 64 - 1) }
    ensures { result ≡ walk_global_strictly (parts_in (parts_of parts.now) path) master_id marker n least most }
{
    if is_id_at(parts, path, marker + 1, master_id) {
        if under_min(n, least) {
            return Walk::Refuse;
        }
        return Walk::On {
            marker: marker + 2,
            counter: 0,
        };
    }
    if over_max(n + 1, most) {
        return Walk::Refuse;
    }
    Walk::On {
        marker,
        counter: n + 1,
    }
}

// A master at a Global, strictly or as ported; the counter does not count it.
#[tactic(auto, unfolding(crate::specs::Walk::walk_at))]
fn walk_global_in(
    strict: bool,
    parts: &[u64],
    path: Path,
    master_id: u64,
    marker: usize,
    counter: u64,
    least: Option<u64>,
    most: Option<u64>,
) -> Walk
    requires { (marker < length (parts_in (parts_of parts.now) path)) × (counter < 2 ^ 64 - 1) }
    ensures { result ≡ walk_at strict (parts_in (parts_of parts.now) path) (Global least most) master_id marker counter }
{
    if strict {
        return walk_global_strictly(parts, path, master_id, marker, counter, least, most);
    }
    walk_global(parts, path, master_id, marker, counter + 1, least, most)
}

// A master in the walk, where the new ID does not end it.
fn walk_part(
    strict: bool,
    parts: &[u64],
    path: Path,
    master_id: u64,
    marker: usize,
    counter: u64,
) -> Walk
    requires { counter < 2 ^ 64 - 1 }
    ensures { result ≡ walk_part strict (parts_in (parts_of parts.now) path) master_id marker counter }
{
    if path_length(parts, path) <= marker {
        return Walk::Refuse;
    }
    match path_part(parts, path, marker) {
        PathPart::Id(id) if id == master_id => Walk::On {
            marker: marker + 1,
            counter,
        },
        PathPart::Id(_) => Walk::Refuse,
        PathPart::Global { min, max } => walk_global_in(
            strict, parts, path, master_id, marker, counter, min, max,
        ),
    }
}

// A counter that can count one more.
fn counted(counter: u64) -> u64
    ensures { (result ≡ counted_of counter) × (result < 2 ^ 64 - 1) }
{
    counter.min(u64::MAX - 1)
}

/// Whether a master has an Unknown size and the new ID ends it.
#[tactic(auto, unfolding(crate::specs::Walk::unknown_and_ended))]
pub fn unknown_and_ended(
    strict: bool,
    entries: &[u64],
    parts: &[u64],
    known: bool,
    master_id: u64,
    tag_id: u64,
) -> bool
    ensures { result ≡ unknown_and_ended strict (table_of entries.now parts.now) known master_id tag_id }
{
    !known && is_ended_in(strict, entries, parts, master_id, tag_id)
}

// Whether the walk accepts at a master at once: never, strictly.
fn accepts_at_once(
    strict: bool,
    entries: &[u64],
    parts: &[u64],
    known: bool,
    master_id: u64,
    tag_id: u64,
) -> bool
    ensures { result ≡ (not strict && unknown_and_ended false (table_of entries.now parts.now) known master_id tag_id) }
{
    !strict && unknown_and_ended(false, entries, parts, known, master_id, tag_id)
}

/// One open master in the walk of `tag_id` along its path. A counter of 2^64 - 1, which no walk reaches, is taken as
/// one less.
#[tactic(auto, unfolding(crate::specs::Walk::walk_master))]
pub fn walk_master(
    strict: bool,
    entries: &[u64],
    parts: &[u64],
    path: Path,
    tag_id: u64,
    master_id: u64,
    known: bool,
    marker: usize,
    counter: u64,
) -> Walk
    ensures { result ≡ walk_master strict (table_of entries.now parts.now) (parts_in (parts_of parts.now) path) tag_id master_id known marker (counted_of counter) }
{
    if accepts_at_once(strict, entries, parts, known, master_id, tag_id) {
        return Walk::Accept;
    }
    walk_part(strict, parts, path, master_id, marker, counted(counter))
}

// Whether the walk may end at this last part: a Global whose min is met.
#[tactic(auto, unfolding(crate::specs::Walk::min_met))]
fn min_met(part: PathPart, counter: u64) -> bool
    ensures { result ≡ min_met part counter }
{
    match part {
        PathPart::Id(_) => false,
        PathPart::Global { min, .. } => !under_min(counter, min),
    }
}

/// Whether the walk may end here.
#[tactic(auto, unfolding(crate::specs::Walk::walk_end))]
pub fn walk_end(parts: &[u64], path: Path, marker: usize, counter: u64) -> bool
    ensures { result ≡ walk_end (parts_in (parts_of parts.now) path) marker counter }
{
    let count = path_length(parts, path);
    if count <= marker {
        return marker == count;
    }
    marker + 1 == count && min_met(path_part(parts, path, marker), counter)
}

/// A record has places for 32 masters.
pub fn at_most_32(count: usize) -> usize
    ensures { result ≡ min count most_open }
{
    count.min(MOST_OPEN)
}

/// The least of a count and two lengths.
pub fn least_of(count: usize, ids: usize, knowns: usize) -> usize
    ensures { result ≡ min count (min ids knowns) }
{
    count.min(ids.min(knowns))
}

/// The walk of `id` along a path that is at hand, over the first `n` open masters, outermost first: their IDs, and
/// whether their sizes are known. What lies past the lent words is not there.
pub fn walk_along(
    strict: bool,
    entries: &[u64],
    parts: &[u64],
    path: Path,
    id: u64,
    ids: &[u64],
    knowns: &[bool],
    n: usize,
) -> bool
    ensures { result ≡ walk_from strict (table_of entries.now parts.now) (parts_in (parts_of parts.now) path) id 0 0 (masters_shown ids.now knowns.now n) }
{
    let count = least_of(n, ids.len(), knowns.len());
    let mut marker: usize = 0;
    let mut counter: u64 = 0;
    for i in 0..count {
        match walk_master(
            strict, entries, parts, path, id, ids[i], knowns[i], marker, counter,
        ) {
            Walk::Accept => {
                return true;
            }
            Walk::Refuse => {
                return false;
            }
            Walk::On {
                marker: next,
                counter: so_far,
            } => {
                marker = next;
                counter = so_far;
            }
        }
    }
    walk_end(parts, path, marker, counter)
}
