//! Steps 7 to 9: what the record, as it was seen, says of a header.

ghost use Rattle.std.specs.Prelude.{◌≡◌, ◌+◌, ◌≤◌, ◌<◌, length};
ghost use Rattle.table.specs.Table.{table_of, parts_of, parts_in, path_of};
ghost use Rattle.decoder_rules.specs.OneCall.{step8, fits_inside, step9, valid_header};
ghost use Rattle.decoder_look.specs.Summary.{unbounded, ForEveryRecordSeenAs};
ghost use Rattle.decoder_decide.specs.Parts.{known_size, does_settle, settling_note, is_walked, size_checked};
ghost use Rattle.spec_util.specs.Walk.{most_open};
ghost use Rattle.decoder_rules.specs.Record.{farthest, size_limit};
ghost use Rattle.decoder_decide.specs.Bounds.{longest_header};
ghost use Rattle.decoder_decide.specs.GoodViews.{ForSettled};
ghost use Rattle.tag_parse.specs.declared.types.EBMLSize.TheVariants.{Known, Unknown};

use decoder_look::summary::HeaderView;
use decoder_rules::types::DecodeError;
use spec_util::place::place_along;
use table::check::only_ids;
use table::lookup::is_typed;
use table::types::{Path, TagDataType};
use tag_parse::types::{EBMLSize, TagHeader};

/// Step 7's test, of the record's one field that it reads; the path stands at the range in the header.
pub fn does_settle(parts: &[u64], settled: bool, h: TagHeader) -> bool
    ensures { result ≡ does_settle parts.now settled h }
{
    !settled && is_typed(h.kind) && only_ids(parts, h.path)
}

/// Step 7's note, of the record's one field that it reads.
pub fn settling_note(parts: &[u64], settled: bool, h: TagHeader) -> Option<Path>
    ensures { result ≡ settling_note parts.now settled h }
{
    does_settle(parts, settled, h).then_some(h.path)
}

// Whether step 8 goes along the path.
#[tactic(auto, unfolding(crate::specs::Parts::is_walked))]
fn is_walked(kind: TagDataType, settled: bool, allowed: bool) -> bool
    ensures { result ≡ is_walked kind settled allowed }
{
    settled && !allowed && is_typed(kind)
}

// 8: the path is walked, or need not be.
fn step8(
    entries: &[u64],
    parts: &[u64],
    view: HeaderView,
    ids: &[u64],
    knowns: &[bool],
    h: TagHeader,
) -> bool
    requires count_in_bounds { (view.count ≤ length ids.now) × (view.count ≤ length knowns.now) × (view.count ≤ most_open) }
    requires path_value { parts_in (parts_of parts.now) h.path ≡ path_of (table_of entries.now parts.now) h.id }
    ensures { ForEveryRecordSeenAs view ids.now knowns.now (λ d. result ≡ step8 (table_of entries.now parts.now) d h) }
{
    let strict = view.settings.strict;
    !is_walked(h.kind, view.settled, view.settings.allow_hierarchy)
        || place_along(
            strict, entries, parts, h.path, h.id, ids, knowns, view.count,
        )
}

// Whether n bytes from the position on end inside every open master of known size, or need not: the least end stands
// for all.
fn fits_inside(view: HeaderView, n: u64) -> bool
    requires { view.position + n ≤ unbounded }
    ensures { ForSettled view (λ d. result ≡ fits_inside d n) }
{
    view.settings.allow_oversized || view.position + n <= view.least_end
}

// 81, of a header of `len` bytes with an Unknown size.
fn unknown_checked(view: HeaderView, len: usize) -> Result<(), DecodeError>
    requires { (view.position ≤ farthest) × (len ≤ longest_header) }
    ensures { ForSettled view (λ d. result ≡ step9 d len Unknown) }
{
    let is_tested = view.settings.strict;
    if is_tested && !fits_inside(view, len as u64) {
        return Err(DecodeError::UnknownSizePastEnd);
    }
    Ok(())
}

// 17, of a size that fits.
#[tactic(auto, unfolding(crate::specs::Parts::size_checked))]
fn size_checked(given: bool, greatest: u64, n: u64) -> Result<(), DecodeError>
    ensures { result ≡ size_checked given greatest n }
{
    if given && greatest < n {
        return Err(DecodeError::InvalidTagSize);
    }
    Ok(())
}

// 18, then 17, of a header of `len` bytes with a known size.
fn known_checked(view: HeaderView, len: usize, n: u64) -> Result<(), DecodeError>
    requires { (view.position ≤ farthest) × (len ≤ longest_header) × (n < size_limit) }
    ensures { ForSettled view (λ d. result ≡ step9 d len (Known n)) }
{
    if !fits_inside(view, len as u64 + n) {
        return Err(DecodeError::OversizedChildElement);
    }
    size_checked(view.settings.max_given, view.settings.max_size, n)
}

/// 8, then 9.
pub fn valid_header(
    entries: &[u64],
    parts: &[u64],
    view: HeaderView,
    ids: &[u64],
    knowns: &[bool],
    h: TagHeader,
) -> Result<(), DecodeError>
    requires count_in_bounds { (view.count ≤ length ids.now) × (view.count ≤ length knowns.now) × (view.count ≤ most_open) }
    requires position_le_farthest { (view.position ≤ farthest) × (h.len ≤ longest_header) × (known_size h.size < size_limit) }
    requires path_value { parts_in (parts_of parts.now) h.path ≡ path_of (table_of entries.now parts.now) h.id }
    ensures { ForEveryRecordSeenAs view ids.now knowns.now (λ d. result ≡ valid_header (table_of entries.now parts.now) d h) }
{
    let size = h.size;
    if !step8(entries, parts, view, ids, knowns, h) {
        return Err(DecodeError::HierarchyError);
    }
    match size {
        EBMLSize::Unknown => unknown_checked(view, h.len),
        EBMLSize::Known(n) => known_checked(view, h.len, n),
    }
}
