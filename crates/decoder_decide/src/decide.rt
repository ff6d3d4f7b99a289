//! The steps together, from the last to the first.

ghost use Rattle.std.specs.Prelude.{true, ◌≡◌, ◌≤◌, length};
ghost use Rattle.table.specs.Table.{table_of, parts_of, parts_in};
ghost use Rattle.decoder_rules.specs.Record.{implied, settled_to};
ghost use Rattle.decoder_rules.specs.OneCall.{good_form};
ghost use Rattle.decoder_rules.specs.Deciding.{plain, steps8_11, steps6_11, decide};
ghost use Rattle.decoder_look.specs.Summary.{ForEveryRecordSeenAs, ForEveryRecordSummedUpAs};
ghost use Rattle.decoder_decide.specs.GoodViews.{GoodView, SoundSummary, GoodHeader, is_id_allowed, id_refusal, settled_view, ForSettled};
ghost use Rattle.table.specs.Shape.{most_parts, good_shape};
ghost use Rattle.spec_util.specs.Walk.{most_open};

use crate::checks::check_11_to_13;
use crate::closing::close_or_fault;
use crate::element::step11;
use crate::header::{settling_note, valid_header};
use decoder_look::summary::{HeaderView, Summary, UNBOUNDED};
use decoder_rules::types::{Action, Decision, DecodeError};
use spec_util::place::left_open;
use spec_util::types::MOST_OPEN;
use table::lookup::is_typed;
use table::parts::{path_length, path_part};
use table::shape::good_shape;
use table::types::{Path, PathPart};
use tag_parse::header::read_header;
use tag_parse::types::TagHeader;
use tools::element_id::element_id_length;
use tools::status::Status;

// The bytes of the least header: one of its ID, one of its size.
const LEAST_HEADER: usize = 2;

// An ID that is taken strictly has so many bytes at most.
const LONGEST_STRICT_ID: usize = 4;

// A decision with no note.
fn plain(action: Result<Action, DecodeError>) -> Decision
    ensures { result ≡ plain action }
{
    Decision { note: None, action }
}

// Whether the ID has a form that is taken, strictly or as ported.
#[tactic(auto, unfolding(decoder_rules::specs::OneCall::good_form))]
fn good_form(strict: bool, id: u64) -> bool
    ensures { result ≡ good_form strict id }
{
    !strict || element_id_length(id) <= LONGEST_STRICT_ID
}

/// 6: the ID's form is taken, and it has a type, or needs none.
pub fn is_id_allowed(strict: bool, allow_ids: bool, h: TagHeader) -> bool
    ensures { result ≡ is_id_allowed strict allow_ids h }
{
    good_form(strict, h.id) && (is_typed(h.kind) || allow_ids)
}

// What is refused where 6 refuses an ID: 80 for its form, else 15.
fn id_refusal(strict: bool, id: u64) -> DecodeError
    ensures { result ≡ id_refusal strict id }
{
    if good_form(strict, id) {
        DecodeError::InvalidTagId
    } else {
        DecodeError::InvalidIdForm
    }
}

// 8 to 11, of a record that has its note.
fn steps8_11(
    entries: &[u64],
    parts: &[u64],
    view: HeaderView,
    ids: &[u64],
    knowns: &[bool],
    h: TagHeader,
    input: &[u8],
) -> Result<Action, DecodeError>
    requires ids_len { (length ids.now ≡ most_open) × (length knowns.now ≡ most_open) }
    requires good_view { GoodView view × GoodHeader entries.now parts.now h }
    ensures { ForEveryRecordSeenAs view ids.now knowns.now (λ d. result ≡ steps8_11 (table_of entries.now parts.now) d h input.now) }
{
    let count = view.count;
    valid_header(entries, parts, view, ids, knowns, h)?;
    let strict = view.settings.strict;
    let kept = left_open(strict, entries, parts, h.id, ids, knowns, count);
    if kept < count {
        return close_or_fault(entries, parts, ids, kept, count);
    }
    step11(strict, count, view.position, h, input)
}

// The ID that a part of a path names.
fn implied_id(part: PathPart) -> u64
    ensures { result ≡ (implied part).id }
{
    match part {
        PathPart::Id(id) => id,
        PathPart::Global { .. } => 0,
    }
}

// What is seen of the record once it has settled to a path: so many masters, none of known size.
fn settled_view(view: HeaderView, count: usize) -> HeaderView
    ensures { result ≡ settled_view view count }
{
    HeaderView {
        settled: true,
        count,
        least_end: UNBOUNDED,
        ..view
    }
}

// 8 to 11 where the call settles to a path.
fn settling(
    entries: &[u64],
    parts: &[u64],
    view: HeaderView,
    path: Path,
    h: TagHeader,
    input: &[u8],
) -> Result<Action, DecodeError>
    requires { GoodView view × GoodHeader entries.now parts.now h × (length (parts_in (parts_of parts.now) path) ≤ most_parts) }
    ensures { ForSettled view (λ d. result ≡ steps8_11 (table_of entries.now parts.now) (settled_to d (parts_in (parts_of parts.now) path)) h input.now) }
{
    let count = path_length(parts, path);
    let knowns = [false; MOST_OPEN];
    let mut ids = [0u64; MOST_OPEN];
    for i in 0..count {
        ids[i] = implied_id(path_part(parts, path, i));
    }
    let noted = settled_view(view, count);
    steps8_11(entries, parts, noted, &ids, &knowns, h, input)
}

// 6 to 11: the refusal of 6, else the note, and the steps after it on the record with it.
fn steps6_11(
    entries: &[u64],
    parts: &[u64],
    view: HeaderView,
    ids: &[u64],
    knowns: &[bool],
    h: TagHeader,
    input: &[u8],
) -> Decision
    requires ids_len { (length ids.now ≡ most_open) × (length knowns.now ≡ most_open) }
    requires good_view { GoodView view × GoodHeader entries.now parts.now h }
    ensures { ForEveryRecordSeenAs view ids.now knowns.now (λ d. result ≡ steps6_11 parts.now (table_of entries.now parts.now) d h input.now) }
{
    let strict = view.settings.strict;
    if !is_id_allowed(strict, view.settings.allow_ids, h) {
        return plain(Err(id_refusal(strict, h.id)));
    }
    let note = settling_note(parts, view.settled, h);
    if let Some(path) = note {
        return Decision {
            note,
            action: settling(entries, parts, view, path, h, input),
        };
    }
    plain(steps8_11(entries, parts, view, ids, knowns, h, input))
}

/// What a call does with a table of good shape (10): the steps in their order, on what was seen of the record.
pub fn decide_shaped(
    entries: &[u64],
    parts: &[u64],
    summary: Summary,
    ids: &[u64],
    knowns: &[bool],
    input: &[u8],
) -> Decision
    requires ids_len { (length ids.now ≡ most_open) × (length knowns.now ≡ most_open) × SoundSummary summary }
    requires parts_value { good_shape entries.now parts.now ≡ true }
    ensures { ForEveryRecordSummedUpAs summary ids.now knowns.now (λ d. result ≡ decide entries.now parts.now d input.now) }
{
    let view = summary.view;
    let count = view.count;
    let n = input.len();
    if let Err(e) = check_11_to_13(summary.is_state_good, view.position, summary.finished, n) {
        return plain(Err(e));
    }
    if 0 < summary.waiting_count {
        return plain(Ok(Action::HandOut));
    }
    if summary.finished {
        return plain(Ok(Action::Finish));
    }
    if summary.first_full < count {
        return plain(close_or_fault(entries, parts, ids, summary.first_full, count));
    }
    if n == 0 {
        return plain(Ok(Action::NeedMore {
            missing: LEAST_HEADER,
        }));
    }
    match read_header(entries, parts, input) {
        Ok(Status::NeedMore { missing }) => plain(Ok(Action::NeedMore { missing })),
        Err(e) => plain(Err(e.into())),
        Ok(Status::Complete(h)) => steps6_11(entries, parts, view, ids, knowns, h, input),
    }
}

/// What a call does: 10, and then the other steps.
pub fn decide(
    entries: &[u64],
    parts: &[u64],
    summary: Summary,
    ids: &[u64],
    knowns: &[bool],
    input: &[u8],
) -> Decision
    requires { (length ids.now ≡ most_open) × (length knowns.now ≡ most_open) × SoundSummary summary }
    ensures { ForEveryRecordSummedUpAs summary ids.now knowns.now (λ d. result ≡ decide entries.now parts.now d input.now) }
{
    if !good_shape(entries, parts) {
        return plain(Err(DecodeError::TableShape));
    }
    decide_shaped(entries, parts, summary, ids, knowns, input)
}
