//! The tests on a whole record, for the calls that make them seldom: each looks at it anew.

ghost use Rattle.std.specs.Prelude.{◌≡◌, ◌≤◌, ◌<◌};
ghost use Rattle.basics.specs.Lists.{every};
ghost use Rattle.table.specs.Table.{table_of, parts_of, parts_in, path_of, data_type_of, is_master};
ghost use Rattle.decoder_rules.specs.Record.{farthest, size_limit, opens};
ghost use Rattle.decoder_rules.specs.OneCall.{check_record10to12, valid_header};
ghost use Rattle.decoder_decide.specs.Parts.{known_size};
ghost use Rattle.spec_util.specs.Walk.{most_open};
ghost use Rattle.decoder_decide.specs.Bounds.{longest_header};

use crate::checks::check_10_to_12;
use crate::closing::all_masters;
use crate::header::valid_header;
use decoder_look::summary::{good_ends, summarize};
use decoder_rules::types::{DecodeError, TagDecoder};
use spec_util::types::MOST_OPEN;
use tag_parse::types::TagHeader;

/// 10, 11 and 12 of a record, with n bytes lent.
pub fn check_record_10_to_12(
    entries: &[u64],
    parts: &[u64],
    d: TagDecoder,
    n: usize,
) -> Result<(), DecodeError>
    ensures { result ≡ check_record10to12 entries.now parts.now d n }
{
    let mut ids = [0u64; MOST_OPEN];
    let mut knowns = [false; MOST_OPEN];
    let ends = d.waiting_count == 0 || good_ends(d);
    let summary = summarize(d, ends, &mut ids, &mut knowns);
    check_10_to_12(entries, parts, summary.is_state_good, d.position, n)
}

/// 8 and 9 for a header, of a record that has its note.
pub fn valid_header_of(
    entries: &[u64],
    parts: &[u64],
    d: TagDecoder,
    h: TagHeader,
) -> Result<(), DecodeError>
    requires open_count_bound { (d.open_count ≤ most_open) × (d.position ≤ farthest) × (h.len ≤ longest_header) × (known_size h.size < size_limit) }
    requires path_value { parts_in (parts_of parts.now) h.path ≡ path_of (table_of entries.now parts.now) h.id }
    ensures { result ≡ valid_header (table_of entries.now parts.now) d h }
{
    let mut ids = [0u64; MOST_OPEN];
    let mut knowns = [false; MOST_OPEN];
    let summary = summarize(d, true, &mut ids, &mut knowns);
    let view = summary.view;
    valid_header(entries, parts, view, &ids, &knowns, h)
}

/// Whether all that are open are Masters of the table.
pub fn all_masters_of(entries: &[u64], parts: &[u64], d: TagDecoder) -> bool
    requires { d.open_count ≤ most_open }
    ensures { result ≡ every (λ m. is_master (data_type_of (table_of entries.now parts.now) m.id)) (opens d) }
{
    let mut ids = [0u64; MOST_OPEN];
    let mut knowns = [false; MOST_OPEN];
    let count = d.open_count;
    let summary = summarize(d, true, &mut ids, &mut knowns);
    all_masters(entries, parts, &ids, 0, count)
}
