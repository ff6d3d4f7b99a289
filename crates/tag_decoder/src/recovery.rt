//! `try_recover`: the search for the next valid header.

ghost use Rattle.std.specs.Prelude.{◌≡◌, true, ◌+◌, ◌≤◌, length};
ghost use Rattle.table.specs.Shape.{good_shape};
ghost use Rattle.table.specs.Table.{table_of};
ghost use Rattle.decoder_rules.specs.OneCall.{good_state};
ghost use Rattle.decoder_rules.specs.Recovery.{try_recover, end_of_search, ending};
ghost use Rattle.decoder_rules.specs.Record.{farthest};
ghost use Rattle.tag_decoder.specs.Passing.{may_end, NextPlace};

use decoder_decide::decide::is_id_allowed;
use decoder_decide::header::settling_note;
use decoder_decide::whole::{check_record_10_to_12, valid_header_of};
use decoder_move::moves::{settled_to, with_sizes_grown};
use decoder_rules::types::{Place, PlaceResult, Recovered, Refusal, Search, TagDecoder};
use tag_parse::header::read_header;
use tag_parse::types::{ParseError, TagHeader};
use tools::status::Status;

// Whether what was read as a header may end the search: where it is not whole, or passes step 6.
fn may_end(strict: bool, allow_ids: bool, read: Result<Status<TagHeader>, ParseError>) -> bool
    ensures { result ≡ may_end strict allow_ids read }
{
    match read {
        Ok(Status::NeedMore { .. }) => true,
        Err(_) => false,
        Ok(Status::Complete(h)) => is_id_allowed(strict, allow_ids, h),
    }
}

// The first place from this one on where the search may end; past the last byte, where there is none. The places before
// it are passed over without a look at the record.
fn next_place(
    entries: &[u64],
    parts: &[u64],
    strict: bool,
    allow_ids: bool,
    input: &[u8],
    from: usize,
) -> usize
    requires { from ≤ length input.now }
    ensures { NextPlace (table_of entries.now parts.now) strict allow_ids input.now from result }
{
    let n = input.len();
    for i in from..n {
        let read = read_header(entries, parts, &input[i..]);
        if may_end(strict, allow_ids, read) {
            return i;
        }
    }
    n
}

// The place where the search ends. The record stays where it is: its position is set and its note made in place, and
// only where a header may end the search.
// Two arms have one body, since of an or-pattern or a `let` with `else` the proof learns nothing; and a pattern asks for
// `Ok`, not `is_ok`, since the laws of the search take what was answered.
fn end_of_search(entries: &[u64], parts: &[u64], d: TagDecoder, input: &[u8]) -> PlaceResult
    requires { (good_state d ≡ true) × (good_shape entries.now parts.now ≡ true) × (d.position + length input.now ≤ farthest) }
    ensures { result ≡ end_of_search parts.now (table_of entries.now parts.now) d input.now }
{
    let n = input.len();
    let start = d.position;
    let strict = d.settings.strict;
    let allow_ids = d.settings.allow_ids;
    let mut e = d;
    let mut i = next_place(entries, parts, strict, allow_ids, input, 0);
    // No `for`: `next_place` passes over as many places as it can.
    while i < n {
        e.position = start + i as u64;
        let h = match read_header(entries, parts, &input[i..]) {
            Ok(Status::Complete(h)) => h,
            Ok(Status::NeedMore { .. }) => {
                return PlaceResult {
                    place: Place::Stop,
                    state: e,
                };
            }
            Err(_) => {
                return PlaceResult {
                    place: Place::Stop,
                    state: e,
                };
            }
        };
        if let Some(path) = settling_note(parts, e.settled, h) {
            e = settled_to(e, parts, path);
        }
        if let Ok(()) = valid_header_of(entries, parts, e, h) {
            return PlaceResult {
                place: Place::Found,
                state: e,
            };
        }
        i = next_place(entries, parts, strict, allow_ids, input, i + 1);
    }
    e.position = start + n as u64;
    PlaceResult {
        place: Place::Stop,
        state: e,
    }
}

// How many bytes were passed over, and the record; its sizes grow by them where a header was found, and only there.
fn ending(start: u64, p: PlaceResult) -> Recovered
    requires { (good_state p.state ≡ true) × (start ≤ p.state.position) }
    ensures { result ≡ ending start p }
{
    let place = p.place;
    let end = p.state;
    let passed = end.position - start;
    if let Place::Found = place {
        return Recovered {
            answer: Ok(Search::Found {
                passed: passed as usize,
            }),
            taken: passed as usize,
            state: with_sizes_grown(end, passed),
        };
    }
    Recovered {
        answer: Ok(Search::NotFound {
            passed: passed as usize,
        }),
        taken: passed as usize,
        state: end,
    }
}

/// The next valid header is looked for, at this place and then byte by byte.
pub fn try_recover(entries: &[u64], parts: &[u64], d: TagDecoder, input: &[u8]) -> Recovered
    ensures { result ≡ try_recover entries.now parts.now d input.now }
{
    let position = d.position;
    match check_record_10_to_12(entries, parts, d, input.len()) {
        Ok(()) => ending(position, end_of_search(entries, parts, d, input)),
        Err(error) => Recovered {
            answer: Err(Refusal {
                error,
                place: position,
            }),
            taken: 0,
            state: d,
        },
    }
}
