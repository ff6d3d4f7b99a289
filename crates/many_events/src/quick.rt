//! Events that are made without a call, on what was seen of the record, which stays where it is.

ghost use Rattle.std.specs.Prelude.{◌&&◌, ◌≡◌, ◌≤◌, leb, length};
ghost use Rattle.table.specs.Shape.{good_shape};
ghost use Rattle.many_events.specs.Turns.{quick_action, quick_of, seen_as, PassesOver};

use crate::events::{end_words, put, start_words, value_words};
use crate::types::EVENT_WORDS;
use decoder_decide::decide::decide_shaped;
use decoder_look::summary::{HeaderView, Summary, summarize};
use decoder_move::answers::top_place;
use decoder_move::moves::{closed_to, end_for, master_at, with_child};
use decoder_rules::types::{Action, Decision, DecodeError, TagDecoder};
use spec_util::types::{MOST_OPEN, no_tag};
use table::shape::good_shape;
use tag_parse::types::{EBMLSize, TagValue};

/// An event that is made without a call.
#[derive(Clone, Copy)]
pub enum Quick {
    Data {
        id: u64,
        value: TagValue,
        taken: usize,
    },
    Start {
        id: u64,
        size: EBMLSize,
        len: usize,
    },
    // the masters above the first so many close
    End(usize),
}

/// How many events and bytes there are then, and the record.
#[derive(Clone, Copy)]
pub struct Passed {
    pub count: usize,
    pub taken: usize,
    pub state: TagDecoder,
}

// What is made of an action with no note: Data or a Start, which takes a byte at least, or an End.
fn quick_action(action: Result<Action, DecodeError>) -> Option<Quick>
    ensures { result ≡ quick_action action }
{
    match action {
        Err(_) => None,
        Ok(Action::NeedMore { .. }) => None,
        Ok(Action::Finish) => None,
        Ok(Action::HandOut) => None,
        Ok(Action::Close(below)) => Some(Quick::End(below)),
        Ok(Action::Start { id, size, len }) => {
            if 0 < len {
                Some(Quick::Start { id, size, len })
            } else {
                None
            }
        }
        Ok(Action::Data { id, value, taken }) => {
            if 0 < taken {
                Some(Quick::Data { id, value, taken })
            } else {
                None
            }
        }
    }
}

// What is made of a decision on a record that was found good or not.
#[tactic(auto, unfolding(crate::specs::Turns::quick_of))]
fn quick_of(good: bool, decision: Decision) -> Option<Quick>
    ensures { result ≡ quick_of good decision }
{
    let Decision { note, action } = decision;
    if !good {
        return None;
    }
    match note {
        None => quick_action(action),
        Some(_) => None,
    }
}

// What was seen of a good record, where it is still good, at this position, with so many masters, the outermost of
// them that is full, and the least of their ends.
fn seen_as(k: Summary, position: u64, count: usize, first_full: usize, least_end: u64) -> Summary
    ensures { result ≡ seen_as k position count first_full least_end }
{
    let view = k.view;
    let settings = view.settings;
    Summary {
        is_state_good: true,
        finished: k.finished,
        waiting_count: k.waiting_count,
        first_full,
        view: HeaderView {
            settings,
            position,
            settled: view.settled,
            count,
            least_end,
        },
    }
}

// The answer: so many events and bytes, and the record.
fn passed_to(count: usize, taken: usize, state: TagDecoder) -> Passed
    ensures { result ≡ record { count = count; taken = taken; state = state } }
{
    Passed {
        count,
        taken,
        state,
    }
}

// Whether events may be made without a call at all: no End waits, and the table has its shape (10), which is tested
// here once for all of them.
fn may_begin(entries: &[u64], parts: &[u64], waiting_count: usize) -> bool
    ensures { result ≡ (leb waiting_count 0 && good_shape entries.now parts.now) }
{
    waiting_count == 0 && good_shape(entries, parts)
}

// Whether an End empties one place and no more: the record was found clean, so that every place past its masters and
// past the Ends that wait is empty, and of its masters only the top one closes.
fn pops_one(clean: bool, below: usize, top: usize) -> bool
    ensures { result ≡ (clean && leb top below) }
{
    clean && top <= below
}

/// The events from the n-th on that are made without a call, at bytes having been taken before them: up to one that
/// needs a call, to an End after which others wait, or to the last that there is room for. The first End empties every
/// place past the masters, so that after it an End of one master empties one. `around` is the least end of the masters
/// around the top one, or 0 where it was not seen: before it the top master alone ends, and no other is looked at. What
/// an event does to the record stands here and not in functions of its own: a record cannot be lent by `&mut`, and one
/// that goes through a call is copied.
pub fn pass_over(
    entries: &[u64],
    parts: &[u64],
    mut d: TagDecoder,
    input: &[u8],
    mut at: usize,
    events: &mut [u64],
    mut n: usize,
) -> Passed
    requires { at ≤ length input.now }
    ensures { PassesOver entries.now parts.now input.now events.old events.new d n at result }
{
    let room = events.len() / EVENT_WORDS;
    let mut ids = [0u64; MOST_OPEN];
    let mut knowns = [false; MOST_OPEN];
    if !may_begin(entries, parts, d.waiting_count) {
        return passed_to(n, at, d);
    }
    let mut k = summarize(d, true, &mut ids, &mut knowns);
    let mut clean = false;
    let mut around: u64 = 0;
    // No `for`: a turn ends the loop, or makes an event of its own kind, at the speed that many events a call are for.
    while n < room {
        let position = d.position;
        let count = d.open_count;
        let top = top_place(count);
        let decision = decide_shaped(entries, parts, k, &ids, &knowns, &input[at..]);
        let quick = quick_of(k.is_state_good, decision);
        match quick {
            None => return passed_to(n, at, d),
            Some(Quick::Data { id, value, taken }) => {
                put(events, EVENT_WORDS * n, value_words(id, position, value));
                d.open[top] = with_child(d.open[top], count);
                d.position = position + taken as u64;
                at += taken;
                n += 1;
                if k.view.least_end <= d.position {
                    if d.position < around {
                        k = seen_as(k, d.position, count, top, k.view.least_end);
                    } else {
                        k = summarize(d, true, &mut ids, &mut knowns);
                    }
                } else {
                    k = seen_as(k, d.position, count, count, k.view.least_end);
                }
            }
            Some(Quick::Start { id, size, len }) => {
                let m = master_at(id, size, position, len);
                put(events, EVENT_WORDS * n, start_words(id, position, m));
                d.open[top] = with_child(d.open[top], count);
                d.open[count] = m;
                d.open_count = count + 1;
                d.position = position + len as u64;
                at += len;
                n += 1;
                around = k.view.least_end;
                k = summarize(d, true, &mut ids, &mut knowns);
            }
            Some(Quick::End(below)) => {
                put(events, EVENT_WORDS * n, end_words(end_for(d.open[top])));
                if pops_one(clean, below, top) {
                    let empty = no_tag();
                    d.open[below] = empty;
                    d.open_count = below;
                    n += 1;
                    if position < around {
                        k = seen_as(k, position, below, below, around);
                        around = 0;
                    } else {
                        k = summarize(d, true, &mut ids, &mut knowns);
                        around = 0;
                    }
                } else {
                    d = closed_to(d, below);
                    n += 1;
                    if 0 < d.waiting_count {
                        return passed_to(n, at, d);
                    }
                    clean = true;
                    around = 0;
                    k = summarize(d, true, &mut ids, &mut knowns);
                }
            }
        }
    }
    passed_to(n, at, d)
}
