//! What the tests of a call ask of the record, from one pass over its open masters. They work on this and on lent
//! words, since a record that goes through a call is copied.

ghost use Rattle.std.specs.Prelude.{cond, ◌&&◌, ◌≡◌, min, leb, length};
ghost use Rattle.basics.specs.Lists.{every};
ghost use Rattle.decoder_rules.specs.Record.{farthest, opens, waits};
ghost use Rattle.decoder_rules.specs.OneCall.{good_open, good_end, is_full};
ghost use Rattle.spec_util.specs.Walk.{most_open};
ghost use Rattle.decoder_look.specs.Summary.{shown_end, summary_with, ShownInFront};

use crate::places::is_full;
use decoder_rules::types::{FARTHEST, SIZE_LIMIT, Settings, TagDecoder};
use spec_util::types::{MOST_OPEN, OpenTag};
use spec_util::walk::at_most_32;

/// What is shown as an end where none bounds.
pub const UNBOUNDED: u64 = 0xffff_ffff_ffff_ffff;

/// What steps 6 to 11 ask: settings, place, how many masters are open and the least of their ends.
#[derive(Clone, Copy)]
pub struct HeaderView {
    pub settings: Settings,
    pub position: u64,
    pub settled: bool,
    pub count: usize,
    pub least_end: u64,
}

/// What steps 1 to 3 ask besides: whether the state is good, and how many masters stand below the outermost that is
/// full. What was seen is told of a bad state too, so that the flag is no Option round the rest.
#[derive(Clone, Copy)]
pub struct Summary {
    pub is_state_good: bool,
    pub finished: bool,
    pub waiting_count: usize,
    pub first_full: usize,
    pub view: HeaderView,
}

// What refusal 11 asks of an open master. No sum that could wrap is made.
#[tactic(auto, unfolding(decoder_rules::specs::OneCall::good_open))]
fn good_open(position: u64, m: OpenTag) -> bool
    ensures { result ≡ good_open position m }
{
    m.data_start <= position
        && m.count <= position
        && (!m.known || m.size < SIZE_LIMIT || m.size - SIZE_LIMIT <= position)
}

// The same of a master and of those above it, which were found good or not.
fn good_with(sound: bool, position: u64, m: OpenTag) -> bool
    ensures { result ≡ (good_open position m && sound) }
{
    good_open(position, m) && sound
}

/// What refusal 11 asks of every End that waits: no count beyond the position. It stands apart from `summarize`, so
/// that a call on a record without one makes no copy for it.
pub fn good_ends(d: TagDecoder) -> bool
    ensures { result ≡ every (good_end d.position) (waits d) }
{
    let position = d.position;
    let n = at_most_32(d.waiting_count);
    d.waiting[..n].iter().all(|end| end.count <= position)
}

// What refusal 11 asks in all, where the masters were found good or not, and so the Ends.
fn is_state_good(position: u64, open: usize, waiting: usize, sound: bool, ends: bool) -> bool
    ensures { result ≡ (leb «open» most_open && leb waiting most_open && leb position farthest && (sound && ends)) }
{
    open <= MOST_OPEN && waiting <= MOST_OPEN && position <= FARTHEST && sound && ends
}

// The index of the outermost full master, where i is that of one more, below those looked at.
fn first_full_with(done: usize, i: usize, position: u64, m: OpenTag) -> usize
    ensures { result ≡ cond (is_full position m) i done }
{
    if is_full(position, m) { i } else { done }
}

// Where a master ends: the greatest number where its size is not known, and for an end beyond.
#[tactic(auto, unfolding(crate::specs::Summary::shown_end))]
fn shown_end(m: OpenTag) -> u64
    ensures { result ≡ shown_end m }
{
    if m.known {
        m.data_start.saturating_add(m.size)
    } else {
        UNBOUNDED
    }
}

// The least end, with one more master.
fn least_end_with(least: u64, m: OpenTag) -> u64
    ensures { result ≡ min (shown_end m) least }
{
    shown_end(m).min(least)
}

/// What the tests of a call ask of the record, whose waiting Ends were found good or not, with its open masters in
/// front of the lent words, which stay as they were past them. It goes from the top down, so that the last that is
/// found full is the outermost.
pub fn summarize(d: TagDecoder, ends: bool, ids: &mut [u64], knowns: &mut [bool]) -> Summary
    requires { (length ids.old ≡ most_open) × (length knowns.old ≡ most_open) }
    ensures { (result ≡ summary_with ends d) × ShownInFront ids.old ids.new knowns.old knowns.new (min d.open_count most_open) (opens d) }
{
    let position = d.position;
    let mut sound = true;
    let mut first_full = at_most_32(d.open_count);
    let mut least_end: u64 = UNBOUNDED;
    let mut i = first_full;
    while 0 < i {
        i -= 1;
        let m = d.open[i];
        ids[i] = m.id;
        knowns[i] = m.known;
        sound = good_with(sound, position, m);
        first_full = first_full_with(first_full, i, position, m);
        least_end = least_end_with(least_end, m);
    }
    let settings = d.settings;
    let view = HeaderView {
        settings,
        position,
        settled: d.settled,
        count: d.open_count,
        least_end,
    };
    Summary {
        is_state_good: is_state_good(position, d.open_count, d.waiting_count, sound, ends),
        finished: d.finished,
        waiting_count: d.waiting_count,
        first_full,
        view,
    }
}
