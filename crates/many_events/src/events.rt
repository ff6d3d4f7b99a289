//! An event as 8 words, and those words at a place of the lent list.

ghost use Rattle.std.specs.Prelude.{[], ◌∷◌, ◌≡◌, ℕ, ◌+◌, ◌≤◌, length};
ghost use Rattle.std.proofs.lemmas.List.Edits.{sets};
ghost use Rattle.tools.specs.Twos.{bits_of};
ghost use Rattle.decoder_rules.specs.declared.types.TagDecoder.{TagDecoder};
ghost use Rattle.many_events.specs.Events.{event_size, is_innermost, start_words, value_words, end_words, event_words, in_order};

use crate::types::EVENT_WORDS;
use decoder_rules::types::{Event, WaitingEnd};
use spec_util::types::OpenTag;
use tag_parse::types::TagValue;

/// The 8 words of an event.
#[derive(Clone, Copy, Debug, PartialEq, Eq)]
pub struct EventWords {
    pub kind: u64,
    pub id: u64,
    pub offset: u64,
    pub value: u64,
    pub end: u64,
    pub count: u64,
    pub size: u64,
    pub known: u64,
}

// The 64 bits of a signed number.
fn bits64(val: i64) -> u64
    ensures { result ≡ bits_of 64 val }
{
    if val < 0 {
        0xffff_ffff_ffff_ffff - (!val) as u64
    } else {
        val as u64
    }
}

// An event of this kind whose last three words are 0.
fn front_words(kind: u64, id: u64, offset: u64, value: u64, end: u64) -> EventWords
    ensures { in_order result ≡ kind ∷ id ∷ offset ∷ value ∷ end ∷ 0 ∷ 0 ∷ 0 ∷ [] }
{
    EventWords {
        kind,
        id,
        offset,
        value,
        end,
        count: 0,
        size: 0,
        known: 0,
    }
}

/// A Start with the size of its master.
#[tactic(auto, unfolding(crate::specs::Events::start_words))]
pub fn start_words(id: u64, offset: u64, m: OpenTag) -> EventWords
    ensures { in_order result ≡ start_words id offset m }
{
    if m.known {
        return EventWords {
            kind: 0,
            id,
            offset,
            value: 0,
            end: 0,
            count: 0,
            size: m.size,
            known: 1,
        };
    }
    front_words(0, id, offset, 0, 0)
}

/// An End with the count of its children.
pub fn end_words(e: WaitingEnd) -> EventWords
    ensures { in_order result ≡ end_words e }
{
    EventWords {
        kind: 6,
        id: e.id,
        offset: e.offset,
        value: 0,
        end: 0,
        count: e.count,
        size: 0,
        known: 0,
    }
}

/// A value.
#[tactic(auto, unfolding(crate::specs::Events::value_words))]
pub fn value_words(id: u64, offset: u64, value: TagValue) -> EventWords
    ensures { in_order result ≡ value_words id offset value }
{
    match value {
        TagValue::UnsignedInt(n) => front_words(1, id, offset, n, 0),
        TagValue::Integer(n) => front_words(2, id, offset, bits64(n), 0),
        TagValue::Utf8(r) => front_words(3, id, offset, r.begin, r.end),
        TagValue::Binary(r) => front_words(4, id, offset, r.begin, r.end),
        TagValue::Float(bits) => front_words(5, id, offset, bits, 0),
        TagValue::Raw(r) => front_words(7, id, offset, r.begin, r.end),
    }
}

// An event; m is the innermost open master after a Start.
#[tactic(auto, unfolding(crate::specs::Events::event_words, crate::specs::Events::is_innermost))]
fn event_words(m: OpenTag, e: Event) -> EventWords
    ensures { (d : TagDecoder) → is_innermost d e m → in_order result ≡ event_words d e }
{
    match e {
        Event::Start { id, offset } => start_words(id, offset, m),
        Event::End(end) => end_words(end),
        Event::Data { id, offset, value } => value_words(id, offset, value),
    }
}

/// These words in a row, from this place on.
pub fn put(events: &mut [u64], at: usize, w: EventWords)
    requires { at + event_size ≤ length events.old }
    ensures { events.new ≡ sets events.old at (in_order w) }
{
    events[at..at + EVENT_WORDS].copy_from_slice(&[
        w.kind, w.id, w.offset, w.value, w.end, w.count, w.size, w.known,
    ]);
}

/// The words of an event, from this place on; m is the innermost open master after a Start.
pub fn put_event(events: &mut [u64], at: usize, m: OpenTag, e: Event)
    requires { at + event_size ≤ length events.old }
    ensures { (d : TagDecoder) → is_innermost d e m → events.new ≡ sets events.old at (event_words d e) }
{
    put(events, at, event_words(m, e));
}
