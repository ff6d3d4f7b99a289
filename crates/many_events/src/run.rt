//! Calls in a row on one stretch of bytes.

ghost use Rattle.std.specs.Prelude.{◌≡◌};
ghost use Rattle.tools.specs.Answers.{Gives};
ghost use Rattle.many_events.specs.Many.{one_call, many_events};
ghost use Rattle.many_events.specs.Turns.{ended};

use crate::events::put_event;
use crate::quick::pass_over;
use crate::types::{EVENT_WORDS, Ran, Stop};
use decoder_move::answers::top_place;
use decoder_rules::types::{Answer, Decoded, Refusal, TagDecoder};
use tag_decoder::calls::{decode, decode_eof};

// One call: at the end of input or before it.
fn one_call(eof: bool, entries: &[u64], parts: &[u64], d: TagDecoder, input: &[u8]) -> Decoded
    ensures { result ≡ one_call eof entries.now parts.now d input.now }
{
    if eof {
        return decode_eof(entries, parts, d, input);
    }
    decode(entries, parts, d, input)
}

// The answer: so many events and bytes, why it stops, and the record.
fn ran(count: usize, taken: usize, stop: Result<Stop, Refusal>, state: TagDecoder) -> Ran
    ensures { result ≡ ended count taken stop state }
{
    Ran {
        count,
        taken,
        stop,
        state,
    }
}

/// As many events as the lent list has room for, 8 words each, by calls in a row: at the end of input or before it. What
/// stands in the list past them stays. Only the events that `pass_over` leaves are answered by calls.
pub fn run(
    eof: bool,
    entries: &[u64],
    parts: &[u64],
    mut d: TagDecoder,
    input: &[u8],
    events: &mut [u64],
) -> Ran
    ensures { Gives result events.new (many_events eof entries.now parts.now d input.now events.old) }
{
    let room = events.len() / EVENT_WORDS;
    let mut n: usize = 0;
    let mut at: usize = 0;
    // No `for`: `pass_over` makes as many events at a turn as it can.
    while n < room {
        let passed = pass_over(entries, parts, d, input, at, events, n);
        n = passed.count;
        at = passed.taken;
        d = passed.state;
        if room <= n {
            return ran(n, at, Ok(Stop::Full), d);
        }
        let r = one_call(eof, entries, parts, d, &input[at..]);
        let answer = r.answer;
        d = r.state;
        let e = match answer {
            Ok(Answer::Event(e)) => e,
            Ok(Answer::NeedMore { missing }) => {
                return ran(n, at, Ok(Stop::NeedMore { missing }), d);
            }
            Ok(Answer::Finished) => return ran(n, at, Ok(Stop::Finished), d),
            Err(refusal) => return ran(n, at, Err(refusal), d),
        };
        put_event(events, EVENT_WORDS * n, d.open[top_place(d.open_count)], e);
        at += r.taken;
        n += 1;
    }
    ran(n, at, Ok(Stop::Full), d)
}
