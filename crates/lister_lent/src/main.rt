//! Lists three short inputs as the event lister does, with the record lent by reference at each call: a session with one
//! feed, the same with no sizes, and the first cut inside the feed.
#![tactic(auto)]

ghost use Rattle.std.specs.Prelude.{◌≤◌, length};

mod turn;

use crate::turn::{Turned, turn, turn_eof};
use decoder_rules::types::{Answer, Refusal, TagDecoder};
use event_list::lines::{MOST_LINE, put_line};
use std::io;
use std::io::ErrorKind;
use std::ops::ControlFlow;
use std::rt::HostRuntime;
use table::bench::{entries, parts};
use tag_decoder::settings::new;

// No list here has so many lines.
const MOST_TURNS: usize = 64;

// The bytes that are not read yet; `ended` once a call has had no event for them.
#[derive(Clone, Copy)]
struct Progress<'a> {
    state: TagDecoder,
    unread: &'a [u8],
    ended: bool,
}

// One line of the list. Where whoever read the list has gone, the program ends with that error.
fn print(rt: &HostRuntime, answer: Result<Answer, Refusal>, place: u64) -> io::Result<()> {
    let mut text = [0u8; MOST_LINE];
    let n = put_line(answer, place, &mut text);
    if let Err(error) = rt.write_all(&text[..n]) {
        if error.kind() == ErrorKind::BrokenPipe {
            return Err(error);
        }
        let _ = rt.eprintln("lister_lent: the list cannot be written");
    }
    Ok(())
}

// The call that is due, on a lent record.
#[tactic(auto, using(crate::proofs::Within::turn_within, crate::proofs::Within::eof_within))]
fn call(ended: bool, d: TagDecoder, unread: &[u8]) -> Turned
    ensures { result.reply.taken ≤ length unread.now }
{
    let table = entries();
    let paths = parts();
    if ended {
        turn_eof(d, &table, &paths, unread)
    } else {
        turn(d, &table, &paths, unread)
    }
}

// One call, and what is to be done after it.
fn step(rt: &HostRuntime, p: &mut Progress<'_>) -> io::Result<ControlFlow<()>> {
    let t = call(p.ended, p.state, p.unread);
    p.state = t.state;
    p.unread = &p.unread[t.reply.taken..];
    match t.reply.answer {
        Ok(Answer::Event(_)) => {
            print(rt, t.reply.answer, t.place)?;
            Ok(ControlFlow::Continue(()))
        }
        Ok(Answer::NeedMore { .. }) if !p.ended => {
            p.ended = true;
            Ok(ControlFlow::Continue(()))
        }
        Ok(Answer::NeedMore { .. }) => Ok(ControlFlow::Break(())),
        Ok(Answer::Finished) | Err(_) => {
            print(rt, t.reply.answer, t.place)?;
            Ok(ControlFlow::Break(()))
        }
    }
}

// The list of a whole input.
fn list(rt: &HostRuntime, input: &[u8]) -> io::Result<()> {
    let mut p = Progress {
        state: new(),
        unread: input,
        ended: false,
    };
    for _ in 0..MOST_TURNS {
        if step(rt, &mut p)?.is_break() {
            break;
        }
    }
    Ok(())
}

fn main(rt: HostRuntime) -> io::Result<()> {
    let d1 = [
        0x4E, 0x01, 0x89, 0xA1, 0x87, 0xA2, 0x81, 0x78, 0xA3, 0x82, 0x6D, 0x6C,
    ];
    let d2 = [0x4E, 0x01, 0xFF, 0xA1, 0xFF, 0xA2, 0x81, 0x78];
    list(&rt, &d1)?;
    list(&rt, &d2)?;
    list(&rt, &d1[..8])
}
