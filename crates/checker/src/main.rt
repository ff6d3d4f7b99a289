//! The check of a night: reads a record on standard input and says in one line whether it is whole, with the bench
//! table. It only reads, calls and writes: the answers that it goes by and what it does with its buffer are proved in
//! event_list, and the verdict in whole. With no argument the record is read as ported; one, `ported` or `strict`, says
//! how it is read. Where the input cannot be read, the line cannot be written or there is no such mode, it says so on
//! standard error, and there is no line.
#![tactic(auto)]

use event_list::listing::{after_read, call_once, move_unread_to_front, start};
use event_list::types::{Listing, Next};
use reading::arguments::{Mode, mode_at};
use reading::read_input;
use reading::telling::{fail, has_no_reader};
use std::io;
use std::ops::ControlFlow;
use std::rt::HostRuntime;
use whole::check::{seen_after, verdict_at};
use whole::line::{MOST_LINE, put_verdict};
use whole::types::{Seen, Verdict};

// The bytes of the read buffer, 1 MiB: no larger element is read.
const BUFFER_SIZE: usize = 1_048_576;

// What is kept from step to step.
#[derive(Clone, Copy)]
struct Kept {
    listing: Listing,
    seen: Seen,
}

// The verdict's line. Where whoever read it has gone, the program ends with that error.
fn say(rt: &HostRuntime, v: Verdict) -> io::Result<()> {
    let mut text = [0u8; MOST_LINE];
    let n = put_verdict(v, &mut text);
    if let Err(error) = rt.write_all(&text[..n]) {
        if has_no_reader(&error) {
            return Err(error);
        }
        let _ = rt.eprintln("ebml-check: the verdict cannot be written");
    }
    Ok(())
}

// The unread bytes move to the front, and the buffer is filled behind them; the check ends where no more can be read.
fn read_more(rt: &HostRuntime, buffer: &mut [u8], listing: &mut Listing) -> ControlFlow<()> {
    let moved = move_unread_to_front(buffer, *listing);
    match read_input(&mut rt.stdin(), rt, &mut buffer[moved.upto..]) {
        Ok(got) => {
            *listing = after_read(buffer.len(), moved, got as isize);
            ControlFlow::Continue(())
        }
        Err(error) => {
            fail(rt, "ebml-check: the input cannot be read", &error);
            ControlFlow::Break(())
        }
    }
}

// One call of the decoder, and what is to be done after it.
fn step(rt: &HostRuntime, buffer: &mut [u8], kept: &mut Kept) -> io::Result<ControlFlow<()>> {
    let t = call_once(buffer, kept.listing);
    kept.listing = t.listing;
    match t.next {
        Next::Line => {
            kept.seen = seen_after(kept.seen, t.answer, t.listing.decoder);
            Ok(ControlFlow::Continue(()))
        }
        Next::Last => {
            say(rt, verdict_at(kept.seen, t.answer, t.listing.decoder))?;
            Ok(ControlFlow::Break(()))
        }
        Next::Read => Ok(read_more(rt, buffer, &mut kept.listing)),
    }
}

// Nothing says that an input ends: the steps are counted, to a number that no run uses up.
fn check(rt: &HostRuntime, mode: Mode, buffer: &mut [u8]) -> io::Result<()> {
    let mut kept = Kept {
        listing: start(mode == Mode::Strict),
        seen: whole::check::start(),
    };
    for _ in 0..u64::MAX {
        if step(rt, buffer, &mut kept)?.is_break() {
            break;
        }
    }
    Ok(())
}

// The verdict on standard input, read in this mode.
fn check_input(rt: &HostRuntime, mode: Mode) -> io::Result<()> {
    let mut buffer = [0u8; BUFFER_SIZE];
    check(rt, mode, &mut buffer)
}

// The same in the mode that the argument names.
fn main(rt: HostRuntime) -> io::Result<()> {
    match mode_at(&rt, 1) {
        Some(mode) => check_input(&rt, mode),
        None => {
            let _ = rt.eprintln("ebml-check: the mode is ported or strict");
            Ok(())
        }
    }
}
