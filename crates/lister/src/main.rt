//! The event lister: reads a record on standard input and prints its list, with the bench table. It only reads, calls
//! and writes: what it prints and what it does with its buffer is proved in event_list and named_list.
//!
//! With no argument it prints the plain list, a line for each event and one that says how it ended. With one, `plain` or
//! `names`, it prints that list or the one for people, and its exit status tells how the list ended, as a digit's number.
//! A second argument, `ported` or `strict`, says how the record is read; without it, as ported.
#![tactic(auto)]

mod arguments;
mod status;

ghost use Rattle.std.specs.Prelude.{◌≤◌};

use arguments::{List, Wanted, what_is_wanted};
use decoder_rules::types::{Answer, Refusal};
use event_list::lines::{MOST_LINE, put_line};
use event_list::listing::{after_read, call_once, move_unread_to_front, start};
use event_list::types::{Listing, Next};
use named_list::lines::put_named_line;
use named_list::seen::{nothing_seen, seen_after};
use named_list::types::Seen;
use reading::arguments::Mode;
use reading::read_input;
use reading::telling::{fail, has_no_reader};
use status::{Status, status_of, tell};
use std::ops::ControlFlow;
use std::process::ExitCode;
use std::rt::HostRuntime;
use tag_decoder::settings::position;

// The bytes of the read buffer: no larger element is listed.
const BUFFER_SIZE: usize = 4096;

// The bytes of a line for people: MOST_NAMED of named_list, and four for each byte of the buffer.
const NAMED_SIZE: usize = 16640;

// What is kept from step to step.
#[derive(Clone, Copy)]
struct Kept {
    listing: Listing,
    seen: Seen,
}

// A line is written, or the list breaks off. Where whoever read the list has gone, no word is said.
fn write_line(rt: &HostRuntime, line: &[u8]) -> ControlFlow<Status> {
    match rt.write_all(line) {
        Ok(()) => ControlFlow::Continue(()),
        Err(error) => {
            if !has_no_reader(&error) {
                let _ = rt.eprintln("lister: the list cannot be written");
            }
            ControlFlow::Break(Status::Broken)
        }
    }
}

// The line of the plain list.
fn print_plain(
    rt: &HostRuntime,
    answer: Result<Answer, Refusal>,
    listing: Listing,
) -> ControlFlow<Status> {
    let mut text = [0u8; MOST_LINE];
    let n = put_line(answer, position(listing.decoder), &mut text);
    write_line(rt, &text[..n])
}

// The line for people, after what was seen before it, with the bytes of the buffer that were taken.
fn print_named(
    rt: &HostRuntime,
    buffer: &[u8],
    answer: Result<Answer, Refusal>,
    kept: &Kept,
) -> ControlFlow<Status> {
    let mut text = [0u8; NAMED_SIZE];
    let from = kept.listing.from.min(buffer.len());
    let n = put_named_line(
        answer,
        kept.listing.decoder,
        kept.seen,
        &buffer[..from],
        &mut text,
    );
    write_line(rt, &text[..n])
}

// The line of an answer.
fn print(
    rt: &HostRuntime,
    list: List,
    buffer: &[u8],
    answer: Result<Answer, Refusal>,
    kept: &Kept,
) -> ControlFlow<Status> {
    match list {
        List::Plain => print_plain(rt, answer, kept.listing),
        List::Names => print_named(rt, buffer, answer, kept),
    }
}

// The unread bytes move to the front, and the buffer is filled behind them.
fn read_more(rt: &HostRuntime, buffer: &mut [u8], listing: &mut Listing) -> ControlFlow<Status> {
    let moved = move_unread_to_front(buffer, *listing);
    match read_input(&mut rt.stdin(), rt, &mut buffer[moved.upto..]) {
        Ok(got) => {
            *listing = after_read(buffer.len(), moved, got as isize);
            ControlFlow::Continue(())
        }
        Err(error) => {
            fail(rt, "lister: the input cannot be read", &error);
            ControlFlow::Break(Status::Broken)
        }
    }
}

// One call of the decoder, and what is to be done after it.
fn step(rt: &HostRuntime, list: List, buffer: &mut [u8], kept: &mut Kept) -> ControlFlow<Status> {
    let t = call_once(buffer, kept.listing);
    kept.listing = t.listing;
    match t.next {
        Next::Line => {
            print(rt, list, buffer, t.answer, kept)?;
            kept.seen = seen_after(t.answer, t.listing.decoder, kept.seen);
            ControlFlow::Continue(())
        }
        Next::Last => {
            print(rt, list, buffer, t.answer, kept)?;
            ControlFlow::Break(status_of(t.answer))
        }
        Next::Read => read_more(rt, buffer, &mut kept.listing),
    }
}

// The list, and its status. Nothing says that an input ends: the steps are counted, to a number that no run uses up.
fn print_list(rt: &HostRuntime, wanted: Wanted, buffer: &mut [u8]) -> Status {
    let mut kept = Kept {
        listing: start(wanted.mode == Mode::Strict),
        seen: nothing_seen(),
    };
    for _ in 0..u64::MAX {
        if let ControlFlow::Break(status) = step(rt, wanted.list, buffer, &mut kept) {
            return status;
        }
    }
    Status::Broken
}

// The list of standard input.
fn main(rt: HostRuntime) -> ExitCode {
    let mut buffer = [0u8; BUFFER_SIZE];
    let status = match what_is_wanted(&rt) {
        Ok(wanted) => print_list(&rt, wanted, &mut buffer),
        Err(unknown) => {
            let _ = eprintln!(&rt; "lister: {unknown}");
            Status::Broken
        }
    };
    tell(&rt, status)
}
