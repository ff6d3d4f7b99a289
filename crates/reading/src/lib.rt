//! Standard input, read until there is something to say of it. No contract can say which bytes a read of it gives: the
//! work on them is in functions on slices. And the arguments that the programs share, and how they tell that they failed.
#![tactic(auto)]

pub mod arguments;
pub mod telling;

ghost use Rattle.std.specs.Prelude.{◌≢◌, ◌≤◌, ◌<◌, ◌≡◌, length, take, IfOk, IfErr, OnErr, IsFalse};
ghost use Rattle.std.specs.Io.KnownBytes.{Consumes, IsAtEnd, Keeps};
ghost use Rattle.std.specs.IoError.{error_kind};

use std::io;
use std::io::{ErrorKind, Read};
use std::rt::Clock;
use std::time::Duration;

// A pause is a thousandth of a second, in nanoseconds.
const PAUSE: u64 = 1_000_000;

// A pause; a signal does not cut it short.
fn pause<C: Clock>(clock: &C) {
    clock.sleep(Duration::from_nanos(PAUSE));
}

// Whether a read that failed with this error is made again: one that a signal interrupted, at once, and one of an input
// that has nothing yet, after a pause.
fn is_made_again<C: Clock>(clock: &C, error: &io::Error) -> bool
    ensures interrupted { IsFalse result → error_kind error.now ≢ ErrorKind.Interrupted }
    ensures not_ready { IsFalse result → error_kind error.now ≢ ErrorKind.WouldBlock }
{
    match error.kind() {
        ErrorKind::Interrupted => true,
        ErrorKind::WouldBlock => {
            pause(clock);
            true
        }
        _ => false,
    }
}

// What is answered after more reads than any run makes.
fn too_many_reads() -> io::Error
    ensures interrupted { error_kind result ≢ ErrorKind.Interrupted }
    ensures not_ready { error_kind result ≢ ErrorKind.WouldBlock }
{
    io::Error::from(ErrorKind::TimedOut)
}

/// One read of an input, made again until it was not interrupted and the input had something to give or had ended: how
/// many bytes it put at the front of the lent ones, 0 at the end of input, or why it cannot be read. Of an input whose
/// bytes are known, they are the next ones, and no read that is made again loses any. Nothing says that an input comes, so
/// there is an end to the reads, `TimedOut`, after more than any run makes.
pub fn read_input<R: Read, C: Clock>(
    input: &mut R,
    clock: &C,
    space: &mut [u8],
) -> io::Result<usize>
    ensures moved { IfOk result (λ n. n ≤ length space.old) }
    ensures given { IfOk result (λ n. Consumes (R.remaining input.old) (R.remaining input.new) (take n space.new)) }
    ensures end { IfOk result (λ n. n ≡ 0 → 0 < length space.old → IsAtEnd (R.remaining input.new)) }
    ensures kept { OnErr result (Keeps (R.remaining input.old) (R.remaining input.new)) }
    ensures interrupted { IfErr result (λ e. error_kind e ≢ ErrorKind.Interrupted) }
    ensures not_ready { IfErr result (λ e. error_kind e ≢ ErrorKind.WouldBlock) }
{
    for _ in 0..u64::MAX {
        match input.read(space) {
            Ok(got) => return Ok(got),
            Err(error) => {
                if !is_made_again(clock, &error) {
                    return Err(error);
                }
            }
        }
    }
    Err(too_many_reads())
}
