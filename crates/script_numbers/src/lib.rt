//! The number calls of a script, and their C form.
#![tactic(auto)]

ghost use Rattle.std.specs.Prelude.{◌≡◌, OnErr};

mod calls;
mod gateway;
mod numbers;

use script_text::answers::{BadLine, Line};
use script_text::words::split_once;

/// Answers one line; nothing is written where it is no call.
pub fn answer(line: &[u8], out: &mut Line) -> Result<(), BadLine>
    ensures { OnErr result (out.new ≡ out.old) }
{
    match split_once(line, b' ') {
        Some((b"g", call)) => gateway::answer(call, out),
        _ => numbers::answer(line, out),
    }
}
