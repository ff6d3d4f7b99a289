//! Answers the script of calls on standard input, a line for a call, on standard output.
#![tactic(auto)]

use std::io;

fn main(rt: HostRuntime) -> io::Result<()> {
    script::run::answer_stdin(&rt)
}
