//! The same as `replay`, over the vectors in `stdin`; what RFC 8794, IEEE 754 and the requirements answer to them
//! stands in `stdout`.
#![tactic(auto)]

use std::io;

fn main(rt: HostRuntime) -> io::Result<()> {
    script::run::answer_stdin(&rt)
}
