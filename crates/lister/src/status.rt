//! The exit status of a list, as a digit.

ghost use Rattle.std.specs.Prelude.{◌≡◌};
ghost use Rattle.lister.specs.Status.{status_of, digit_of};

use decoder_rules::types::{Answer, Refusal};
use reading::arguments::is_given;
use std::process::ExitCode;
use std::rt::HostRuntime;

/// How a list ended, as the digit that tells it.
#[derive(Clone, Copy, Debug, PartialEq, Eq)]
pub enum Status {
    /// With the finish.
    Finished = 48,
    /// With a refusal, or with an element that is larger than the buffer.
    Refused = 49,
    /// Without a last line.
    Broken = 50,
}

/// The status of a list that ends with an answer.
pub fn status_of(answer: Result<Answer, Refusal>) -> Status
    ensures { digit_of result ≡ status_of answer }
{
    match answer {
        Ok(Answer::Event(_)) => Status::Broken,
        Ok(Answer::NeedMore { .. }) => Status::Refused,
        Ok(Answer::Finished) => Status::Finished,
        Err(_) => Status::Refused,
    }
}

// The digit of a status.
fn digit_of(status: Status) -> u8
    ensures { result ≡ digit_of status }
{
    status as u8
}

/// The exit status that tells a status to whoever asked for it, by an argument: the digit's own number, which no program
/// has that did not start or that broke off. 0 where nobody asked.
pub fn tell(rt: &HostRuntime, status: Status) -> ExitCode {
    if is_given(rt, 1) {
        ExitCode::from(digit_of(status))
    } else {
        ExitCode::SUCCESS
    }
}
