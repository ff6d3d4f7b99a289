//! Step 1: the refusals 10 to 13.

ghost use Rattle.std.specs.Prelude.{◌≡◌, ◌+◌, ◌^◌, leb};
ghost use Rattle.decoder_rules.specs.OneCall.{and_then, check10to12, check13};
ghost use Rattle.decoder_rules.specs.Record.{farthest};
ghost use Rattle.decoder_decide.specs.Parts.{check11to12};

use decoder_rules::types::{DecodeError, FARTHEST};
use table::shape::good_shape;

// Whether n bytes from a position on end at 2^62 or before.
fn in_reach(position: u64, n: usize) -> bool
    ensures { result ≡ leb (position + n) farthest }
{
    position <= FARTHEST && n as u64 <= FARTHEST - position
}

// 11 and 12, with n bytes lent; `good` is the test of the state, which decoder_look has made.
fn check_11_to_12(good: bool, position: u64, n: usize) -> Result<(), DecodeError>
    ensures { result ≡ check11to12 good position n }
{
    if !good {
        return Err(DecodeError::BadState);
    }
    if !in_reach(position, n) {
        return Err(DecodeError::TooFar);
    }
    Ok(())
}

/// 10, 11 and 12, likewise.
pub fn check_10_to_12(
    entries: &[u64],
    parts: &[u64],
    good: bool,
    position: u64,
    n: usize,
) -> Result<(), DecodeError>
    ensures { result ≡ check10to12 entries.now parts.now good position n }
{
    if !good_shape(entries, parts) {
        return Err(DecodeError::TableShape);
    }
    check_11_to_12(good, position, n)
}

/// 13, of the record's one field that it reads, with n bytes lent.
#[tactic(auto, unfolding(decoder_rules::specs::OneCall::check13))]
pub fn check_13(finished: bool, n: usize) -> Result<(), DecodeError>
    ensures { result ≡ check13 finished n }
{
    if finished && 0 < n {
        return Err(DecodeError::AfterFinish);
    }
    Ok(())
}

/// Step 1 without 10, where the state was found good or not, and of the record's fields that it reads.
pub fn check_11_to_13(
    good: bool,
    position: u64,
    finished: bool,
    n: usize,
) -> Result<(), DecodeError>
    ensures { result ≡ and_then (check11to12 good position n) (check13 finished n) }
{
    check_11_to_12(good, position, n)?;
    check_13(finished, n)
}
