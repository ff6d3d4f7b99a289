//! A verdict as numbers, for C.

ghost use Rattle.std.specs.Prelude.{◌≡◌};
ghost use Rattle.whole.specs.Numbers.{numbers_of, verdict_numbers};

use crate::types::{Root, Verdict, VerdictNumbers};

// A verdict's number, its counts, the number of a refusal, a place, and a root where one is named.
fn numbers_with(
    verdict: u64,
    records: u64,
    feeds: u64,
    bytes: u64,
    number: u64,
    place: u64,
    root: Option<Root>,
) -> VerdictNumbers
    ensures { result ≡ numbers_of verdict records feeds bytes number place root }
{
    let mut numbers = VerdictNumbers {
        verdict,
        feeds,
        records,
        bytes,
        number,
        place,
        root_named: 0,
        root_id: 0,
        root_start: 0,
        root_size_named: 0,
        root_size: 0,
    };
    if let Some(Root { id, start, size }) = root {
        numbers.root_named = 1;
        numbers.root_id = id;
        numbers.root_start = start;
        if let Some(n) = size {
            numbers.root_size_named = 1;
            numbers.root_size = n;
        }
    }
    numbers
}

/// The numbers of a verdict.
pub fn numbers_of(v: Verdict) -> VerdictNumbers
    ensures { result ≡ verdict_numbers v }
{
    match v {
        Verdict::Whole { feeds, bytes } => numbers_with(1, 1, feeds, bytes, 0, 0, None),
        Verdict::Empty => numbers_with(2, 0, 0, 0, 0, 0, None),
        Verdict::FrontMissing => numbers_with(3, 0, 0, 0, 0, 0, None),
        Verdict::Refused { number, place } => numbers_with(4, 0, 0, 0, number, place, None),
        Verdict::TooLarge(place) => numbers_with(5, 0, 0, 0, 0, place, None),
        Verdict::Cut { at, root, bytes } => numbers_with(6, 0, 0, bytes, 0, at, root),
        Verdict::CannotTell { id, start } => {
            let root = Root {
                id,
                start,
                size: None,
            };
            numbers_with(7, 0, 0, 0, 0, 0, Some(root))
        }
        Verdict::More {
            records,
            feeds,
            bytes,
        } => numbers_with(8, records, feeds, bytes, 0, 0, None),
        Verdict::NotEnded => numbers_with(9, 0, 0, 0, 0, 0, None),
    }
}
