//! Is a record whole, for a program that has all of it in memory.

ghost use Rattle.std.specs.Prelude.{◌≡◌};
ghost use Rattle.stored_decoder.specs.Words.{is_yes};
ghost use Rattle.whole.specs.Checking.{verdict_of};
ghost use Rattle.whole.specs.Night.{answers_to};
ghost use Rattle.whole.specs.Numbers.{verdict_numbers};

use whole::types::VerdictNumbers;

/// The verdict of `ebml-check` on a record that is all there, with the table lent; strictly, or with 0 as ported.
#[unsafe(no_mangle)]
pub extern "C" fn ebml_is_whole(
    entries: &[u64],
    parts: &[u64],
    strict: u64,
    input: &[u8],
) -> VerdictNumbers
    ensures { result ≡ verdict_numbers (verdict_of (answers_to (is_yes strict) entries.now parts.now input.now)) }
{
    ebml::record::ebml_is_whole(entries, parts, strict, input)
}
