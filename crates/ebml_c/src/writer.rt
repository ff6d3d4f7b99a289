//! The writer, for a program that has a list of items and wants its document.

ghost use Rattle.ebml.specs.Writing.{write_out, GivesBoth};

/// The document of a list of items at the front of `out`, and its length in `written`.
#[unsafe(no_mangle)]
pub extern "C" fn ebml_write(
    entries: &[u64],
    parts: &[u64],
    items: &[u64],
    values: &[u8],
    out: &mut [u8],
    written: &mut [u8],
) -> u64
    ensures { GivesBoth result out.new written.new (write_out entries.now parts.now items.now values.now out.old written.old) }
{
    ebml::writer::ebml_write(entries, parts, items, values, out, written)
}
