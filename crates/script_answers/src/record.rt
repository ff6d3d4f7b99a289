//! The record, as `st` prints it.

use decoder_rules::types::{Settings, TagDecoder, WaitingEnd};
use spec_util::types::{MOST_OPEN, OpenTag};
use std::fmt;
use std::fmt::Display;

/// The record's settings and its state; the open masters `O` from the outermost and the Ends `W` that wait, the next
/// first, and the counts `C` and `V` of their children; whether it reads strictly.
#[derive(Clone, Copy)]
pub struct RecordText<'a>(pub &'a TagDecoder);

impl Display for RecordText<'_> {
    fn fmt<W: fmt::Write>(&self, f: &mut fmt::Formatter<W>) -> fmt::Result {
        let record = self.0;
        let open = &record.open[..record.open_count.min(MOST_OPEN)];
        let waiting = &record.waiting[..record.waiting_count.min(MOST_OPEN)];
        write!(f, "st {}", SettingsText(record.settings))?;
        write!(f, " p={}", record.position)?;
        write!(
            f,
            " s={} f={}",
            u8::from(record.settled),
            u8::from(record.finished)
        )?;
        write_list(f, "O", open, |master| OpenText(*master))?;
        write_list(f, "W", waiting, |end| EndText(*end))?;
        write_list(f, "C", open, |master| master.count)?;
        write_list(f, "V", waiting, |end| end.count)?;
        write!(f, " x={}", u8::from(record.settings.strict))
    }
}

// The tests that are switched off, as a sum, and the greatest size, `-` for none.
#[derive(Clone, Copy)]
struct SettingsText(Settings);

impl Display for SettingsText {
    fn fmt<W: fmt::Write>(&self, f: &mut fmt::Formatter<W>) -> fmt::Result {
        let settings = self.0;
        let allowed = u8::from(settings.allow_ids)
            + 2 * u8::from(settings.allow_hierarchy)
            + 4 * u8::from(settings.allow_oversized);
        if settings.max_given {
            write!(f, "a={allowed} m={}", settings.max_size)
        } else {
            write!(f, "a={allowed} m=-")
        }
    }
}

// `ID:SIZE:START:DATA`, the size `u` where it is not known.
#[derive(Clone, Copy)]
struct OpenText(OpenTag);

impl Display for OpenText {
    fn fmt<W: fmt::Write>(&self, f: &mut fmt::Formatter<W>) -> fmt::Result {
        let master = self.0;
        write!(f, "{:X}:", master.id)?;
        if master.known {
            write!(f, "{}", master.size)?;
        } else {
            write!(f, "u")?;
        }
        write!(f, ":{}:{}", master.tag_start, master.data_start)
    }
}

// `ID:OFFSET`.
#[derive(Clone, Copy)]
struct EndText(WaitingEnd);

impl Display for EndText {
    fn fmt<W: fmt::Write>(&self, f: &mut fmt::Formatter<W>) -> fmt::Result {
        write!(f, "{:X}:{}", self.0.id, self.0.offset)
    }
}

// A field whose value is a list: what is shown of each item, with commas; `-` for none.
fn write_list<W: fmt::Write, T, D: Display + Drop, F: Fn(&T) -> D>(
    f: &mut fmt::Formatter<W>,
    key: &str,
    items: &[T],
    shown: F,
) -> fmt::Result
    requires { F.IsAlwaysCallable shown }
{
    write!(f, " {key}=")?;
    if items.is_empty() {
        return write!(f, "-");
    }
    for (i, item) in items.iter().enumerate() {
        if 0 < i {
            write!(f, ",")?;
        }
        write!(f, "{}", shown(item))?;
    }
    Ok(())
}
