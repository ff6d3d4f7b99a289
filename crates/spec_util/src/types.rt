//! The open masters, and the path walk's answer at each of them.

ghost use Rattle.std.specs.Prelude.{◌≡◌};
ghost use Rattle.spec_util.specs.Walk.{open_tag, no_tag};

/// A record has places for so many open masters.
pub const MOST_OPEN: usize = 32;

/// An open master. The size means nothing where it is not known; the count is that of its children so far. `known` and
/// `size` are no Option: a record takes every state, and `record_of` of stored_decoder fills both from words of their own.
#[derive(Clone, Copy, Debug, PartialEq, Eq)]
pub struct OpenTag {
    pub id: u64,
    pub known: bool,
    pub size: u64,
    pub tag_start: u64,
    pub data_start: u64,
    pub count: u64,
}

/// An open master that has had no child yet; a size that is not known is given as 0.
pub fn open_tag(id: u64, known: bool, size: u64, tag_start: u64, data_start: u64) -> OpenTag
    ensures { result ≡ open_tag id known size tag_start data_start }
{
    OpenTag {
        id,
        known,
        size,
        tag_start,
        data_start,
        count: 0,
    }
}

/// What an empty place holds.
pub fn no_tag() -> OpenTag
    ensures { result ≡ no_tag }
{
    open_tag(0, false, 0, 0, 0)
}

/// The walk ends with an answer, or goes on at this marker with this counter. It is no ControlFlow: each of the three has
/// a name so.
#[derive(Clone, Copy, Debug, PartialEq, Eq)]
pub enum Walk {
    Accept,
    Refuse,
    On { marker: usize, counter: u64 },
}
