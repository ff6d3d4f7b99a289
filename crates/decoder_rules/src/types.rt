//! The decoder's record by value, and the answers of its calls.

use spec_util::types::{MOST_OPEN, OpenTag};
use table::types::Path;
use tag_parse::types::{EBMLSize, Range, TagValue};

/// The greatest position, 2^62.
pub const FARTHEST: u64 = 0x4000_0000_0000_0000;

/// A known size in a header is below 2^56.
pub const SIZE_LIMIT: u64 = 0x0100_0000_0000_0000;

/// The greatest size that a fresh decoder takes.
pub const FIRST_GREATEST_SIZE: u64 = 4_000_000_000;

/// The End of a master: its ID, where it started, and how many children it had.
#[derive(Clone, Copy, Debug, PartialEq, Eq)]
pub struct WaitingEnd {
    pub id: u64,
    pub offset: u64,
    pub count: u64,
}

/// The settings: the tests that are switched off (unknown IDs, hierarchy, child sizes), whether reading is strict, and
/// the greatest size, if one is given. `max_given` and `max_size` are no Option: a record takes every state, and
/// `record_of` of stored_decoder fills both from words of their own.
#[derive(Clone, Copy, Debug, PartialEq, Eq)]
pub struct Settings {
    pub allow_ids: bool,
    pub allow_hierarchy: bool,
    pub allow_oversized: bool,
    pub strict: bool,
    pub max_given: bool,
    pub max_size: u64,
}

/// The open masters stand from the outermost on, the waiting Ends in the order in which they are handed out. Places
/// from a count on are empty.
#[derive(Clone, Copy)]
pub struct TagDecoder {
    pub settings: Settings,
    pub position: u64,
    pub settled: bool,
    pub finished: bool,
    pub open: [OpenTag; MOST_OPEN],
    pub open_count: usize,
    pub waiting: [WaitingEnd; MOST_OPEN],
    pub waiting_count: usize,
}

/// An event. Offsets are counted from the stream's first byte.
#[derive(Clone, Copy, Debug, PartialEq, Eq)]
pub enum Event {
    Start {
        id: u64,
        offset: u64,
    },
    End(WaitingEnd),
    Data {
        id: u64,
        offset: u64,
        value: TagValue,
    },
}

/// What refusal 23 names: where the element that the end cuts starts, its ID and size as far as they were read, and,
/// where any are to be named, its bytes that are there.
#[derive(Clone, Copy, Debug, PartialEq, Eq)]
pub struct Cut {
    pub start: u64,
    pub id: Option<u64>,
    pub size: Option<u64>,
    pub part: Option<Range>,
}

/// The Rust's errors under their names; the first four and the last four have no counterpart there. The last two are of
/// the strict reading alone.
#[derive(Clone, Copy, Debug, PartialEq, Eq)]
pub enum DecodeError {
    TableShape,
    BadState,
    TooFar,
    AfterFinish,
    InvalidTagData,
    InvalidTagId,
    HierarchyError,
    InvalidTagSize,
    OversizedChildElement,
    TooManyOpen,
    FromUtf8Error,
    ReadF64Mismatch,
    UnexpectedEOF(Cut),
    NotAMaster,
    InvalidIdForm,
    UnknownSizePastEnd,
}

/// A refusal and its place.
#[derive(Clone, Copy, Debug, PartialEq, Eq)]
pub struct Refusal {
    pub error: DecodeError,
    pub place: u64,
}

/// What a call answers that is not refused.
#[derive(Clone, Copy, Debug, PartialEq, Eq)]
pub enum Answer {
    Event(Event),
    /// So many bytes are missing, at least.
    NeedMore { missing: usize },
    Finished,
}

/// The answer of a call, the count of bytes taken and the new state.
#[derive(Clone, Copy)]
pub struct Decoded {
    pub answer: Result<Answer, Refusal>,
    pub taken: usize,
    pub state: TagDecoder,
}

/// What a call does that is not refused, decided before the record moves.
#[derive(Clone, Copy, Debug, PartialEq, Eq)]
pub enum Action {
    /// So many bytes are missing, at least.
    NeedMore {
        missing: usize,
    },
    Finish,
    HandOut,
    /// So many masters stay open.
    Close(usize),
    Start {
        id: u64,
        size: EBMLSize,
        len: usize,
    },
    Data {
        id: u64,
        value: TagValue,
        taken: usize,
    },
}

/// What is decided at a call: the note, and then the action. Where there is a note, the open masters become the IDs of
/// this path.
#[derive(Clone, Copy, Debug, PartialEq, Eq)]
pub struct Decision {
    pub note: Option<Path>,
    pub action: Result<Action, DecodeError>,
}

/// Whether a recovery found a valid header, and how many bytes it passed over.
#[derive(Clone, Copy, Debug, PartialEq, Eq)]
pub enum Search {
    Found { passed: usize },
    NotFound { passed: usize },
}

/// The answer of a recovery, the count of bytes taken and the new state; the refusals are 10, 11 and 12.
#[derive(Clone, Copy)]
pub struct Recovered {
    pub answer: Result<Search, Refusal>,
    pub taken: usize,
    pub state: TagDecoder,
}

/// How a search stands at one place: it stops there, has found a header there, or goes on at the next.
#[derive(Clone, Copy, Debug, PartialEq, Eq)]
pub enum Place {
    Stop,
    Found,
    On,
}

/// The place, and the record there.
#[derive(Clone, Copy)]
pub struct PlaceResult {
    pub place: Place,
    pub state: TagDecoder,
}
