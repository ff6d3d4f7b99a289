//! What is kept from one answer to the next, and the verdict.

/// What the answers up to here have shown. `front`: the first event, if there was one, was the Start of a root at 0.
/// `id` and `start` are those of the last Start or, where not every one was `sized`, of the first that was not. A record
/// is an element with nothing open around it; a feed is a master directly in a root.
#[derive(Clone, Copy)]
pub struct Seen {
    pub begun: bool,
    pub front: bool,
    pub sized: bool,
    pub id: u64,
    pub start: u64,
    pub records: u64,
    pub feeds: u64,
}

/// A master that stands at the top, or that has no size: its ID, where it starts, and its size where that is known.
#[derive(Clone, Copy, Debug, PartialEq, Eq)]
pub struct Root {
    pub id: u64,
    pub start: u64,
    pub size: Option<u64>,
}

/// What the last answer shows of an input.
#[derive(Clone, Copy, Debug, PartialEq, Eq)]
pub enum Verdict {
    /// One record, every size of it is known, and it is all there
    Whole {
        feeds: u64,
        bytes: u64,
    },
    Empty,
    /// It does not begin with the Start of a root at 0
    FrontMissing,
    /// A refusal that is not 23
    Refused {
        number: u64,
        place: u64,
    },
    /// An element at this position is larger than the buffer
    TooLarge(u64),
    /// Refusal 23: all before `at` was read. The root is the outermost open master, where one is open.
    Cut {
        at: u64,
        root: Option<Root>,
        bytes: u64,
    },
    /// It ends where a master ends that has no size, so nothing tells whether more was to come.
    CannotTell {
        id: u64,
        start: u64,
    },
    /// Several records, each of them whole.
    More {
        records: u64,
        feeds: u64,
        bytes: u64,
    },
    /// The answer was an event.
    NotEnded,
}

/// A verdict for C. `verdict` says which: 1 whole, 2 empty, 3 the front is missing, 4 refused, 5 an element is too large,
/// 6 cut, 7 cannot tell, 8 several records, 9 not ended. What a verdict does not name is 0. `number` is a refusal's;
/// `place` that of a refusal, of an element that is too large, or the `at` of a cut. The root is the outermost open
/// master of a cut, or the master that has no size; `root_named` and `root_size_named` are 1 where there is one, and
/// where it has a size.
#[repr(C)]
#[derive(Clone, Copy)]
pub struct VerdictNumbers {
    pub verdict: u64,
    pub feeds: u64,
    pub records: u64,
    pub bytes: u64,
    pub number: u64,
    pub place: u64,
    pub root_named: u64,
    pub root_id: u64,
    pub root_start: u64,
    pub root_size_named: u64,
    pub root_size: u64,
}
