//! What a call on a decoder's words answers, in numbers.

/// A code, and where a call asks for a number, that number.
#[repr(C)]
#[derive(Clone, Copy, Debug, PartialEq, Eq)]
pub struct Number {
    pub code: u64,
    pub value: u64,
}

/// What calls in a row answer: a code, how many events were handed out and how many bytes were taken; a refusal's place;
/// how many bytes are missing, at least; and of the element that refusal 23 names, which of ID (1), size (2) and bytes
/// (4) there are, where it starts, and these.
#[repr(C)]
#[derive(Clone, Copy, Debug, PartialEq, Eq)]
pub struct Reply {
    pub code: u64,
    pub events: u64,
    pub taken: u64,
    pub place: u64,
    pub missing: u64,
    pub cut_named: u64,
    pub cut_start: u64,
    pub cut_id: u64,
    pub cut_size: u64,
    pub cut_begin: u64,
    pub cut_end: u64,
}
