//! What is kept from line to line of the list for people.

/// The Starts that have had no End, whether an End came that had no Start, and whether a master came whose size is not
/// known.
#[derive(Clone, Copy)]
pub struct Seen {
    pub starts: u64,
    pub front_missing: bool,
    pub size_missing: bool,
}
