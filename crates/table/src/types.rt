//! What a table holds, and what its check answers.

/// The type of an element's payload.
#[derive(Clone, Copy, Debug, PartialEq, Eq)]
pub enum TagDataType {
    /// The Rust's None: an ID that is not in the table. No Option stands round the enum: a type is matched once, not
    /// twice.
    Untyped,
    /// Elements inside.
    Master,
    /// An unsigned integer, RFC 8794, section 7.2.
    UnsignedInt,
    /// A signed integer, RFC 8794, section 7.1.
    Integer,
    /// A text, RFC 8794, section 7.5.
    Utf8,
    /// Bytes, RFC 8794, section 7.8.
    Binary,
    /// A float, RFC 8794, section 7.3.
    Float,
}

/// A part of a path: an ID, or any masters within bounds, each of which may be left out.
#[derive(Clone, Copy, Debug, PartialEq, Eq)]
pub enum PathPart {
    /// The ID of a Master.
    Id(u64),
    /// At least `min` and at most `max` masters of any IDs; a bound that is not given is None.
    Global { min: Option<u64>, max: Option<u64> },
}

/// A range of the table's parts. Any range may be asked for: what lies past the last part is not there.
#[derive(Clone, Copy, Debug, PartialEq, Eq)]
pub struct Path {
    /// The place of the first part, counted from 0.
    pub first: usize,
    /// How many parts.
    pub count: usize,
}

/// What the table says of an ID.
#[derive(Clone, Copy, Debug, PartialEq, Eq)]
pub struct Spec {
    /// The type of its payload.
    pub kind: TagDataType,
    /// Where its path stands among the parts.
    pub path: Path,
}

/// The rules of the table check, in the order in which they are tested.
#[derive(Clone, Copy, Debug, PartialEq, Eq)]
pub enum Rule {
    /// The ID is none that RFC 8794, section 5, allows.
    NoElementId,
    /// An earlier entry has the ID.
    Repeated,
    /// A Master's path has a Global.
    GlobalInMaster,
    /// An ID of the path is no Master of the table.
    NoMaster,
    /// An ID of the path, with only IDs before it, has another path of its own.
    OtherPath,
}

/// Why the table check does not pass a table: its words have no good shape, or the lowest faulty entry, counted from 0,
/// breaks a rule.
#[derive(Clone, Copy, Debug, PartialEq, Eq)]
pub enum TableError {
    /// The words make no table.
    BadShape,
    /// The entry breaks the rule, and no earlier one.
    Fault { rule: Rule, entry: usize },
}
