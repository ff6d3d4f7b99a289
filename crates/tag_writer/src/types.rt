//! What the writer answers.

ghost use Rattle.std.specs.Prelude.{◌≡◌};
ghost use Rattle.tag_writer.specs.declared.types.WriteError.TheVariants.{TableFails};

use table::types::TableError;

/// The most items that a list may have.
pub const MOST_ITEMS: usize = 512;

/// A greater size is not written.
pub const GREATEST_SIZE: u64 = 4_000_000_000;

/// Why no document is written: the refusals 40 to 44, in their order.
#[derive(Clone, Copy, Debug, PartialEq, Eq)]
pub enum WriteError {
    TableFails,
    TooManyItems,
    Unmatched,
    WrongItem,
    OutputTooShort,
}

impl From<TableError> for WriteError {
    ghost from_gives = { λ _ e. e ≡ TableFails };

    fn from(_e: TableError) -> WriteError {
        WriteError::TableFails
    }
}

/// The bytes of an element or of a run of elements, the first item after it, and whether every master in it is of a size
/// that may be written. `size_of_run` fixes all three also where one does not fit, so that `fits` is no Option round them.
#[derive(Clone, Copy)]
pub struct Sized {
    pub size: u64,
    pub next: usize,
    pub fits: bool,
}
