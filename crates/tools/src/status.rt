//! What reading the front of some bytes comes to where no byte of it is wrong.

/// A value that is whole, or how many further bytes are missing at least. To need more is no error: the same bytes with
/// others behind them may be read again.
#[derive(Clone, Copy, Debug, PartialEq, Eq)]
pub enum Status<T> {
    /// The value.
    Complete(T),
    /// So many bytes are missing, at least.
    NeedMore { missing: usize },
}
