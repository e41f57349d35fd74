//! What comes of a record.

/// What comes of a record of a log behind the records before it.
#[derive(Clone, Copy, Debug, PartialEq, Eq)]
pub enum Verdict {
    /// It is not in the grammar of a log.
    Wrong,
    /// It is not built yet.
    Waits,
    /// It is stepped, and the next one is read.
    Goes,
    /// It is stepped, and is the last.
    Ends,
}
