//! Why an item could not be read.

/// What is wrong with an item, in the order in which the kinds are tried.
#[derive(Clone, Copy, Debug, PartialEq, Eq)]
pub enum XdrKind {
    /// The length of an opaque is above its limit (RFC 4506, 4.10).
    TooLong,
    /// The bytes end before the item does.
    Short,
    /// A byte of padding is not zero (RFC 4506, 3).
    BadPad,
    /// The word of a bool is neither 0 nor 1 (RFC 4506, 4.4).
    BadBool,
    /// Bytes stand after the last item.
    Extra,
}

/// The first wrong item.
#[derive(Clone, Copy, Debug, PartialEq, Eq)]
pub struct XdrErr {
    /// Where the item begins, in bytes from the start.
    pub at: usize,
    /// The first of the kinds that applies.
    pub kind: XdrKind,
}
