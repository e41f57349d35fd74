//! The sizes of items, in bytes (RFC 1094, 3.5).

/// The longest name.
pub const MAX_NAME: u32 = 255;

/// The longest path, and the longest text of a link.
pub const MAX_PATH: u32 = 1024;

/// The most bytes that one call reads or writes.
pub const MAX_DATA: u32 = 8192;
