//! The numbers of the protocol (RFC 1094, 2.3.1, 2.3.2 and 2.3.5) and of this service.

/// The largest file, in bytes: a mebibyte.
pub const FILE_LIMIT: u32 = 1_048_576;

/// The longest text of a symbolic link, in bytes (RFC 1094, 2.3.11).
pub const TEXT_LIMIT: u32 = 1024;

/// The most bytes of one READ or READDIR (RFC 1094, 2.3.1).
pub const TRANSFER_LIMIT: u32 = 8192;

/// The bytes that a name takes of the space.
pub const NAME_SPACE: u32 = 512;

/// The type word of a regular file.
pub const FILE_TYPE: u32 = 1;

/// The type word of a directory.
pub const DIR_TYPE: u32 = 2;

/// The type word of a symbolic link.
pub const LINK_TYPE: u32 = 5;

/// The bits of a regular file in a mode word: 0100000.
pub const FILE_MODE: u32 = 0x8000;

/// The bits of a directory in a mode word: 0040000.
pub const DIR_MODE: u32 = 0x4000;

/// The bits of a symbolic link in a mode word: 0120000.
pub const LINK_MODE: u32 = 0xa000;

/// The mode of a file that is made without one: 0644.
pub const NEW_FILE_MODE: u32 = 0o644;

/// The mode of a directory that is made without one: 0755.
pub const NEW_DIR_MODE: u32 = 0o755;

/// The mode of a link that is made without one, and of the first root: 0777.
pub const OPEN_MODE: u32 = 0o777;
