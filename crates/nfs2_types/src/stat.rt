//! The status words of results (RFC 1094, 2.3.1).

/// The status word of a result.
#[derive(Clone, Copy, Debug, PartialEq, Eq)]
pub struct Stat(pub u32);

/// The call did what it was asked to do.
pub const OK: Stat = Stat(0);

/// The caller does not own the object, or may not do this to it.
pub const PERM: Stat = Stat(1);

/// No such name.
pub const NOENT: Stat = Stat(2);

/// A hard error of the device; never answered here.
pub const IO: Stat = Stat(5);

/// No such device; here, READLINK of what is no link.
pub const NXIO: Stat = Stat(6);

/// Access is denied.
pub const ACCES: Stat = Stat(13);

/// The name is taken.
pub const EXIST: Stat = Stat(17);

/// The device has no such operation; never answered here.
pub const NODEV: Stat = Stat(19);

/// Not a directory.
pub const NOTDIR: Stat = Stat(20);

/// A directory.
pub const ISDIR: Stat = Stat(21);

/// The file would be too large.
pub const FBIG: Stat = Stat(27);

/// No space is left.
pub const NOSPC: Stat = Stat(28);

/// The file system can only be read; never answered here.
pub const ROFS: Stat = Stat(30);

/// The name is too long; never answered here.
pub const NAMETOOLONG: Stat = Stat(63);

/// The directory has names.
pub const NOTEMPTY: Stat = Stat(66);

/// The caller's share of the disk is used up; never answered here.
pub const DQUOT: Stat = Stat(69);

/// The handle names no object.
pub const STALE: Stat = Stat(70);

/// The write cache was flushed to disk; never answered here.
pub const WFLUSH: Stat = Stat(99);
