//! The programs that are served.

/// The program NFS, of which version 2 is served (RFC 1094, 2.2).
pub const NFS: u32 = 100003;

/// The program MOUNT, of which version 1 is served (RFC 1094, A.5).
pub const MOUNT: u32 = 100005;
