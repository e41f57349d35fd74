//! Files and links: SETATTR 2, READLINK 5, READ 6, WRITE 8, CREATE 9, SYMLINK 13 (RFC 1094, 2.2). The statuses are
//! those of 2.3.1.

use crate::service::Row;
use crate::words::{A, DOT, EMPTY, HELLO, KEEP, L, ROOT, SLASH, STALE};

/// The file "a" of index 1, and the link "l" of index 2.
const FILE: [u32; 8] = [0x42415345, 1, 1, 0, 0, 0, 0, 0];

const LINK: [u32; 8] = [0x42415345, 2, 1, 0, 0, 0, 0, 0];

/// The name "m", and the text "a/b".
const M: [u32; 2] = [1, 0x6d000000];

const TEXT: [u32; 2] = [3, 0x612f6200];

/// A file and a link that are made, and what can't be made.
pub static MADE: [Row; 18] = [
    (0, 9, &[&ROOT, &A, &[0o600, 1, 2, 5, 3, 4, !0, !0]]),
    (0, 13, &[&ROOT, &L, &TEXT, &KEEP]),
    (0, 9, &[&ROOT, &A, &KEEP]),
    (0, 9, &[&ROOT, &A, &[!0, !0, !0, 2, !0, !0, !0, !0]]),
    (17, 9, &[&ROOT, &L, &KEEP]),
    (17, 9, &[&ROOT, &DOT, &KEEP]),
    (13, 9, &[&ROOT, &EMPTY, &KEEP]),
    (20, 9, &[&FILE, &A, &KEEP]),
    (70, 9, &[&STALE, &A, &KEEP]),
    (27, 9, &[&ROOT, &M, &[!0, !0, !0, 1048577, !0, !0, !0, !0]]),
    (28, 9, &[&ROOT, &M, &[!0, !0, !0, 70000, !0, !0, !0, !0]]),
    (27, 9, &[&ROOT, &A, &[!0, !0, !0, 1048577, !0, !0, !0, !0]]),
    (28, 9, &[&ROOT, &A, &[!0, !0, !0, 1048576, !0, !0, !0, !0]]),
    (17, 13, &[&ROOT, &A, &TEXT, &KEEP]),
    (17, 13, &[&ROOT, &DOT, &TEXT, &KEEP]),
    (13, 13, &[&ROOT, &SLASH, &TEXT, &KEEP]),
    (20, 13, &[&LINK, &M, &TEXT, &KEEP]),
    (70, 13, &[&STALE, &M, &TEXT, &KEEP]),
];

/// Bytes that are written behind a gap and over others, and where there is no room.
pub static WRITTEN: [Row; 19] = [
    (0, 8, &[&FILE, &[0, 100, 0], &HELLO]),
    (0, 6, &[&FILE, &[0, 300, 0]]),
    (0, 8, &[&FILE, &[7, 98, 9], &HELLO]),
    (0, 6, &[&FILE, &[97, 6, 0]]),
    (0, 8, &[&FILE, &[0, !0, 0, 0]]),
    (0, 6, &[&FILE, &[105, 1, 0]]),
    (0, 6, &[&FILE, &[!0, !0, 0]]),
    (0, 6, &[&FILE, &[0, 0, 0]]),
    (0, 1, &[&FILE]),
    (27, 8, &[&FILE, &[0, 1048572, 0], &HELLO]),
    (28, 8, &[&FILE, &[0, 1048571, 0], &HELLO]),
    (28, 8, &[&FILE, &[0, 65000, 0], &HELLO]),
    (0, 17, &[&FILE]),
    (21, 8, &[&ROOT, &[0, 0, 0], &HELLO]),
    (13, 8, &[&LINK, &[0, 0, 0], &HELLO]),
    (70, 8, &[&STALE, &[0, 0, 0], &HELLO]),
    (21, 6, &[&ROOT, &[0, 9, 0]]),
    (13, 6, &[&LINK, &[0, 9, 0]]),
    (70, 6, &[&STALE, &[0, 9, 0]]),
];

/// Sizes and attributes that are set, and links that are read.
pub static SET: [Row; 19] = [
    (0, 2, &[&FILE, &[!0, !0, !0, 3, !0, !0, !0, !0]]),
    (0, 2, &[&FILE, &[!0, !0, !0, 20000, !0, !0, !0, !0]]),
    (0, 6, &[&FILE, &[0, 9000, 0]]),
    (0, 6, &[&FILE, &[15000, 9000, 0]]),
    (0, 2, &[&FILE, &[0o7777, 1, !0, 10, 5, 6, 7, 8]]),
    (0, 2, &[&FILE, &[!0, !0, 2, !0, !0, !0, 0, 1_000_000]]),
    (27, 2, &[&FILE, &[!0, !0, !0, 1048577, !0, !0, !0, !0]]),
    (28, 2, &[&FILE, &[!0, !0, !0, 1048576, !0, !0, !0, !0]]),
    (28, 2, &[&FILE, &[!0, !0, !0, 65000, !0, !0, !0, !0]]),
    (13, 2, &[&LINK, &[!0, !0, !0, 0, !0, !0, !0, !0]]),
    (0, 2, &[&LINK, &[0o4000, 1, 2, !0, 3, 4, 5, 6]]),
    (0, 5, &[&LINK]),
    (6, 5, &[&FILE]),
    (6, 5, &[&ROOT]),
    (70, 5, &[&STALE]),
    (0, 16, &[&ROOT, &[0, 4096]]),
    (20, 16, &[&FILE, &[0, 4096]]),
    (20, 4, &[&FILE, &A]),
    (20, 14, &[&FILE, &M, &KEEP]),
];
