//! Directories: GETATTR 1, SETATTR 2, LOOKUP 4, MKDIR 14, READDIR 16 and STATFS 17 (RFC 1094, 2.2). The statuses are
//! those of 2.3.1.

use crate::service::Row;
use crate::words::{A, B, DOT, DOTS, EMPTY, KEEP, L, ROOT, SLASH, STALE};

/// The directory "a" of index 1, and "b" in it of index 2.
const OUTER: [u32; 8] = [0x42415345, 1, 1, 0, 0, 0, 0, 0];

const INNER: [u32; 8] = [0x42415345, 2, 1, 0, 0, 0, 0, 0];

/// Calls without a result, and the root by itself.
pub static LOOKED_AT: [Row; 15] = [
    (0, 0, &[]),
    (0, 3, &[]),
    (0, 7, &[]),
    (0, 1, &[&ROOT]),
    (70, 1, &[&STALE]),
    (0, 17, &[&ROOT]),
    (70, 17, &[&STALE]),
    (0, 16, &[&ROOT, &[0, 4096]]),
    (70, 16, &[&STALE, &[0, 4096]]),
    (0, 4, &[&ROOT, &DOT]),
    (0, 4, &[&ROOT, &DOTS]),
    (2, 4, &[&ROOT, &A]),
    (13, 4, &[&ROOT, &EMPTY]),
    (13, 4, &[&ROOT, &SLASH]),
    (70, 4, &[&STALE, &A]),
];

/// Directories that are made, found and changed.
pub static MADE: [Row; 17] = [
    (0, 14, &[&ROOT, &A, &KEEP]),
    (0, 14, &[&OUTER, &B, &[0o700, 3, 4, 9, 1, 2, 5, 6]]),
    (17, 14, &[&ROOT, &A, &KEEP]),
    (17, 14, &[&ROOT, &DOT, &KEEP]),
    (13, 14, &[&ROOT, &SLASH, &KEEP]),
    (70, 14, &[&STALE, &A, &KEEP]),
    (0, 4, &[&ROOT, &A]),
    (0, 4, &[&OUTER, &DOTS]),
    (0, 4, &[&INNER, &DOTS]),
    (0, 4, &[&OUTER, &B]),
    (0, 2, &[&OUTER, &[0o750, 5, 6, !0, 0, 1_000_000, 9, 9]]),
    (0, 2, &[&OUTER, &KEEP]),
    (21, 2, &[&OUTER, &[!0, !0, !0, 0, !0, !0, !0, !0]]),
    (70, 2, &[&STALE, &KEEP]),
    (0, 1, &[&OUTER]),
    (0, 1, &[&INNER]),
    (0, 17, &[&INNER]),
];

/// A list by its cookies and counts: the root has five entries by now.
pub static LISTED: [Row; 16] = [
    (0, 14, &[&ROOT, &L, &KEEP]),
    (0, 14, &[&ROOT, &B, &KEEP]),
    (0, 16, &[&ROOT, &[0, 0]]),
    (0, 16, &[&ROOT, &[0, 27]]),
    (0, 16, &[&ROOT, &[0, 28]]),
    (0, 16, &[&ROOT, &[0, 47]]),
    (0, 16, &[&ROOT, &[0, 48]]),
    (0, 16, &[&ROOT, &[0, 107]]),
    (0, 16, &[&ROOT, &[0, 108]]),
    (0, 16, &[&ROOT, &[1, 68]]),
    (0, 16, &[&ROOT, &[3, 4096]]),
    (0, 16, &[&ROOT, &[4, 28]]),
    (0, 16, &[&ROOT, &[5, 4096]]),
    (0, 16, &[&ROOT, &[9, 0]]),
    (0, 16, &[&ROOT, &[!0, !0]]),
    (0, 16, &[&INNER, &[0, !0]]),
];

/// The sixteenth entry is the last.
pub static FILLED: [Row; 13] = [
    (0, 14, &[&INNER, &[1, 0x63000000], &KEEP]),
    (0, 14, &[&INNER, &[1, 0x64000000], &KEEP]),
    (0, 14, &[&INNER, &[1, 0x65000000], &KEEP]),
    (0, 14, &[&INNER, &[1, 0x66000000], &KEEP]),
    (0, 14, &[&INNER, &[1, 0x67000000], &KEEP]),
    (0, 14, &[&INNER, &[1, 0x68000000], &KEEP]),
    (0, 14, &[&INNER, &[1, 0x69000000], &KEEP]),
    (0, 14, &[&INNER, &[1, 0x6a000000], &KEEP]),
    (0, 14, &[&INNER, &[1, 0x6b000000], &KEEP]),
    (0, 14, &[&INNER, &[1, 0x6c000000], &KEEP]),
    (0, 14, &[&INNER, &[1, 0x6d000000], &KEEP]),
    (28, 14, &[&INNER, &[1, 0x7a000000], &KEEP]),
    (28, 13, &[&INNER, &[1, 0x7a000000], &A, &KEEP]),
];
