//! Names that are given and taken: REMOVE 10, LINK 12, RMDIR 15 (RFC 1094, 2.2). The statuses are those of 2.3.1.

use crate::service::Row;
use crate::words::{A, B, D, DOT, DOTS, E, EMPTY, KEEP, L, ROOT, SLASH, STALE, X};

/// The file "a" of index 1, the directory "d" of index 2, and the link "l" of index 3.
const FILE: [u32; 8] = [0x42415345, 1, 1, 0, 0, 0, 0, 0];

const DIR: [u32; 8] = [0x42415345, 2, 1, 0, 0, 0, 0, 0];

const LINK: [u32; 8] = [0x42415345, 3, 1, 0, 0, 0, 0, 0];

/// A second file of index 1.
const NEXT: [u32; 8] = [0x42415345, 1, 2, 0, 0, 0, 0, 0];

/// Three objects, and more names for two of them.
pub static LINKED: [Row; 12] = [
    (0, 9, &[&ROOT, &A, &KEEP]),
    (0, 14, &[&ROOT, &D, &KEEP]),
    (0, 13, &[&ROOT, &L, &A, &KEEP]),
    (0, 12, &[&FILE, &ROOT, &B]),
    (0, 12, &[&FILE, &DIR, &A]),
    (0, 12, &[&LINK, &DIR, &B]),
    (0, 1, &[&FILE]),
    (0, 1, &[&LINK]),
    (0, 1, &[&DIR]),
    (0, 4, &[&DIR, &A]),
    (0, 16, &[&DIR, &[0, 4096]]),
    (0, 17, &[&ROOT]),
];

/// Names that can't be given.
pub static NOT_LINKED: [Row; 15] = [
    (70, 12, &[&STALE, &ROOT, &X]),
    (70, 12, &[&FILE, &STALE, &X]),
    (1, 12, &[&DIR, &ROOT, &X]),
    (1, 12, &[&DIR, &FILE, &X]),
    (20, 12, &[&FILE, &LINK, &X]),
    (13, 12, &[&FILE, &ROOT, &SLASH]),
    (13, 12, &[&FILE, &ROOT, &EMPTY]),
    (1, 12, &[&FILE, &ROOT, &DOT]),
    (17, 12, &[&FILE, &ROOT, &D]),
    // Six names use 3,072 bytes, and the text of the link one.
    (0, 2, &[&FILE, &[!0, !0, !0, 61952, !0, !0, !0, !0]]),
    (28, 12, &[&FILE, &ROOT, &X]),
    (0, 2, &[&FILE, &[!0, !0, !0, 61951, !0, !0, !0, !0]]),
    (0, 12, &[&FILE, &ROOT, &X]),
    (0, 10, &[&ROOT, &X]),
    (0, 2, &[&FILE, &[!0, !0, !0, 3, !0, !0, !0, !0]]),
];

/// Names of files and links that are taken, up to the last.
pub static REMOVED: [Row; 19] = [
    (70, 10, &[&STALE, &A]),
    (20, 10, &[&FILE, &A]),
    (13, 10, &[&ROOT, &EMPTY]),
    (13, 10, &[&ROOT, &SLASH]),
    (1, 10, &[&ROOT, &DOT]),
    (1, 10, &[&ROOT, &DOTS]),
    (2, 10, &[&ROOT, &X]),
    (21, 10, &[&ROOT, &D]),
    (0, 10, &[&ROOT, &A]),
    (0, 1, &[&FILE]),
    (0, 10, &[&DIR, &A]),
    (0, 10, &[&ROOT, &B]),
    (70, 1, &[&FILE]),
    (0, 10, &[&ROOT, &L]),
    (0, 1, &[&LINK]),
    (0, 17, &[&ROOT]),
    (0, 9, &[&ROOT, &A, &KEEP]),
    (70, 1, &[&FILE]),
    (0, 1, &[&NEXT]),
];

/// Directories that are taken out, once they have no names.
pub static DIRS_REMOVED: [Row; 19] = [
    (66, 15, &[&ROOT, &D]),
    (0, 14, &[&DIR, &E, &KEEP]),
    (0, 10, &[&DIR, &B]),
    (66, 15, &[&ROOT, &D]),
    (20, 15, &[&ROOT, &A]),
    (2, 15, &[&ROOT, &B]),
    (1, 15, &[&ROOT, &DOT]),
    (1, 15, &[&DIR, &DOTS]),
    (13, 15, &[&ROOT, &EMPTY]),
    (70, 15, &[&STALE, &D]),
    (20, 15, &[&NEXT, &D]),
    (0, 15, &[&DIR, &E]),
    (0, 1, &[&DIR]),
    (0, 15, &[&ROOT, &D]),
    (70, 1, &[&DIR]),
    (70, 16, &[&DIR, &[0, 4096]]),
    (0, 1, &[&ROOT]),
    (0, 14, &[&ROOT, &D, &KEEP]),
    (0, 16, &[&ROOT, &[0, 4096]]),
];
