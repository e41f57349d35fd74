//! Calls before and after restarts of the server (RFC 1094, 2.2). The statuses are those of 2.3.1.

use crate::service::Row;
use crate::words::{A, B, D, E, F, G, H, HELLO, KEEP, L, ROOT, X};

/// The directory "d" of index 1, the directory "e" of index 2, the file of index 3, the link "l" of index 4, the
/// directory "h" of index 5, and what comes after a restart, of index 6.
const DIR: [u32; 8] = [0x42415345, 1, 1, 0, 0, 0, 0, 0];

const INNER: [u32; 8] = [0x42415345, 2, 1, 0, 0, 0, 0, 0];

const FILE: [u32; 8] = [0x42415345, 3, 1, 0, 0, 0, 0, 0];

const LINK: [u32; 8] = [0x42415345, 4, 1, 0, 0, 0, 0, 0];

const OTHER: [u32; 8] = [0x42415345, 5, 1, 0, 0, 0, 0, 0];

const NEXT: [u32; 8] = [0x42415345, 6, 1, 0, 0, 0, 0, 0];

/// The text "a/b".
const TEXT: [u32; 2] = [3, 0x612f6200];

/// Directories, a file with three names, a link, and names that moved.
pub static BUILT: [Row; 10] = [
    (0, 14, &[&ROOT, &D, &KEEP]),
    (0, 14, &[&DIR, &E, &KEEP]),
    (0, 9, &[&ROOT, &F, &KEEP]),
    (0, 13, &[&ROOT, &L, &TEXT, &KEEP]),
    (0, 14, &[&ROOT, &H, &KEEP]),
    (0, 8, &[&FILE, &[0, 3, 0], &HELLO]),
    (0, 12, &[&FILE, &ROOT, &G]),
    (0, 12, &[&FILE, &INNER, &A]),
    (0, 11, &[&ROOT, &G, &OTHER, &B]),
    (0, 11, &[&DIR, &E, &OTHER, &E]),
];

/// Each object that was built, each name of it, and each directory.
pub static LOOKED_AT: [Row; 14] = [
    (0, 1, &[&ROOT]),
    (0, 1, &[&INNER]),
    (0, 1, &[&FILE]),
    (0, 1, &[&LINK]),
    (0, 1, &[&OTHER]),
    (0, 6, &[&FILE, &[0, 300, 0]]),
    (0, 5, &[&LINK]),
    (0, 4, &[&OTHER, &B]),
    (0, 4, &[&INNER, &A]),
    (2, 4, &[&ROOT, &G]),
    (0, 16, &[&ROOT, &[0, 4096]]),
    (0, 16, &[&INNER, &[0, 4096]]),
    (0, 16, &[&OTHER, &[0, 4096]]),
    (0, 17, &[&ROOT]),
];

/// Changes after a restart: one name of three goes, a directory moves and another goes, and a file comes.
pub static CHANGED: [Row; 8] = [
    (0, 1, &[&DIR]),
    (0, 10, &[&ROOT, &F]),
    (0, 8, &[&FILE, &[0, 8, 0], &HELLO]),
    (0, 11, &[&OTHER, &E, &ROOT, &E]),
    (0, 9, &[&INNER, &X, &KEEP]),
    (0, 1, &[&NEXT]),
    (0, 15, &[&ROOT, &D]),
    (70, 1, &[&DIR]),
];

/// What the changes left: the file has two names, and the place of the directory that went is free for another.
pub static LEFT: [Row; 9] = [
    (0, 1, &[&FILE]),
    (0, 6, &[&FILE, &[0, 300, 0]]),
    (0, 4, &[&INNER, &X]),
    (2, 4, &[&ROOT, &F]),
    (70, 1, &[&DIR]),
    (0, 16, &[&ROOT, &[0, 4096]]),
    (0, 14, &[&ROOT, &D, &KEEP]),
    (0, 4, &[&ROOT, &D]),
    (0, 16, &[&ROOT, &[0, 4096]]),
];
