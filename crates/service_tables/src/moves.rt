//! Names that move: RENAME 11 (RFC 1094, 2.2.12). The statuses are those of 2.3.1.

use crate::service::Row;
use crate::words::{A, B, D, DOT, DOTS, E, EMPTY, F, G, H, HELLO, KEEP, Q, ROOT, SLASH, STALE, X};

/// The directory "d" of index 1, the file "e" in it of index 2, the file "f" and "g" of index 3, and the directory "h"
/// of index 4.
const DIR: [u32; 8] = [0x42415345, 1, 1, 0, 0, 0, 0, 0];

const INNER: [u32; 8] = [0x42415345, 2, 1, 0, 0, 0, 0, 0];

const FILE: [u32; 8] = [0x42415345, 3, 1, 0, 0, 0, 0, 0];

const OTHER: [u32; 8] = [0x42415345, 4, 1, 0, 0, 0, 0, 0];

/// The directory "a" in "d", of index 5.
const BELOW: [u32; 8] = [0x42415345, 5, 1, 0, 0, 0, 0, 0];

/// Objects, names that are one object's, and what can't be moved.
pub static REFUSED: [Row; 18] = [
    (0, 14, &[&ROOT, &D, &KEEP]),
    (0, 9, &[&DIR, &E, &KEEP]),
    (0, 9, &[&ROOT, &F, &KEEP]),
    (0, 12, &[&FILE, &ROOT, &G]),
    (0, 14, &[&ROOT, &H, &KEEP]),
    (0, 14, &[&DIR, &A, &KEEP]),
    (0, 11, &[&ROOT, &F, &ROOT, &F]),
    (0, 11, &[&ROOT, &F, &ROOT, &G]),
    (0, 11, &[&ROOT, &D, &ROOT, &D]),
    (0, 1, &[&FILE]),
    (21, 11, &[&ROOT, &F, &ROOT, &D]),
    (20, 11, &[&ROOT, &D, &ROOT, &F]),
    (66, 11, &[&ROOT, &H, &ROOT, &D]),
    (13, 11, &[&ROOT, &D, &DIR, &X]),
    (13, 11, &[&ROOT, &D, &BELOW, &X]),
    (20, 11, &[&ROOT, &D, &DIR, &E]),
    (13, 11, &[&ROOT, &D, &DIR, &A]),
    (0, 16, &[&ROOT, &[0, 4096]]),
];

/// Tests of the directories and of the names, in their order.
pub static TESTED: [Row; 10] = [
    (70, 11, &[&STALE, &F, &FILE, &X]),
    (70, 11, &[&FILE, &F, &STALE, &X]),
    (20, 11, &[&FILE, &SLASH, &ROOT, &X]),
    (20, 11, &[&ROOT, &SLASH, &FILE, &X]),
    (13, 11, &[&ROOT, &SLASH, &ROOT, &DOT]),
    (13, 11, &[&ROOT, &DOT, &ROOT, &EMPTY]),
    (1, 11, &[&ROOT, &DOT, &ROOT, &X]),
    (1, 11, &[&ROOT, &Q, &ROOT, &DOTS]),
    (2, 11, &[&ROOT, &Q, &ROOT, &X]),
    (2, 11, &[&ROOT, &Q, &ROOT, &D]),
];

/// Files that move, to new names and onto others.
pub static FILES_MOVED: [Row; 16] = [
    (0, 11, &[&ROOT, &F, &ROOT, &X]),
    (2, 4, &[&ROOT, &F]),
    (0, 4, &[&ROOT, &X]),
    (0, 11, &[&ROOT, &X, &OTHER, &B]),
    (0, 1, &[&ROOT]),
    (0, 1, &[&OTHER]),
    (0, 1, &[&FILE]),
    // Onto the only name of a file, and onto one of two.
    (0, 9, &[&ROOT, &F, &KEEP]),
    (0, 11, &[&ROOT, &F, &DIR, &E]),
    (70, 1, &[&INNER]),
    (0, 4, &[&DIR, &E]),
    (0, 11, &[&DIR, &E, &OTHER, &B]),
    (0, 1, &[&FILE]),
    (0, 11, &[&OTHER, &B, &OTHER, &X]),
    (0, 16, &[&OTHER, &[0, 4096]]),
    (0, 17, &[&ROOT]),
];

/// Directories that move with what lies below them.
pub static DIRS_MOVED: [Row; 18] = [
    (0, 9, &[&BELOW, &E, &KEEP]),
    (0, 11, &[&ROOT, &D, &ROOT, &Q]),
    (0, 4, &[&DIR, &A]),
    (0, 4, &[&BELOW, &E]),
    (0, 11, &[&ROOT, &Q, &OTHER, &D]),
    (0, 4, &[&DIR, &DOTS]),
    (0, 4, &[&BELOW, &DOTS]),
    (0, 14, &[&BELOW, &H, &KEEP]),
    (13, 11, &[&ROOT, &H, &BELOW, &X]),
    (0, 1, &[&ROOT]),
    (0, 1, &[&OTHER]),
    // Onto a directory without names.
    (0, 14, &[&ROOT, &B, &KEEP]),
    (0, 11, &[&DIR, &A, &ROOT, &B]),
    (0, 4, &[&BELOW, &DOTS]),
    (0, 16, &[&ROOT, &[0, 4096]]),
    (0, 16, &[&BELOW, &[0, 4096]]),
    (0, 15, &[&OTHER, &D]),
    (0, 17, &[&ROOT]),
];

/// A file below a directory that moved is written and read by its old handle.
pub static WRITTEN_BELOW: [Row; 7] = [
    (0, 12, &[&FILE, &BELOW, &G]),
    (0, 11, &[&ROOT, &B, &OTHER, &G]),
    (0, 8, &[&FILE, &[0, 2, 0], &HELLO]),
    (0, 4, &[&BELOW, &G]),
    (0, 6, &[&FILE, &[0, 100, 0]]),
    (0, 10, &[&BELOW, &G]),
    (66, 15, &[&OTHER, &G]),
];
