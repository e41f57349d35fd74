//! The calls of a session, and the texts that are held of it: words of arguments (RFC 1094, 2.2 and 2.3) and of
//! entries. An entry's text is a tag of 0, its index, its generation, its kind, and what the kind has (RFC 4506, 4.2
//! and 4.10): mode, owners, three times, and then a file's bytes, a link's text, or a directory's names and where they
//! lead.

use super::kept::{Call, Text};

/// The handles of the root, the directory "d" of index 1, and the file "f" of index 2.
const ROOT: [u32; 8] = [0x42415345, 0, 1, 0, 0, 0, 0, 0];

const DIR: [u32; 8] = [0x42415345, 1, 1, 0, 0, 0, 0, 0];

const FILE: [u32; 8] = [0x42415345, 2, 1, 0, 0, 0, 0, 0];

/// A sattr that leaves all alone.
const KEEP: [u32; 8] = [!0; 8];

/// Names of one letter.
const A: [u32; 2] = [1, 0x61000000];

const D: [u32; 2] = [1, 0x64000000];

const F: [u32; 2] = [1, 0x66000000];

const G: [u32; 2] = [1, 0x67000000];

const H: [u32; 2] = [1, 0x68000000];

const L: [u32; 2] = [1, 0x6c000000];

const M: [u32; 2] = [1, 0x6d000000];

/// The text "a/b".
const PATH: [u32; 2] = [3, 0x612f6200];

/// Up to place 4: "d" and "f" are made, then the link "l" of index 3, and "hello" is written behind a zero of "f".
pub static FIRST: [Call; 4] = [
    (14, &[&ROOT, &D, &KEEP]),
    (9, &[&ROOT, &F, &[0o640, 1, 2, 3, 4, 5, 6, 7]]),
    (13, &[&ROOT, &L, &PATH, &KEEP]),
    (8, &[&FILE, &[0, 1, 0], &[5, 0x68656c6c, 0x6f000000]]),
];

/// Up to place 8: "f" is cut to two bytes, "l" goes, "g" is made in "d" and takes its index, and "f" is "h" in "d" too.
pub static SECOND: [Call; 4] = [
    (2, &[&FILE, &[!0, !0, !0, 2, !0, !0, !0, !0]]),
    (10, &[&ROOT, &L]),
    (9, &[&DIR, &G, &KEEP]),
    (12, &[&FILE, &DIR, &H]),
];

/// Behind place 8: "f" becomes "a", and the directory "m" of index 4 is made.
pub static THIRD: [Call; 2] = [(11, &[&ROOT, &F, &ROOT, &A]), (14, &[&ROOT, &M, &KEEP])];

/// Mode and time of "d" are set, and "m", which is there, can't be made.
pub static FOURTH: [Call; 2] = [
    (2, &[&DIR, &[0o700, !0, !0, !0, 9, 10, !0, !0]]),
    (14, &[&ROOT, &M, &KEEP]),
];

/// At place 0 stands the root by itself.
pub static AT_0: [Text; 6] = [
    (0, &[&[0, 0, 1, 2, 0o777, 0, 0, 0, 0, 0, 0, 0, 0, 0]]),
    (1, &[&[0, 1, 0, 0]]),
    (2, &[&[0, 2, 0, 0]]),
    (3, &[&[0, 3, 0, 0]]),
    (4, &[&[0, 4, 0, 0]]),
    (15, &[&[0, 15, 0, 0]]),
];

/// At place 4 the root was written last by the third call, and the file by the fourth.
pub static AT_4: [Text; 6] = [
    (
        0,
        &[
            &[0, 0, 1, 2, 0o777, 0, 0, 0, 0, 3, 0, 3, 0, 3],
            &D,
            &[1, 1],
            &F,
            &[2, 1],
            &L,
            &[3, 1],
        ],
    ),
    (1, &[&[0, 1, 1, 2, 0o755, 7, 8, 1, 0, 1, 0, 1, 0, 0]]),
    (
        2,
        &[
            &[0, 2, 1, 1, 0o640, 1, 2, 4, 5, 4, 0, 4, 0],
            &[6, 0x0068656c, 0x6c6f0000],
        ],
    ),
    (3, &[&[0, 3, 1, 5, 0o777, 7, 8, 3, 0, 3, 0, 3, 0], &PATH]),
    (4, &[&[0, 4, 0, 0]]),
    (15, &[&[0, 15, 0, 0]]),
];

/// At place 8 the root was written last by the sixth call. The file was cut by the fifth, and got a name by the eighth.
pub static AT_8: [Text; 6] = [
    (
        0,
        &[
            &[0, 0, 1, 2, 0o777, 0, 0, 0, 0, 6, 0, 6, 0, 2],
            &D,
            &[1, 1],
            &F,
            &[2, 1],
        ],
    ),
    (
        1,
        &[
            &[0, 1, 1, 2, 0o755, 7, 8, 1, 0, 8, 0, 8, 0, 2],
            &G,
            &[3, 2],
            &H,
            &[2, 1],
        ],
    ),
    (
        2,
        &[
            &[0, 2, 1, 1, 0o640, 1, 2, 4, 5, 5, 0, 8, 0],
            &[2, 0x00680000],
        ],
    ),
    (3, &[&[0, 3, 2, 1, 0o644, 7, 8, 7, 0, 7, 0, 7, 0, 0]]),
    (4, &[&[0, 4, 0, 0]]),
    (15, &[&[0, 15, 0, 0]]),
];

/// At place 12 the root was written last by the tenth call, and the mode of "d" set by the eleventh.
pub static AT_12: [Text; 6] = [
    (
        0,
        &[
            &[0, 0, 1, 2, 0o777, 0, 0, 0, 0, 10, 0, 10, 0, 3],
            &A,
            &[2, 1],
            &D,
            &[1, 1],
            &M,
            &[4, 1],
        ],
    ),
    (
        1,
        &[
            &[0, 1, 1, 2, 0o700, 7, 8, 9, 10, 8, 0, 11, 0, 2],
            &G,
            &[3, 2],
            &H,
            &[2, 1],
        ],
    ),
    (
        2,
        &[
            &[0, 2, 1, 1, 0o640, 1, 2, 4, 5, 5, 0, 8, 0],
            &[2, 0x00680000],
        ],
    ),
    (3, &[&[0, 3, 2, 1, 0o644, 7, 8, 7, 0, 7, 0, 7, 0, 0]]),
    (4, &[&[0, 4, 1, 2, 0o755, 7, 8, 10, 0, 10, 0, 10, 0, 0]]),
    (15, &[&[0, 15, 0, 0]]),
];
