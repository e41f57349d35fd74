//! Calls with their results word for word (RFC 1094, 2.2), in a service of sixteen entries whose caller is nobody. The
//! statuses are those of 2.3.1. The n-th call comes at the second n.

use crate::service::Exchange;
use crate::words::{A, B, D, E, F, G, H, HELLO, KEEP, OK, ROOT};

/// The name "s", and the text "d/g".
const S: [u32; 2] = [1, 0x73000000];

const PATH: [u32; 2] = [3, 0x642f6700];

/// The objects of index 1 to 4, and a second object of index 1.
const FIRST: [u32; 8] = [0x42415345, 1, 1, 0, 0, 0, 0, 0];

const SECOND: [u32; 8] = [0x42415345, 2, 1, 0, 0, 0, 0, 0];

const THIRD: [u32; 8] = [0x42415345, 3, 1, 0, 0, 0, 0, 0];

const FOURTH: [u32; 8] = [0x42415345, 4, 1, 0, 0, 0, 0, 0];

const NEXT: [u32; 8] = [0x42415345, 1, 2, 0, 0, 0, 0, 0];

/// The attributes of a directory that is made at the second 1, of index 1.
const DIRECTORY: [u32; 17] = [
    2, 0x41ed, 2, 0xfffe, 0xfffe, 512, 4096, 0, 1, 1, 2, 1, 0, 1, 0, 1, 0,
];

/// "b" and "a" are made, and the root is listed.
pub static LISTED: [Exchange; 3] = [
    (14, &[&ROOT, &B, &KEEP], &[&OK, &FIRST, &DIRECTORY]),
    (
        9,
        &[&ROOT, &A, &KEEP],
        &[
            &OK,
            &SECOND,
            &[
                1, 0x81a4, 1, 0xfffe, 0xfffe, 0, 4096, 0, 0, 1, 3, 2, 0, 2, 0, 2, 0,
            ],
        ],
    ),
    (
        16,
        &[&ROOT, &[0, 4096]],
        &[
            &OK,
            &[1, 1, 1, 0x2e000000, 1],
            &[1, 1, 2, 0x2e2e0000, 2],
            &[1, 3, 1, 0x61000000, 3],
            &[1, 2, 1, 0x62000000, 4],
            &[0, 1],
        ],
    ),
];

/// The attributes of a file of 8,292 bytes in 17 blocks.
const LONG_FILE: [u32; 17] = [
    1, 0x81a4, 1, 0xfffe, 0xfffe, 0x2064, 4096, 0, 0x11, 1, 2, 1, 0, 2, 0, 2, 0,
];

/// 8,192 bytes are written behind a gap of 100, which reads as zeros.
pub static GAP: [Exchange; 3] = [
    (
        9,
        &[&ROOT, &A, &KEEP],
        &[
            &OK,
            &FIRST,
            &[
                1, 0x81a4, 1, 0xfffe, 0xfffe, 0, 4096, 0, 0, 1, 2, 1, 0, 1, 0, 1, 0,
            ],
        ],
    ),
    (
        8,
        &[&FIRST, &[0, 100, 0, 8192], &[0x07070707; 2048]],
        &[&OK, &LONG_FILE],
    ),
    (
        6,
        &[&FIRST, &[0, 100, 0]],
        &[&OK, &LONG_FILE, &[100], &[0; 25]],
    ),
];

/// The attributes of a file of three names and the bytes "hello".
const THREE_NAMES: [u32; 17] = [
    1, 0x81a4, 3, 0xfffe, 0xfffe, 5, 4096, 0, 1, 1, 4, 3, 0, 7, 0, 7, 0,
];

/// "d" with "e" in it, and a file with the names "f", "g" and "d/h", which is written and read. A link "s" to "d/g" is
/// made beside it.
pub static NAMED_THRICE: [Exchange; 10] = [
    (14, &[&ROOT, &D, &KEEP], &[&OK, &FIRST, &DIRECTORY]),
    (
        14,
        &[&FIRST, &E, &KEEP],
        &[
            &OK,
            &SECOND,
            &[
                2, 0x41ed, 2, 0xfffe, 0xfffe, 512, 4096, 0, 1, 1, 3, 2, 0, 2, 0, 2, 0,
            ],
        ],
    ),
    (
        9,
        &[&ROOT, &F, &KEEP],
        &[
            &OK,
            &THIRD,
            &[
                1, 0x81a4, 1, 0xfffe, 0xfffe, 0, 4096, 0, 0, 1, 4, 3, 0, 3, 0, 3, 0,
            ],
        ],
    ),
    (12, &[&THIRD, &ROOT, &G], &[&OK]),
    (12, &[&THIRD, &FIRST, &H], &[&OK]),
    (13, &[&ROOT, &S, &PATH, &KEEP], &[&OK]),
    (8, &[&THIRD, &[0, 0, 0], &HELLO], &[&OK, &THREE_NAMES]),
    (0, &[], &[]),
    (6, &[&THIRD, &[0, 100, 0]], &[&OK, &THREE_NAMES, &HELLO]),
    (5, &[&FOURTH], &[&OK, &PATH]),
];

/// "d", and a file "f" that is cut and becomes "d/g". All is removed again, and an index is taken once more with the
/// next generation.
pub static GONE: [Exchange; 10] = [
    (14, &[&ROOT, &D, &KEEP], &[&OK, &FIRST, &DIRECTORY]),
    (
        9,
        &[&ROOT, &F, &KEEP],
        &[
            &OK,
            &SECOND,
            &[
                1, 0x81a4, 1, 0xfffe, 0xfffe, 0, 4096, 0, 0, 1, 3, 2, 0, 2, 0, 2, 0,
            ],
        ],
    ),
    (
        2,
        &[&SECOND, &[0o600, !0, !0, 1000, !0, !0, !0, !0]],
        &[
            &OK,
            &[
                1, 0x8180, 1, 0xfffe, 0xfffe, 1000, 4096, 0, 2, 1, 3, 2, 0, 3, 0, 3, 0,
            ],
        ],
    ),
    (11, &[&ROOT, &F, &FIRST, &G], &[&OK]),
    (15, &[&ROOT, &D], &[&[66]]),
    (10, &[&FIRST, &G], &[&OK]),
    (15, &[&ROOT, &D], &[&OK]),
    (1, &[&FIRST], &[&[70]]),
    (
        9,
        &[&ROOT, &A, &KEEP],
        &[
            &OK,
            &NEXT,
            &[
                1, 0x81a4, 1, 0xfffe, 0xfffe, 0, 4096, 0, 0, 1, 2, 9, 0, 9, 0, 9, 0,
            ],
        ],
    ),
    (17, &[&ROOT], &[&OK, &[8192, 512, 128, 127, 127]]),
];
