//! What there is no room for, with the replies word for word: SETATTR 2, WRITE 8, CREATE 9, STATFS 17 (RFC 1094,
//! 2.2). The statuses are those of 2.3.1.

use super::session::{KEEP, OK, ROOT, Session, file, handle};
use std::test::Fail;

/// The name "a".
const A: [u32; 2] = [1, 0x61000000];

/// Names of one letter each.
const NAMES: [u32; 15] = [
    0x61000000, 0x62000000, 0x63000000, 0x64000000, 0x65000000, 0x66000000, 0x67000000, 0x68000000,
    0x69000000, 0x6a000000, 0x6b000000, 0x6c000000, 0x6d000000, 0x6e000000, 0x6f000000,
];

#[test]
fn the_sixteenth_entry_is_the_last(rt: HostRuntime) -> Result<(), Fail> {
    let alloc = rt.alloc();
    let mut s = Session::new(alloc, 65536);
    for i in 0..15usize {
        let n = i as u32 + 1;
        let new = file(n + 1, 1, 0, 0, [n, n, n]);
        s.nfs(
            alloc,
            9,
            &[&ROOT, &[1, NAMES[i]], &KEEP],
            &[&OK, &handle(n, 1), &new],
        )?;
    }
    s.nfs(alloc, 9, &[&ROOT, &[1, 0x7a000000], &KEEP], &[&[28]])?;
    s.runs(alloc)
}

#[test]
fn the_last_byte_in_use(rt: HostRuntime) -> Result<(), Fail> {
    let alloc = rt.alloc();
    let mut s = Session::new(alloc, 1024);
    let new = file(2, 1, 0, 0, [1, 1, 1]);
    let full = file(2, 1, 512, 1, [1, 2, 2]);
    s.nfs(alloc, 9, &[&ROOT, &A, &KEEP], &[&OK, &handle(1, 1), &new])?;
    s.nfs(
        alloc,
        8,
        &[&handle(1, 1), &[0, 0, 0, 512], &[0x2a2a2a2a; 128]],
        &[&OK, &full],
    )?;
    s.nfs(
        alloc,
        8,
        &[&handle(1, 1), &[0, 512, 0, 1, 0x2a000000]],
        &[&[28]],
    )?;
    s.runs(alloc)
}

#[test]
fn the_last_byte_of_the_largest_file(rt: HostRuntime) -> Result<(), Fail> {
    let alloc = rt.alloc();
    let mut s = Session::new(alloc, 16777216);
    let new = file(2, 1, 0, 0, [1, 1, 1]);
    let set = file(2, 1, 1048576, 2048, [1, 2, 2]);
    let written = file(2, 1, 1048576, 2048, [1, 3, 3]);
    let size: [u32; 8] = [!0, !0, !0, 1048576, !0, !0, !0, !0];
    s.nfs(alloc, 9, &[&ROOT, &A, &KEEP], &[&OK, &handle(1, 1), &new])?;
    s.nfs(alloc, 2, &[&handle(1, 1), &size], &[&OK, &set])?;
    s.nfs(
        alloc,
        8,
        &[&handle(1, 1), &[0, 1048575, 0, 1, 0x2a000000]],
        &[&OK, &written],
    )?;
    s.nfs(
        alloc,
        8,
        &[&handle(1, 1), &[0, 1048576, 0, 1, 0x2a000000]],
        &[&[27]],
    )?;
    s.runs(alloc)
}

#[test]
fn a_name_uses_a_block(rt: HostRuntime) -> Result<(), Fail> {
    let alloc = rt.alloc();
    let mut s = Session::new(alloc, 65536);
    let new = file(2, 1, 0, 0, [1, 1, 1]);
    s.nfs(alloc, 9, &[&ROOT, &A, &KEEP], &[&OK, &handle(1, 1), &new])?;
    s.nfs(alloc, 17, &[&ROOT], &[&OK, &[8192, 512, 128, 127, 127]])?;
    s.runs(alloc)
}
