//! Names that are given, taken and moved, with their replies word for word: GETATTR 1, LOOKUP 4, READ 6, WRITE 8,
//! CREATE 9, REMOVE 10, RENAME 11, LINK 12, MKDIR 14, READDIR 16 (RFC 1094, 2.2), and MOUNT (RFC 1094, A.5). The
//! statuses are those of 2.3.1.

use super::session::{KEEP, OK, ROOT, Session, directory, file, handle};
use std::test::Fail;

/// The names "a", "b", "d", "e", "f", "g", "h", "q", "x", and ".".
const A: [u32; 2] = [1, 0x61000000];

const B: [u32; 2] = [1, 0x62000000];

const D: [u32; 2] = [1, 0x64000000];

const E: [u32; 2] = [1, 0x65000000];

const F: [u32; 2] = [1, 0x66000000];

const G: [u32; 2] = [1, 0x67000000];

const H: [u32; 2] = [1, 0x68000000];

const Q: [u32; 2] = [1, 0x71000000];

const X: [u32; 2] = [1, 0x78000000];

const DOT: [u32; 2] = [1, 0x2e000000];

/// The entries ".", "..", "a" and "b" of a list, each with the word before it, its fileid, its name and its cookie.
const DOT_ROW: [u32; 5] = [1, 1, 1, 0x2e000000, 1];

const DOTS_ROW: [u32; 5] = [1, 1, 2, 0x2e2e0000, 2];

const A_ROW: [u32; 5] = [1, 3, 1, 0x61000000, 3];

const B_ROW: [u32; 5] = [1, 2, 1, 0x62000000, 4];

#[test]
fn a_list_is_cut_where_its_bytes_end(rt: HostRuntime) -> Result<(), Fail> {
    let alloc = rt.alloc();
    let mut s = Session::new(alloc, 65536);
    s.nfs(
        alloc,
        14,
        &[&ROOT, &B, &KEEP],
        &[&OK, &handle(1, 1), &directory(2, 1)],
    )?;
    s.nfs(
        alloc,
        9,
        &[&ROOT, &A, &KEEP],
        &[&OK, &handle(2, 1), &file(3, 1, 0, 0, [2, 2, 2])],
    )?;
    let all: [&[u32]; 6] = [&OK, &DOT_ROW, &DOTS_ROW, &A_ROW, &B_ROW, &[0, 1]];
    s.nfs(alloc, 16, &[&ROOT, &[0, 4096]], &all)?;
    s.nfs(alloc, 16, &[&ROOT, &[0, 0]], &[&OK, &[0, 0]])?;
    s.nfs(alloc, 16, &[&ROOT, &[0, 47]], &[&OK, &DOT_ROW, &[0, 0]])?;
    s.nfs(
        alloc,
        16,
        &[&ROOT, &[0, 48]],
        &[&OK, &DOT_ROW, &DOTS_ROW, &[0, 0]],
    )?;
    s.nfs(alloc, 16, &[&ROOT, &[4, 4096]], &[&OK, &[0, 1]])?;
    s.nfs(alloc, 16, &[&ROOT, &[9, 4096]], &[&OK, &[0, 1]])?;
    s.runs(alloc)
}

#[test]
fn a_gap_before_a_write_is_zeros(rt: HostRuntime) -> Result<(), Fail> {
    let alloc = rt.alloc();
    let mut s = Session::new(alloc, 65536);
    let new = file(2, 1, 0, 0, [1, 1, 1]);
    let written = file(2, 1, 8292, 17, [1, 2, 2]);
    s.nfs(alloc, 9, &[&ROOT, &A, &KEEP], &[&OK, &handle(1, 1), &new])?;
    s.nfs(
        alloc,
        8,
        &[&handle(1, 1), &[0, 100, 0, 8192], &[0x2a2a2a2a; 2048]],
        &[&OK, &written],
    )?;
    s.nfs(
        alloc,
        6,
        &[&handle(1, 1), &[0, 100, 0]],
        &[&OK, &written, &[100], &[0; 25]],
    )?;
    s.runs(alloc)
}

#[test]
fn an_index_comes_back_with_another_generation(rt: HostRuntime) -> Result<(), Fail> {
    let alloc = rt.alloc();
    let mut s = Session::new(alloc, 65536);
    let first = file(2, 1, 0, 0, [1, 1, 1]);
    let second = file(2, 1, 0, 0, [3, 3, 3]);
    s.nfs(alloc, 9, &[&ROOT, &A, &KEEP], &[&OK, &handle(1, 1), &first])?;
    s.nfs(alloc, 10, &[&ROOT, &A], &[&OK])?;
    s.nfs(
        alloc,
        9,
        &[&ROOT, &A, &KEEP],
        &[&OK, &handle(1, 2), &second],
    )?;
    s.nfs(alloc, 1, &[&handle(1, 1)], &[&[70]])?;
    s.runs(alloc)
}

#[test]
fn names_move_or_are_refused(rt: HostRuntime) -> Result<(), Fail> {
    let alloc = rt.alloc();
    let mut s = Session::new(alloc, 65536);
    let d = handle(1, 1);
    let made = directory(2, 1);
    let e = file(3, 1, 0, 0, [2, 2, 2]);
    let f = file(4, 1, 0, 0, [3, 3, 3]);
    let linked = file(4, 2, 0, 0, [3, 3, 4]);
    s.nfs(alloc, 14, &[&ROOT, &D, &KEEP], &[&OK, &d, &made])?;
    s.nfs(alloc, 9, &[&d, &E, &KEEP], &[&OK, &handle(2, 1), &e])?;
    s.nfs(alloc, 9, &[&ROOT, &F, &KEEP], &[&OK, &handle(3, 1), &f])?;
    s.nfs(alloc, 12, &[&handle(3, 1), &ROOT, &G], &[&OK])?;
    s.nfs(alloc, 11, &[&ROOT, &F, &ROOT, &F], &[&OK])?;
    s.nfs(alloc, 11, &[&ROOT, &F, &ROOT, &G], &[&OK])?;
    s.nfs(alloc, 4, &[&ROOT, &F], &[&OK, &handle(3, 1), &linked])?;
    s.nfs(alloc, 4, &[&ROOT, &G], &[&OK, &handle(3, 1), &linked])?;
    s.nfs(alloc, 11, &[&ROOT, &F, &ROOT, &D], &[&[21]])?;
    s.nfs(alloc, 11, &[&ROOT, &D, &ROOT, &F], &[&[20]])?;
    let h = directory(5, 11);
    s.nfs(alloc, 14, &[&ROOT, &H, &KEEP], &[&OK, &handle(4, 1), &h])?;
    s.nfs(alloc, 11, &[&ROOT, &H, &ROOT, &D], &[&[66]])?;
    s.nfs(alloc, 11, &[&ROOT, &D, &d, &X], &[&[13]])?;
    s.nfs(alloc, 11, &[&ROOT, &DOT, &ROOT, &X], &[&[1]])?;
    s.nfs(alloc, 11, &[&ROOT, &Q, &ROOT, &X], &[&[2]])?;
    s.runs(alloc)
}

/// The paths "/export", "/" and "/usr".
const EXPORT: [u32; 3] = [7, 0x2f657870, 0x6f727400];

const SLASH: [u32; 2] = [1, 0x2f000000];

const USR: [u32; 2] = [4, 0x2f757372];

#[test]
fn the_root_is_mounted(rt: HostRuntime) -> Result<(), Fail> {
    let alloc = rt.alloc();
    let mut s = Session::new(alloc, 65536);
    s.mount(alloc, 0, &[], &[])?;
    s.mount(alloc, 1, &[&EXPORT], &[&OK, &ROOT])?;
    s.mount(alloc, 1, &[&SLASH], &[&OK, &ROOT])?;
    s.mount(alloc, 1, &[&USR], &[&[2]])?;
    s.mount(alloc, 2, &[], &[&[0]])?;
    s.mount(alloc, 3, &[&EXPORT], &[])?;
    s.mount(alloc, 4, &[], &[])?;
    s.mount(alloc, 5, &[], &[&[1], &EXPORT, &[0, 0]])?;
    let root: [u32; 17] = [2, 0x41ff, 2, 0, 0, 512, 4096, 0, 1, 1, 1, 0, 0, 0, 0, 0, 0];
    s.nfs(alloc, 1, &[&ROOT], &[&OK, &root])?;
    s.runs(alloc)
}
