ghost use Rattle.std.specs.Prelude.{◌≤◌};
ghost use Rattle.nfs2_results.specs.Spelling.{HasSpelling};

use crate::{ResErr, read_result, write_result};
use nfs2_types::stat::STALE;
use nfs2_types::{Blob, Fattr, ListEntry, Listing, NfsResult};
use std::alloc::Global;
use std::process::Abort;
use std::test::Fail;
use xdr_core::{Writer, XdrErr, XdrKind};

const FATTR: Fattr = Fattr {
    ftype: 1,
    mode: 2,
    nlink: 3,
    uid: 4,
    gid: 5,
    size: 6,
    blocksize: 7,
    rdev: 8,
    blocks: 9,
    fsid: 10,
    fileid: 11,
    atime_secs: 12,
    atime_micros: 13,
    mtime_secs: 14,
    mtime_micros: 15,
    ctime_secs: 16,
    ctime_micros: 17,
};

/// The words from 1 to 17, which are those of `FATTR`.
const WORDS: [u8; 68] = [
    0, 0, 0, 1, 0, 0, 0, 2, 0, 0, 0, 3, 0, 0, 0, 4, 0, 0, 0, 5, 0, 0, 0, 6, 0, 0, 0, 7, 0, 0, 0, 8,
    0, 0, 0, 9, 0, 0, 0, 10, 0, 0, 0, 11, 0, 0, 0, 12, 0, 0, 0, 13, 0, 0, 0, 14, 0, 0, 0, 15, 0, 0,
    0, 16, 0, 0, 0, 17,
];

/// Where things stand in the bytes of a result: the last item; an item with padding, and a byte of that padding;
/// the last bool. 0 where there is none.
#[derive(Clone, Copy)]
struct Marks {
    last: usize,
    padded: usize,
    pad: usize,
    boolean: usize,
}

const PLAIN: Marks = Marks {
    last: 0,
    padded: 0,
    pad: 0,
    boolean: 0,
};

/// A copy of the bytes with one of them changed.
fn changed(alloc: Global, bytes: &[u8], at: usize, value: u8) -> Result<Vec<u8>, Fail> {
    let mut copy = Vec::from_slice(alloc, bytes)?;
    if at >= copy.len() {
        return Err("no such byte".into());
    }
    copy[at] = value;
    Ok(copy)
}

/// The bytes are refused, with the place and the kind of the first wrong item.
fn refused(rt: &impl Abort, alloc: Global, proc: u32, bytes: &[u8], at: usize, kind: XdrKind)
    requires { proc ≤ 17 }
{
    let found = read_result(alloc, proc, bytes).err();
    assert!(rt;
        found == Some(ResErr::Xdr(XdrErr { at, kind })),
        "procedure {proc}"
    );
}

/// A result that is spelled so is refused with a byte more, a byte less, a byte of padding that is not zero,
/// and a bool of more than one.
fn spoiled(rt: &impl Abort, alloc: Global, proc: u32, bytes: &[u8], at: Marks) -> Result<(), Fail>
    requires { proc ≤ 17 }
{
    let mut more = Vec::from_slice(alloc, bytes)?;
    more.push(0)?;
    refused(rt, alloc, proc, &more, bytes.len(), XdrKind::Extra);
    if !bytes.is_empty() {
        let less = &bytes[..bytes.len() - 1];
        refused(rt, alloc, proc, less, at.last, XdrKind::Short);
    }
    if at.pad > 0 {
        let text = changed(alloc, bytes, at.pad, 1)?;
        refused(rt, alloc, proc, &text, at.padded, XdrKind::BadPad);
    }
    if at.boolean > 0 {
        let text = changed(alloc, bytes, at.boolean, 1)?;
        refused(rt, alloc, proc, &text, at.boolean, XdrKind::BadBool);
    }
    Ok(())
}

/// The value is written as these pieces, and they are read as the value; spoiled they are refused.
fn both_ways(
    rt: &impl Abort,
    alloc: Global,
    proc: u32,
    value: &NfsResult,
    pieces: &[&[u8]],
    at: Marks,
) -> Result<(), Fail>
    requires few { proc ≤ 17 }
    requires spelled { HasSpelling value.now }
{
    let mut bytes = Vec::new(alloc);
    for piece in pieces {
        bytes.extend_from_slice(piece)?;
    }
    let mut w = Writer::new(alloc);
    write_result(&mut w, value)?;
    assert_eq!(rt;
        w.into_bytes().as_slice(),
        bytes.as_slice(),
        "procedure {proc}"
    );
    match read_result(alloc, proc, &bytes) {
        Ok(found) => assert!(rt; found == *value, "procedure {proc}"),
        Err(_) => assert!(rt; false, "procedure {proc}"),
    }
    spoiled(rt, alloc, proc, &bytes, at)
}

/// The same for each of these procedures.
fn all_both_ways(
    rt: &impl Abort,
    alloc: Global,
    procs: &[u32],
    value: &NfsResult,
    pieces: &[&[u8]],
    at: Marks,
) -> Result<(), Fail>
    requires { HasSpelling value.now }
{
    for proc in procs {
        if *proc > 17 {
            return Err("no such procedure".into());
        }
        both_ways(rt, alloc, *proc, value, pieces, at)?;
    }
    Ok(())
}

const OK: [u8; 4] = [0, 0, 0, 0];

// RFC 1094, 2.2: NULL 0, ROOT 3 and WRITECACHE 7 have no result; REMOVE 10, RENAME 11, LINK 12, SYMLINK 13 and RMDIR 15
// have a status alone.
#[test]
fn stats(rt: HostRuntime) -> Result<(), Fail> {
    let alloc = rt.alloc();
    let nothing = NfsResult::Nothing;
    all_both_ways(&rt, alloc, &[0, 3, 7], &nothing, &[], PLAIN)?;
    let done = NfsResult::Done;
    all_both_ways(&rt, alloc, &[10, 11, 12, 13, 15], &done, &[&OK], PLAIN)
}

// RFC 1094, 2.2: a status other than OK has nothing after it, whatever the procedure.
#[test]
fn refusals(rt: HostRuntime) -> Result<(), Fail> {
    let stale = NfsResult::Refused(STALE);
    let procs = [1, 2, 4, 5, 6, 8, 9, 10, 11, 12, 13, 14, 15, 16, 17];
    all_both_ways(&rt, rt.alloc(), &procs, &stale, &[&[0, 0, 0, 70]], PLAIN)
}

// RFC 1094, 2.3.9 and 2.3.11: GETATTR 1, SETATTR 2 and WRITE 8 give attributes; LOOKUP 4, CREATE 9 and MKDIR 14 a
// handle before them. 2.2.18: STATFS 17 gives five words.
#[test]
fn attributes(rt: HostRuntime) -> Result<(), Fail> {
    let alloc = rt.alloc();
    let attr = NfsResult::Attr(FATTR);
    let at = Marks { last: 68, ..PLAIN };
    all_both_ways(&rt, alloc, &[1, 2, 8], &attr, &[&OK, &WORDS], at)?;
    let handle = [9; 32];
    let node = NfsResult::Node {
        handle,
        fattr: FATTR,
    };
    let at = Marks { last: 100, ..PLAIN };
    let pieces: [&[u8]; 3] = [&OK, &handle, &WORDS];
    all_both_ways(&rt, alloc, &[4, 9, 14], &node, &pieces, at)?;
    let space = NfsResult::Space {
        tsize: 1,
        bsize: 2,
        blocks: 3,
        bfree: 4,
        bavail: 5,
    };
    let at = Marks { last: 20, ..PLAIN };
    both_ways(&rt, alloc, 17, &space, &[&OK, &WORDS[..20]], at)
}

// RFC 1094, 2.2.6 and 2.2.7: READLINK 5 gives a text, and READ 6 bytes, each filled up to a multiple of four.
#[test]
fn texts(rt: HostRuntime) -> Result<(), Fail> {
    let alloc = rt.alloc();
    let path = NfsResult::Path(Blob::from_slice(alloc, b"a/b")?);
    let at = Marks {
        last: 4,
        padded: 4,
        pad: 11,
        boolean: 0,
    };
    both_ways(&rt, alloc, 5, &path, &[&OK, &[0, 0, 0, 3], b"a/b\0"], at)?;
    let content = NfsResult::Content {
        fattr: FATTR,
        bytes: Blob::from_slice(alloc, b"hello")?,
    };
    let pieces: [&[u8]; 4] = [&OK, &WORDS, &[0, 0, 0, 5], b"hello\0\0\0"];
    let at = Marks {
        last: 72,
        padded: 72,
        pad: 81,
        boolean: 0,
    };
    both_ways(&rt, alloc, 6, &content, &pieces, at)
}

// RFC 1094, 2.2.17: two entries, the word that ends them, and the end of the directory.
#[test]
fn entries(rt: HostRuntime) -> Result<(), Fail> {
    let alloc = rt.alloc();
    let first = ListEntry {
        fileid: 7,
        name: Blob::from_slice(alloc, b".")?,
        cookie: 1,
    };
    let second = ListEntry {
        fileid: 8,
        name: Blob::from_slice(alloc, b"file")?,
        cookie: 2,
    };
    let mut list = Vec::new(alloc);
    list.push(first)?;
    list.push(second)?;
    let value = NfsResult::Entries {
        entries: Listing::new(list),
        eof: true,
    };
    let one = [
        0, 0, 0, 1, 0, 0, 0, 7, 0, 0, 0, 1, b'.', 0, 0, 0, 0, 0, 0, 1,
    ];
    let two = [
        0, 0, 0, 1, 0, 0, 0, 8, 0, 0, 0, 4, b'f', b'i', b'l', b'e', 0, 0, 0, 2,
    ];
    let pieces: [&[u8]; 4] = [&OK, &one, &two, &[0, 0, 0, 0, 0, 0, 0, 1]];
    let at = Marks {
        last: 48,
        padded: 12,
        pad: 17,
        boolean: 48,
    };
    both_ways(&rt, alloc, 16, &value, &pieces, at)
}

// The place and the kind of the first wrong item.
#[test]
fn wrong_items(rt: HostRuntime) {
    let alloc = rt.alloc();
    let cut = read_result(alloc, 16, &[0, 0, 0, 0, 0, 0, 0, 1, 0, 0]);
    assert!(rt;
        cut.err()
            == Some(ResErr::Xdr(XdrErr {
                at: 8,
                kind: XdrKind::Short
            }))
    );
    let more = read_result(alloc, 10, &[0, 0, 0, 13, 0]);
    assert!(rt;
        more.err()
            == Some(ResErr::Xdr(XdrErr {
                at: 4,
                kind: XdrKind::Extra
            }))
    );
}
