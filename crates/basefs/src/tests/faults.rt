//! Several replicas, of which the servers of one or two fail. The calls are CREATE 9, WRITE 8, READ 6, MKDIR 14,
//! SYMLINK 13, READLINK 5, LINK 12, RENAME 11, SETATTR 2, LOOKUP 4, READDIR 16, REMOVE 10, RMDIR 15 and GETATTR 1
//! (RFC 1094, 2.2).

ghost use Rattle.std.specs.Prelude.{◌<◌, ◌≤◌};

use super::session::{Fault, KEEP, OK, ROOT, Root, Session, directory, file, handle};
use flaky_server::SrvCall;
use std::alloc::{AllocError, Global};
use std::test::Fail;

/// The name "a".
const A: [u32; 2] = [1, 0x61000000];

/// The bytes "hello" behind their number.
const HELLO: [u32; 3] = [5, 0x68656c6c, 0x6f000000];

/// A file is made, written and read.
fn a_file(alloc: Global) -> Result<Session, AllocError> {
    let mut s = Session::new(alloc, 65536);
    let a = handle(1, 1);
    let made = file(2, 1, 0, 0, [1, 1, 1]);
    let written = file(2, 1, 5, 1, [1, 2, 2]);
    s.nfs(alloc, 9, &[&ROOT, &A, &KEEP], &[&OK, &a, &made])?;
    s.nfs(alloc, 8, &[&a, &[0, 0, 0], &HELLO], &[&OK, &written])?;
    s.nfs(alloc, 6, &[&a, &[0, 5, 0]], &[&OK, &written, &HELLO])?;
    Ok(s)
}

/// Kinds of calls, each with the record of that log in which a server gets the first of them. The start wipes the
/// server, makes two directories in it, and sets their attributes.
const CALLS: [(SrvCall, u64); 6] = [
    (SrvCall::Wipe, 0),
    (SrvCall::Mkdir, 0),
    (SrvCall::SetAttr, 0),
    (SrvCall::Create, 2),
    (SrvCall::Write, 4),
    (SrvCall::Read, 6),
];

/// The first call of a kind fails, and each behind it.
fn first_of(call: SrvCall, event: u64) -> Fault {
    Fault {
        call,
        number: 1,
        event,
    }
}

/// The servers of a replica and of the next one fail, each at each kind of call, or that of the first alone.
fn run_all_faults(alloc: Global, s: &Session, f: u32, first: usize) -> Result<(), Fail>
    requires few { f ≤ 2 }
    requires replica { first < 7 }
{
    let count = 3 * f as usize + 1;
    for (call, event) in CALLS {
        let mut faults = [None; 7];
        faults[first] = Some(first_of(call, event));
        s.runs_with(alloc, f, &faults[..count])?;
        for (call, event) in CALLS {
            faults[(first + 1) % count] = Some(first_of(call, event));
            s.runs_with(alloc, f, &faults[..count])?;
        }
    }
    Ok(())
}

/// The first replica and the last are among those that fail.
#[test]
fn servers_fail_at_each_kind_of_call(rt: HostRuntime) -> Result<(), Fail> {
    let s = a_file(rt.alloc())?;
    for (f, first) in [(0u32, 0usize), (1, 0), (1, 1), (1, 3), (2, 2), (2, 6)] {
        run_all_faults(rt.alloc(), &s, f, first)?;
    }
    Ok(())
}

/// Each kind of call that a request can bring about, and that of the start.
const KINDS: [SrvCall; 16] = [
    SrvCall::Attr,
    SrvCall::SetAttr,
    SrvCall::Read,
    SrvCall::ReadLink,
    SrvCall::Write,
    SrvCall::SetSize,
    SrvCall::Lookup,
    SrvCall::List,
    SrvCall::Create,
    SrvCall::Mkdir,
    SrvCall::Symlink,
    SrvCall::Link,
    SrvCall::Remove,
    SrvCall::Rmdir,
    SrvCall::Rename,
    SrvCall::Wipe,
];

/// The names "b", "c", "d" and "l".
const B: [u32; 2] = [1, 0x62000000];

const C: [u32; 2] = [1, 0x63000000];

const D: [u32; 2] = [1, 0x64000000];

const L: [u32; 2] = [1, 0x6c000000];

/// A sattr that sets a size of two bytes.
const SIZE_TWO: [u32; 8] = [!0, !0, !0, 2, !0, !0, !0, !0];

/// The entries ".", "..", "a", "d" and "l" of a list, and its end.
const ROWS: [u32; 27] = [
    1, 1, 1, 0x2e000000, 1, 1, 1, 2, 0x2e2e0000, 2, 1, 2, 1, 0x61000000, 3, 1, 3, 1, 0x64000000, 4,
    1, 4, 1, 0x6c000000, 5, 0, 1,
];

/// The roots behind the sixth and the twelfth of the calls below, as a script worked them out from the texts of entries
/// and nodes.
const ROOTS: [Root; 2] = [
    (
        6,
        "083af67d353208bf7bc4d4833cd70cd1b74204b215a9d992e6f05c42cb9038ce",
    ),
    (
        12,
        "8f6ae0e67a51530f0526544300a55d6969354ebda93b2559344ebc045c20b61e",
    ),
];

/// Calls that bring about each kind of call of a server.
fn all_kinds(alloc: Global) -> Result<Session, AllocError> {
    let mut s = a_file(alloc)?;
    let a = handle(1, 1);
    let d = handle(2, 1);
    let cut = file(2, 2, 2, 1, [1, 9, 9]);
    s.nfs(alloc, 14, &[&ROOT, &D, &KEEP], &[&OK, &d, &directory(3, 4)])?;
    s.nfs(alloc, 13, &[&ROOT, &L, &A, &KEEP], &[&OK])?;
    s.nfs(alloc, 5, &[&handle(3, 1)], &[&OK, &A])?;
    s.nfs(alloc, 12, &[&a, &ROOT, &B], &[&OK])?;
    s.nfs(alloc, 11, &[&ROOT, &B, &d, &C], &[&OK])?;
    s.nfs(alloc, 2, &[&a, &SIZE_TWO], &[&OK, &cut])?;
    s.nfs(alloc, 4, &[&d, &C], &[&OK, &a, &cut])?;
    s.nfs(alloc, 16, &[&ROOT, &[0, 4096]], &[&OK, &ROWS])?;
    s.nfs(alloc, 10, &[&d, &C], &[&OK])?;
    s.nfs(alloc, 15, &[&ROOT, &D], &[&OK])?;
    s.nfs(alloc, 10, &[&ROOT, &A], &[&OK])?;
    s.nfs(alloc, 1, &[&a], &[&[70]])?;
    Ok(s)
}

/// The server of a replica fails at the first six calls of a kind in turn, and then at each eighth. Of four replicas
/// one fails at the odd ones of these, and of seven at the second. Whether there is such a call where there is one
/// replica.
fn fails_at_each(alloc: Global, s: &Session, call: SrvCall) -> Result<bool, Fail> {
    for at in 1..=30u64 {
        let number = if at <= 6 { at } else { 8 * at - 48 };
        if !s.fails_at(alloc, 0, 0, call, number)? {
            return Ok(at > 1);
        }
        if at % 2 == 1 {
            s.fails_at(alloc, 1, at as usize % 4, call, number)?;
        }
        if at == 2 {
            s.fails_at(alloc, 2, 5, call, number)?;
        }
    }
    Err("more than 192 calls of a kind".into())
}

/// With a checkpoint each sixth call, which reads the objects that were told: there servers fail too.
#[test]
fn servers_fail_at_each_call(rt: HostRuntime) -> Result<(), Fail> {
    let mut s = all_kinds(rt.alloc())?;
    s.runs(rt.alloc())?;
    s.set_checkpoints(rt.alloc(), 6, &ROOTS)?;
    s.runs(rt.alloc())?;
    for call in KINDS {
        assert!(rt; fails_at_each(rt.alloc(), &s, call)?, "{call:?}");
    }
    Ok(())
}
