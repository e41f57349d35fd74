//! Records that give a replica up. Two equal words of four replicas decide a place, and three equal roots make it
//! stable.

use super::session::{Fault, bench_of};
use super::{END, REBOOT, REPLY, RUN, RUN_ALL, WHOLE, header, log_of, null_request, run_bench};
use crate::status::Status;
use flaky_server::SrvCall;
use inode_server::InodeServer;
use log_server::LogServer;
use outside::MemMedium;
use path_server::PathServer;
use server_trait::{Bench, FaultPoint, ServerLimits, Srv};
use std::alloc::Global;
use std::test::Fail;

const ROGUE: u32 = 6;

const SKIP: u32 = 7;

const LIE_REPLY: u32 = 9;

const LIE_ROOT: u32 = 10;

const WIPE: u32 = 12;

/// The line of the stable place 1, where nothing was made.
const STABLE: &str = "stable 1 8c5087b7545319bb98efafcc7a88977d0082f590f2a042f3bbcbb12ddc9bbb82\n";

/// The line of a symbolic link that is made at place 1, with the xid 1.
const LINKED: &str = "reply 1 00000001000000010000000000000000000000000000000000000000\n";

/// A request that calls SYMLINK of "l", to "a", in the root.
const MAKE_LINK: [u32; 35] = [
    1, 0, 1, 0, 120, 1, 0, 2, 100003, 2, 13, 0, 0, 0, 0, 0x42415345, 0, 1, 0, 0, 0, 0, 0, 1,
    0x6c000000, 1, 0x61000000, !0, !0, !0, !0, !0, !0, !0, !0,
];

/// Whether a log of these parts, run over four servers of which the first have these faults, is run to its end, prints
/// this text, and meets these fault points.
fn runs(
    alloc: Global,
    k: u32,
    parts: &[&[u32]],
    faults: &[Option<Fault>],
    text: &[&str],
    points: &[FaultPoint],
) -> Result<bool, Fail> {
    let mut log = log_of(alloc, &[&header(1, k)])?;
    log.extend_from_slice(&log_of(alloc, parts)?)?;
    let mut awaited: Vec<u8> = Vec::new(alloc);
    for line in text {
        awaited.extend_from_slice(line.as_bytes())?;
    }
    let mut bench = bench_of(alloc, 4, faults)?;
    let (status, printed) = run_bench(alloc, log, WHOLE, &mut bench)?;
    Ok(status == Status::Done && printed == awaited && bench.downs.as_slice() == points)
}

/// A request that calls the procedure 0 with the xid 1, these words behind it, and what is printed.
fn prints(alloc: Global, k: u32, words: &[u32], text: &[&str]) -> Result<bool, Fail> {
    runs(alloc, k, &[&null_request(1), words], &[], text, &[])
}

/// Of two words that would decide, one is withdrawn. Those of others stay, and what is decided stays so.
#[test]
fn words_are_withdrawn(rt: HostRuntime) -> Result<(), Fail> {
    let alloc = rt.alloc();
    let alone = "at 0 rebuilding\nat 1 1\nat 2 0\nat 3 0\n";
    assert!(rt; prints(alloc, 4, &[RUN, 0, REBOOT, 0, RUN, 1, END], &[alone])?);
    let two = "at 0 rebuilding\nat 1 1\nat 2 1\nat 3 0\n";
    assert!(rt;
        prints(
            alloc,
            4,
            &[RUN, 0, REBOOT, 0, RUN, 1, RUN, 2, END],
            &[REPLY, two]
        )?
    );
    assert!(rt; prints(alloc, 4, &[RUN, 1, REBOOT, 0, RUN, 2, END], &[REPLY, two])?);
    let decided = [RUN, 0, RUN, 1, REBOOT, 0, REBOOT, 1, RUN, 2, RUN, 3, END];
    let both = "at 0 rebuilding\nat 1 rebuilding\nat 2 1\nat 3 1\n";
    assert!(rt; prints(alloc, 4, &decided, &[REPLY, both])?);
    Ok(())
}

/// A lie goes with the words: the second replica that says so is outvoted.
#[test]
fn a_lie_is_withdrawn(rt: HostRuntime) -> Result<(), Fail> {
    let words = [
        LIE_REPLY, 0, 1, 0, RUN, 0, REBOOT, 0, LIE_REPLY, 1, 1, 0, RUN, 1, RUN, 2, RUN, 3, END,
    ];
    let ends = "at 0 rebuilding\nat 1 1\nat 2 1\nat 3 1\n";
    assert!(rt; prints(rt.alloc(), 4, &words, &[REPLY, ends])?);
    Ok(())
}

/// Of three roots that would make a place stable, one is withdrawn. A stable place stays so.
#[test]
fn root_words_are_withdrawn(rt: HostRuntime) -> Result<(), Fail> {
    let alloc = rt.alloc();
    let two = [RUN, 0, RUN, 1, REBOOT, 0, RUN, 2, END];
    let ends = "at 0 rebuilding\nat 1 1\nat 2 1\nat 3 0\n";
    assert!(rt; prints(alloc, 1, &two, &[REPLY, ends])?);
    let three = [RUN, 0, RUN, 1, REBOOT, 0, RUN, 2, RUN, 3, END];
    let ends = "at 0 rebuilding\nat 1 1\nat 2 1\nat 3 1\n";
    assert!(rt; prints(alloc, 1, &three, &[REPLY, STABLE, ends])?);
    let stable = [RUN_ALL, REBOOT, 0, RUN_ALL, END];
    assert!(rt; prints(alloc, 1, &stable, &[REPLY, STABLE, ends])?);
    Ok(())
}

/// A replica that is being rebuilt has no turn and can't be harmed. It can be rebooted again.
#[test]
fn a_replica_that_is_rebuilt_is_not_live(rt: HostRuntime) -> Result<(), Fail> {
    let alloc = rt.alloc();
    let idle = [
        REBOOT, 0, RUN, 0, ROGUE, 0, 1, 0, 0, SKIP, 0, LIE_REPLY, 0, 1, 0, LIE_ROOT, 0, 1, 0, 0, 0,
        0, 0, 0, 0, 0, WIPE, 0, REBOOT, 0, RUN_ALL, END,
    ];
    let line = "idle 0 not-live\n";
    let ends = "at 0 rebuilding\nat 1 1\nat 2 1\nat 3 1\n";
    assert!(rt;
        prints(
            alloc,
            4,
            &idle,
            &[line, line, line, line, line, line, REPLY, ends]
        )?
    );
    let all = [REBOOT, 3, REBOOT, 2, REBOOT, 1, REBOOT, 0, RUN_ALL, END];
    let ends = "at 0 rebuilding\nat 1 rebuilding\nat 2 rebuilding\nat 3 rebuilding\n";
    assert!(rt; prints(alloc, 4, &all, &[ends])?);
    Ok(())
}

/// The fault point of a replica in a record.
pub fn point(event: u64, stage: u64, replica: u32) -> FaultPoint {
    FaultPoint {
        event,
        stage,
        replica,
    }
}

/// The call of a kind with this number fails, and each behind it.
pub fn from_number(call: SrvCall, number: u64) -> Option<Fault> {
    Some(Fault {
        call,
        number,
        event: 0,
    })
}

/// The server fails at each reboot. The words are withdrawn all the same, and a replica that is down is wiped in place
/// of a reboot.
#[test]
fn a_server_fails_in_its_reboot(rt: HostRuntime) -> Result<(), Fail> {
    let words = [
        RUN, 0, REBOOT, 0, RUN, 1, RUN, 0, REBOOT, 0, REBOOT, 0, RUN, 2, END,
    ];
    let text = [
        "down 0\nidle 0 not-live\ndown 0\n",
        REPLY,
        "at 0 down\nat 1 1\nat 2 1\nat 3 0\n",
    ];
    let faults = [from_number(SrvCall::Reboot, 1)];
    let points = [point(3, 0, 0), point(7, 0, 0)];
    let parts: [&[u32]; 2] = [&null_request(1), &words];
    assert!(rt; runs(rt.alloc(), 4, &parts, &faults, &text, &points)?);
    Ok(())
}

/// The server fails as its objects are read again: nothing read the link before.
#[test]
fn a_server_fails_as_its_objects_are_read(rt: HostRuntime) -> Result<(), Fail> {
    let text = [
        LINKED,
        "down 1\nidle 1 not-live\nat 0 1\nat 1 down\nat 2 1\nat 3 1\n",
    ];
    let faults = [None, from_number(SrvCall::ReadLink, 1)];
    let points = [point(3, 0, 1)];
    let parts: [&[u32]; 2] = [&MAKE_LINK, &[RUN_ALL, REBOOT, 1, RUN, 1, END]];
    assert!(rt; runs(rt.alloc(), 1024, &parts, &faults, &text, &points)?);
    Ok(())
}

/// A replica that is down is wiped, and is being rebuilt from then on.
#[test]
fn a_replica_that_is_down_is_wiped(rt: HostRuntime) -> Result<(), Fail> {
    let text = [
        "down 0\n",
        LINKED,
        "idle 0 not-live\nat 0 rebuilding\nat 1 1\nat 2 1\nat 3 1\n",
    ];
    let faults = [from_number(SrvCall::Symlink, 1)];
    let points = [point(2, 1, 0)];
    let parts: [&[u32]; 2] = [
        &MAKE_LINK,
        &[RUN_ALL, REBOOT, 0, RUN, 0, RUN_ALL, REBOOT, 0, END],
    ];
    assert!(rt; runs(rt.alloc(), 1024, &parts, &faults, &text, &points)?);
    Ok(())
}

/// The start wipes each server once. Here each later wipe fails: that of its record, and that of the reboot.
#[test]
fn a_server_fails_as_it_is_wiped(rt: HostRuntime) -> Result<(), Fail> {
    let text = [
        "down 0\ndown 0\nidle 0 not-live\n",
        REPLY,
        "at 0 down\nat 1 1\nat 2 1\nat 3 1\n",
    ];
    let faults = [from_number(SrvCall::Wipe, 2)];
    let points = [point(2, 0, 0), point(3, 0, 0)];
    let parts: [&[u32]; 2] = [
        &null_request(1),
        &[WIPE, 0, REBOOT, 0, RUN, 0, RUN_ALL, END],
    ];
    assert!(rt; runs(rt.alloc(), 4, &parts, &faults, &text, &points)?);
    Ok(())
}

/// What a server holds that is large enough for these logs.
const SMALL: ServerLimits = ServerLimits {
    nodes: 19,
    bytes: 1_114_112,
};

/// A server of inodes, one with a log, or one of whole paths. The media have as many blocks as these need.
pub fn server_of(alloc: Global, kind: u32) -> Result<Srv, Fail> {
    let medium = MemMedium::new(alloc, 8_984, Vec::new(alloc));
    match kind {
        0 => match InodeServer::new(alloc, medium, SMALL) {
            Ok(server) => Ok(Box::new(alloc, server)?),
            Err(_) => Err("no memory".into()),
        },
        1 => Ok(Box::new(alloc, LogServer::new(alloc, medium, SMALL))?),
        _ => match PathServer::new(alloc, SMALL) {
            Ok(server) => Ok(Box::new(alloc, server)?),
            Err(_) => Err("no memory".into()),
        },
    }
}

/// Four servers of three kinds hold a link, and each of them is rebooted twice.
#[test]
fn servers_of_each_kind_are_rebooted(rt: HostRuntime) -> Result<(), Fail> {
    let alloc = rt.alloc();
    let words = [
        RUN_ALL, REBOOT, 0, REBOOT, 1, REBOOT, 2, REBOOT, 3, REBOOT, 0, REBOOT, 1, REBOOT, 2, END,
    ];
    let log = log_of(alloc, &[&header(1, 1024), &MAKE_LINK, &words])?;
    let servers = vec![in alloc;
        server_of(alloc, 0)?,
        server_of(alloc, 1)?,
        server_of(alloc, 2)?,
        server_of(alloc, 0)?,
    ]?;
    let mut bench = Bench::new(alloc, servers);
    let (status, printed) = run_bench(alloc, log, WHOLE, &mut bench)?;
    let ends = "at 0 rebuilding\nat 1 rebuilding\nat 2 rebuilding\nat 3 rebuilding\n";
    let text = format!(in alloc; "{LINKED}{ends}")?;
    assert_eq!(rt; status, Status::Done);
    assert_eq!(rt; printed.as_slice(), text.as_bytes());
    assert_eq!(rt; bench.downs.len(), 0);
    Ok(())
}
