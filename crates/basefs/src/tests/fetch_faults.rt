//! Servers that fail while a replica is rebuilt: those of its sources, and its own.

use super::objects::{
    AT_8, FIRST, MORE, REPLIES_4, REPLIES_6, REPLIES_8, REPLY_1, eight_print, prints,
};
use super::reboots::{from_number, point, server_of};
use super::session::bench_of;
use super::{END, FETCH, REBOOT, RUN_ALL, flaky};
use flaky_server::{Fail as FailAt, SrvCall};
use server_trait::Bench;
use std::test::Fail;

const WIPE: u32 = 12;

/// Replica 3 loses all and is rebuilt, by the records 11 to 13.
const REBUILD_3: [u32; 8] = [WIPE, 3, REBOOT, 3, FETCH, 3, 1000, END];

/// Sources fail as they read the link, the second time that they do: the first was at the checkpoint. It is entry 4,
/// before which five items are got.
#[test]
fn sources_fail_in_a_fetch(rt: HostRuntime) -> Result<(), Fail> {
    let alloc = rt.alloc();
    let fault = from_number(SrvCall::ReadLink, 2);
    let mut bench = bench_of(alloc, 4, &[fault])?;
    let text = "down 0\nrebuilt 3 8 1 5\nat 0 down\nat 1 8\nat 2 8\nat 3 8\n";
    assert!(rt; eight_print(alloc, &mut bench, &REBUILD_3, &[text])?);
    assert_eq!(rt; bench.downs.as_slice(), [point(13, 5, 0)].as_slice());
    let mut bench = bench_of(alloc, 4, &[fault, fault])?;
    let text = "down 0\ndown 1\nrebuilt 3 8 1 5\nat 0 down\nat 1 down\nat 2 8\nat 3 8\n";
    assert!(rt; eight_print(alloc, &mut bench, &REBUILD_3, &[text])?);
    assert_eq!(rt;
        bench.downs.as_slice(),
        [point(13, 5, 0), point(13, 5, 1)].as_slice()
    );
    let mut bench = bench_of(alloc, 4, &[fault, fault, fault])?;
    let text =
        "down 0\ndown 1\ndown 2\nfetching 3 8 5\nat 0 down\nat 1 down\nat 2 down\nat 3 rebuilding\n";
    assert!(rt; eight_print(alloc, &mut bench, &REBUILD_3, &[text])?);
    assert_eq!(rt;
        bench.downs.as_slice(),
        [point(13, 5, 0), point(13, 5, 1), point(13, 5, 2)].as_slice()
    );
    Ok(())
}

/// The stage of a fault counts the items of its record alone: two were got before it.
#[test]
fn a_source_fails_where_a_fetch_is_taken_up(rt: HostRuntime) -> Result<(), Fail> {
    let alloc = rt.alloc();
    let fault = from_number(SrvCall::ReadLink, 2);
    let mut bench = bench_of(alloc, 4, &[None, fault])?;
    let words = [
        WIPE, 0, REBOOT, 0, FETCH, 0, 2, FETCH, 0, 1000, FETCH, 1, 1, END,
    ];
    let text = "fetching 0 8 2\ndown 1\nrebuilt 0 8 1 5\nidle 1 not-rebuilding\n\
        at 0 8\nat 1 down\nat 2 8\nat 3 8\n";
    assert!(rt; eight_print(alloc, &mut bench, &words, &[text])?);
    assert_eq!(rt; bench.downs.as_slice(), [point(14, 3, 1)].as_slice());
    Ok(())
}

/// The replica's own server fails as the link is put into it, behind the last item. The same comes about once more.
#[test]
fn a_server_fails_as_it_is_rebuilt(rt: HostRuntime) -> Result<(), Fail> {
    let alloc = rt.alloc();
    let fault = from_number(SrvCall::Symlink, 2);
    let mut bench = bench_of(alloc, 4, &[None, None, None, fault])?;
    let words = [
        WIPE, 3, REBOOT, 3, FETCH, 3, 1000, FETCH, 3, 1, REBOOT, 3, FETCH, 3, 1000, END,
    ];
    let text = "down 3\nidle 3 not-rebuilding\ndown 3\nat 0 8\nat 1 8\nat 2 8\nat 3 down\n";
    assert!(rt; eight_print(alloc, &mut bench, &words, &[text])?);
    assert_eq!(rt;
        bench.downs.as_slice(),
        [point(13, 6, 3), point(16, 6, 3)].as_slice()
    );
    Ok(())
}

/// A server fails at its first write. It is wiped, and its replica begins from the start, since no place is stable.
/// Then it runs all requests.
#[test]
fn a_replica_that_is_down_comes_back(rt: HostRuntime) -> Result<(), Fail> {
    let alloc = rt.alloc();
    let write = FailAt {
        call: SrvCall::Write,
        from: 1,
        to: 1,
    };
    let first = server_of(alloc, 2)?;
    let second = flaky(alloc, vec![in alloc; write]?)?;
    let third = server_of(alloc, 1)?;
    let fourth = server_of(alloc, 0)?;
    let mut bench = Bench::new(alloc, vec![in alloc; first, second, third, fourth]?);
    let words = [RUN_ALL, REBOOT, 1, FETCH, 1, 1, RUN_ALL, END];
    let parts: [&[u32]; 3] = [&FIRST, &MORE, &words];
    let text: [&str; 7] = [
        REPLY_1,
        REPLIES_4,
        REPLIES_6,
        "down 1\n",
        REPLIES_8,
        "rebuilt 1 0 0 0\n",
        AT_8,
    ];
    assert!(rt; prints(alloc, &mut bench, 1024, &parts, &text)?);
    assert_eq!(rt; bench.downs.as_slice(), [point(9, 7, 1)].as_slice());
    Ok(())
}

/// Requests 1 and 2, each with its RunAll: CREATE of "a", and WRITE of "hello" to it.
const WRITTEN: [u32; 64] = [
    1, 0, 1, 0, 112, 1, 0, 2, 100003, 2, 9, 0, 0, 0, 0, 0x42415345, 0, 1, 0, 0, 0, 0, 0, 1,
    0x61000000, !0, !0, !0, !0, !0, !0, !0, !0, RUN_ALL, 1, 0, 2, 0, 96, 2, 0, 2, 100003, 2, 8, 0,
    0, 0, 0, 0x42415345, 1, 1, 0, 0, 0, 0, 0, 0, 0, 0, 5, 0x68656c6c, 0x6f000000, RUN_ALL,
];

/// Their replies.
const CREATED: &str = "\
    reply 1 00000001000000010000000000000000000000000000000000000000424153450000000100000001000000000000000000000000000\
    000000000000000000001000081a4000000010000fffe0000fffe00000000000010000000000000000000000000010000000200000001000000\
    0000000001000000000000000100000000\n";

const HELLO: &str = "\
    reply 2 0000000200000001000000000000000000000000000000000000000000000001000081a4000000010000fffe0000fffe00000005000\
    0100000000000000000010000000100000002000000010000000000000002000000000000000200000000\n";

/// The first write of the server of replica 1 fails, between the two words that decide its place.
#[test]
fn a_write_fails_and_the_replica_comes_back(rt: HostRuntime) -> Result<(), Fail> {
    let alloc = rt.alloc();
    let write = FailAt {
        call: SrvCall::Write,
        from: 1,
        to: 1,
    };
    let first = server_of(alloc, 0)?;
    let second = flaky(alloc, vec![in alloc; write]?)?;
    let third = server_of(alloc, 1)?;
    let fourth = server_of(alloc, 2)?;
    let mut bench = Bench::new(alloc, vec![in alloc; first, second, third, fourth]?);
    let words = [REBOOT, 1, FETCH, 1, 1, RUN_ALL, END];
    let parts: [&[u32]; 2] = [&WRITTEN, &words];
    let ends = "at 0 2\nat 1 2\nat 2 2\nat 3 2\n";
    let text: [&str; 5] = [CREATED, "down 1\n", HELLO, "rebuilt 1 0 0 0\n", ends];
    assert!(rt; prints(alloc, &mut bench, 1024, &parts, &text)?);
    assert_eq!(rt; bench.downs.as_slice(), [point(4, 1, 1)].as_slice());
    Ok(())
}
