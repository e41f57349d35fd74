//! Runs of the program over memory. The numbers of the calls are those of RFC 5531 and RFC 1094.

mod calls;
mod checkpoints;
mod faults;
mod fetch_faults;
mod fetches;
mod harm;
mod mount;
mod names;
mod objects;
mod random;
mod reboots;
mod replicas;
mod session;
mod sources;
mod space;
mod stops;

ghost use Rattle.std.specs.Prelude.{◌≤◌, ◌<◌, ◌^◌, vec_len, IfOk, ◌≡◌};

use super::*;
use flaky_server::{Fail as FailAt, Flaky, SrvCall};
use outside::{MemSink, MemSource};
use server_trait::FaultPoint;
use std::alloc::{AllocError, Global};
use std::test::Fail;

/// The bytes of words, the high byte first.
fn bytes_of(alloc: Global, words: &[u32]) -> Result<Vec<u8>, AllocError> {
    let mut bytes = Vec::new(alloc);
    for word in words {
        bytes.extend_from_slice(&word.to_be_bytes())?;
    }
    Ok(bytes)
}

/// A header for this many failing replicas, with this checkpoint interval.
fn header(f: u32, k: u32) -> [u32; 6] {
    [0x42415345, 0x4c4f4731, f, 16, k, 65536]
}

/// A request at this second that calls the procedure 0.
fn null_request(secs: u32) -> [u32; 15] {
    [1, 0, secs, 0, 40, 1, 0, 2, 100003, 2, 0, 0, 0, 0, 0]
}

/// A request that calls MKDIR of "b" in the root.
fn make_dir(xid: u32) -> [u32; 33] {
    [
        1, 0, xid, 0, 112, xid, 0, 2, 100003, 2, 14, 0, 0, 0, 0, 0x42415345, 0, 1, 0, 0, 0, 0, 0,
        1, 0x62000000, !0, !0, !0, !0, !0, !0, !0, !0,
    ]
}

/// A request that calls LOOKUP of "b" in the root.
fn look_up(xid: u32) -> [u32; 25] {
    [
        1, 0, xid, 0, 80, xid, 0, 2, 100003, 2, 4, 0, 0, 0, 0, 0x42415345, 0, 1, 0, 0, 0, 0, 0, 1,
        0x62000000,
    ]
}

const RUN: u32 = 2;

const RUN_ALL: u32 = 3;

const REBOOT: u32 = 4;

const FETCH: u32 = 5;

const SWAP: u32 = 13;

const END: u32 = 14;

/// A log of these parts.
fn log_of(alloc: Global, parts: &[&[u32]]) -> Result<Vec<u8>, AllocError> {
    let mut bytes = Vec::new(alloc);
    for part in parts {
        bytes.extend_from_slice(&bytes_of(alloc, part)?)?;
    }
    Ok(bytes)
}

/// The log of one call of the procedure 0.
fn null_log(alloc: Global) -> Result<Vec<u8>, AllocError> {
    log_of(alloc, &[&header(0, 4), &null_request(1), &[RUN_ALL, END]])
}

/// The numbers of the calls that fail: this one, or none where it is 0.
fn only(alloc: Global, number: u64) -> Result<Vec<u64>, AllocError> {
    let mut numbers = Vec::new(alloc);
    if number != 0 {
        numbers.push(number)?;
    }
    Ok(numbers)
}

/// What a run is given beside its log: how many bytes a read hands out, and which read and which write fail, from 1.
#[derive(Clone, Copy, Debug)]
struct Streams {
    chunk: usize,
    failing_read: u64,
    failing_write: u64,
}

const WHOLE: Streams = Streams {
    chunk: 1000,
    failing_read: 0,
    failing_write: 0,
};

/// The status of a run over a bench, and what it wrote.
fn run_bench(
    alloc: Global,
    log: Vec<u8>,
    streams: Streams,
    bench: &mut Bench,
) -> Result<(Status, Vec<u8>), Fail>
    requires few { vec_len bench.old.servers < 2 ^ 32 }
{
    let chunk = if streams.chunk == 0 { 1 } else { streams.chunk };
    let mut input = MemSource::new(log, chunk, only(alloc, streams.failing_read)?);
    let mut out = MemSink::new(alloc, only(alloc, streams.failing_write)?);
    let mut link = MemLink::new(alloc, Vec::new(alloc), Vec::new(alloc));
    let mut clock = MemClock::new(Vec::new(alloc));
    let words = vec![in alloc; String::from_str(alloc, "replay")?]?;
    let status = basefs(
        alloc, &words, &mut input, &mut out, &mut link, &mut clock, bench,
    );
    Ok((status, out.written().to_vec(alloc)?))
}

/// The same over a server of this many nodes and bytes.
fn run_in(
    alloc: Global,
    log: Vec<u8>,
    streams: Streams,
    limits: ServerLimits,
) -> Result<(Status, Vec<u8>), Fail>
    requires { limits.bytes ≤ 1073741824 }
{
    let Ok(server) = PathServer::new(alloc, limits) else {
        return Err("no memory".into());
    };
    let server: Srv = Box::new(alloc, server)?;
    let mut bench = Bench::new(alloc, vec![in alloc; server]?);
    run_bench(alloc, log, streams, &mut bench)
}

/// The same over a server that is large enough.
fn run(alloc: Global, log: Vec<u8>, streams: Streams) -> Result<(Status, Vec<u8>), Fail> {
    run_in(alloc, log, streams, LIMITS)
}

const REPLY: &str = "reply 1 000000010000000100000000000000000000000000000000\n";

const LINES: &str = "reply 1 000000010000000100000000000000000000000000000000\nat 0 1\n";

#[test]
fn a_null_call_is_answered_whatever_the_pieces(rt: HostRuntime) -> Result<(), Fail> {
    for chunk in [1usize, 3, 92, 1000] {
        let streams = Streams { chunk, ..WHOLE };
        let (status, text) = run(rt.alloc(), null_log(rt.alloc())?, streams)?;
        assert_eq!(rt; status, Status::Done, "in pieces of {chunk}");
        assert_eq!(rt; text.as_slice(), LINES.as_bytes(), "in pieces of {chunk}");
    }
    Ok(())
}

const DIRECTORIES: &str = "\
    reply 1 0000000100000001000000000000000000000000000000000000000042415345000000010000000100000000000000000000\
    0000000000000000000000000002000041ed000000020000fffe0000fffe000002000000100000000000000000010000000100000002\
    000000010000000000000001000000000000000100000000\n\
    reply 2 0000000200000001000000000000000000000000000000000000000042415345000000010000000100000000000000000000\
    0000000000000000000000000002000041ed000000020000fffe0000fffe000002000000100000000000000000010000000100000002\
    000000010000000000000001000000000000000100000000\n\
    reply 3 00000003000000010000000000000000000000000000000000000011\n";

#[test]
fn a_directory_is_made_and_found(rt: HostRuntime) -> Result<(), Fail> {
    let log = log_of(
        rt.alloc(),
        &[
            &header(0, 4),
            &make_dir(1),
            &[RUN_ALL],
            &look_up(2),
            &[RUN_ALL],
            &make_dir(3),
            &[RUN_ALL],
            &[SWAP, 0, 1],
        ],
    )?;
    let mut bench = session::bench_of(rt.alloc(), 2, &[])?;
    let (status, text) = run_bench(rt.alloc(), log, WHOLE, &mut bench)?;
    assert_eq!(rt; status, Status::NotBuilt { at: 400 });
    assert_eq!(rt; text.as_slice(), DIRECTORIES.as_bytes());
    Ok(())
}

/// The status of a run of the null log with these words, and how many bytes it wrote.
fn run_words(alloc: Global, words: &[&str]) -> Result<(Status, usize), Fail> {
    let mut given = Vec::new(alloc);
    for word in words {
        given.push(String::from_str(alloc, word)?)?;
    }
    let mut input = MemSource::new(null_log(alloc)?, 1000, Vec::new(alloc));
    let mut out = MemSink::new(alloc, Vec::new(alloc));
    let mut link = MemLink::new(alloc, Vec::new(alloc), Vec::new(alloc));
    let mut clock = MemClock::new(Vec::new(alloc));
    let mut bench = Bench::new(alloc, Vec::new(alloc));
    let status = basefs(
        alloc, &given, &mut input, &mut out, &mut link, &mut clock, &mut bench,
    );
    Ok((status, out.written().len()))
}

#[test]
fn words_that_are_no_command(rt: HostRuntime) -> Result<(), Fail> {
    let alloc = rt.alloc();
    let usage = (Status::Usage, 0);
    assert_eq!(rt; run_words(alloc, &[])?, usage);
    assert_eq!(rt; run_words(alloc, &["replay", "x"])?, usage);
    assert_eq!(rt; run_words(alloc, &["load", "3", "1", "1"])?, usage);
    assert_eq!(rt; run_words(alloc, &["load", "1", "01", "5"])?, usage);
    assert_eq!(rt; run_words(alloc, &["serve", "0", "0", "10", "5"])?, usage);
    assert_eq!(rt; run_words(alloc, &["Replay"])?, usage);
    Ok(())
}

#[test]
fn each_read_that_fails(rt: HostRuntime) -> Result<(), Fail> {
    for failing_read in 1u64..=93 {
        let streams = Streams {
            chunk: 1,
            failing_read,
            ..WHOLE
        };
        let (status, text) = run(rt.alloc(), null_log(rt.alloc())?, streams)?;
        let written = if failing_read <= 88 {
            0
        } else if failing_read <= 92 {
            REPLY.len()
        } else {
            LINES.len()
        };
        assert_eq!(rt; status, Status::ReadFault, "read {failing_read}");
        assert_eq!(rt; text.len(), written, "read {failing_read}");
    }
    Ok(())
}

#[test]
fn the_third_write_fails(rt: HostRuntime) -> Result<(), Fail> {
    let log = log_of(
        rt.alloc(),
        &[
            &header(0, 4),
            &null_request(1),
            &null_request(1),
            &null_request(1),
            &[RUN_ALL, END],
        ],
    )?;
    let streams = Streams {
        failing_write: 3,
        ..WHOLE
    };
    let (status, text) = run(rt.alloc(), log, streams)?;
    assert_eq!(rt; status, Status::WriteFault);
    assert_eq!(rt; text.len(), 2 * REPLY.len());
    Ok(())
}

#[test]
fn servers_that_are_too_small(rt: HostRuntime) -> Result<(), Fail> {
    let small = ServerLimits {
        nodes: 18,
        bytes: 1_114_112,
    };
    let (status, text) = run_in(rt.alloc(), null_log(rt.alloc())?, WHOLE, small)?;
    assert_eq!(rt; status, Status::ServerTooSmall { server: 0 });
    assert_eq!(rt; text.len(), 0);
    let short = ServerLimits {
        nodes: 19,
        bytes: 1_114_111,
    };
    let (status, _) = run_in(rt.alloc(), null_log(rt.alloc())?, WHOLE, short)?;
    assert_eq!(rt; status, Status::ServerTooSmall { server: 0 });
    let enough = ServerLimits {
        nodes: 19,
        bytes: 1_114_112,
    };
    let (status, text) = run_in(rt.alloc(), null_log(rt.alloc())?, WHOLE, enough)?;
    assert_eq!(rt; status, Status::Done);
    assert_eq!(rt; text.as_slice(), LINES.as_bytes());
    Ok(())
}

/// A server that fails at these calls.
fn flaky(alloc: Global, fails: Vec<FailAt>) -> Result<Srv, Fail> {
    let Ok(server) = PathServer::new(alloc, LIMITS) else {
        return Err("no memory".into());
    };
    let server: Srv = Box::new(alloc, Flaky::new(server, fails))?;
    Ok(server)
}

/// The call of this kind with this number, counted from 1, and each behind it.
fn from_call(call: SrvCall, number: u64) -> FailAt {
    FailAt {
        call,
        from: number,
        to: u64::MAX,
    }
}

const TWO_REPLIES: &str = "\
    reply 1 000000010000000100000000000000000000000000000000\n\
    reply 2 000000010000000100000000000000000000000000000000\n\
    down 0\n\
    at 0 down\n";

/// The start makes two directories. The third request of the first RunAll makes one more, at which the server fails.
/// The requests behind it, and the second RunAll, print nothing.
#[test]
fn a_server_that_fails_in_mid_stream(rt: HostRuntime) -> Result<(), Fail> {
    let log = log_of(
        rt.alloc(),
        &[
            &header(0, 16),
            &null_request(1),
            &null_request(2),
            &make_dir(3),
            &null_request(4),
            &[RUN_ALL],
            &null_request(5),
            &[RUN_ALL, END],
        ],
    )?;
    let fails = vec![in rt.alloc(); from_call(SrvCall::Mkdir, 3)]?;
    let server = flaky(rt.alloc(), fails)?;
    let mut bench = Bench::new(rt.alloc(), vec![in rt.alloc(); server]?);
    let (status, text) = run_bench(rt.alloc(), log, WHOLE, &mut bench)?;
    assert_eq!(rt; status, Status::Done);
    assert_eq!(rt; text.as_slice(), TWO_REPLIES.as_bytes());
    let point = FaultPoint {
        event: 5,
        stage: 3,
        replica: 0,
    };
    assert_eq!(rt; bench.downs.as_slice(), [point].as_slice());
    Ok(())
}
