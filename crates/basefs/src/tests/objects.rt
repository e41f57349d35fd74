//! Eight requests that make objects of each kind, their replies, and runs that begin with them.
//! Of four replicas, two equal words decide a place, and three equal roots make it stable. There are 16 entries, so the
//! digest tree has one node.

ghost use Rattle.std.specs.Prelude.{◌≡◌, ◌<◌, ◌^◌, vec_len, IfOk};

use super::reboots::server_of;
use super::{RUN_ALL, WHOLE, header, log_of, run_bench};
use crate::status::Status;
use server_trait::Bench;
use std::alloc::Global;
use std::test::Fail;

/// Requests 1 to 4: MKDIR of "d", MKDIR of "e" in it, CREATE of "f", and LINK of "f" as "g".
pub static FIRST: [u32; 132] = [
    1, 0, 1, 0, 112, 1, 0, 2, 100003, 2, 14, 0, 0, 0, 0, 0x42415345, 0, 1, 0, 0, 0, 0, 0, 1,
    0x64000000, !0, !0, !0, !0, !0, !0, !0, !0, 1, 0, 2, 0, 112, 2, 0, 2, 100003, 2, 14, 0, 0, 0,
    0, 0x42415345, 1, 1, 0, 0, 0, 0, 0, 1, 0x65000000, !0, !0, !0, !0, !0, !0, !0, !0, 1, 0, 3, 0,
    112, 3, 0, 2, 100003, 2, 9, 0, 0, 0, 0, 0x42415345, 0, 1, 0, 0, 0, 0, 0, 1, 0x66000000, !0, !0,
    !0, !0, !0, !0, !0, !0, 1, 0, 4, 0, 112, 4, 0, 2, 100003, 2, 12, 0, 0, 0, 0, 0x42415345, 3, 1,
    0, 0, 0, 0, 0, 0x42415345, 0, 1, 0, 0, 0, 0, 0, 1, 0x67000000,
];

/// Requests 5 to 8: LINK of "f" as "h" in "d", SYMLINK of "s" to "d/g", WRITE of "hello" to "f", and the procedure 0.
pub static MORE: [u32; 112] = [
    1, 0, 5, 0, 112, 5, 0, 2, 100003, 2, 12, 0, 0, 0, 0, 0x42415345, 3, 1, 0, 0, 0, 0, 0,
    0x42415345, 1, 1, 0, 0, 0, 0, 0, 1, 0x68000000, 1, 0, 6, 0, 120, 6, 0, 2, 100003, 2, 13, 0, 0,
    0, 0, 0x42415345, 0, 1, 0, 0, 0, 0, 0, 1, 0x73000000, 3, 0x642f6700, !0, !0, !0, !0, !0, !0,
    !0, !0, 1, 0, 7, 0, 96, 7, 0, 2, 100003, 2, 8, 0, 0, 0, 0, 0x42415345, 3, 1, 0, 0, 0, 0, 0, 0,
    0, 0, 5, 0x68656c6c, 0x6f000000, 1, 0, 8, 0, 40, 8, 0, 2, 100003, 2, 0, 0, 0, 0, 0,
];

/// Request 9: READ of at most 100 bytes of "f".
pub static READ: [u32; 26] = [
    1, 0, 9, 0, 84, 9, 0, 2, 100003, 2, 6, 0, 0, 0, 0, 0x42415345, 3, 1, 0, 0, 0, 0, 0, 0, 100, 0,
];

/// The replies of these requests, as the rules of the calls have them.
pub const REPLY_1: &str = "\
    reply 1 00000001000000010000000000000000000000000000000000000000424153450000000100000001000000000000000000000000000\
    000000000000000000002000041ed000000020000fffe0000fffe00000200000010000000000000000001000000010000000200000001000000\
    0000000001000000000000000100000000\n";

pub const REPLIES_4: &str = "\
    reply 2 00000002000000010000000000000000000000000000000000000000424153450000000200000001000000000000000000000000000\
    000000000000000000002000041ed000000020000fffe0000fffe00000200000010000000000000000001000000010000000300000002000000\
    0000000002000000000000000200000000\n\
    reply 3 00000003000000010000000000000000000000000000000000000000424153450000000300000001000000000000000000000000000\
    000000000000000000001000081a4000000010000fffe0000fffe00000000000010000000000000000000000000010000000400000003000000\
    0000000003000000000000000300000000\n\
    reply 4 00000004000000010000000000000000000000000000000000000000\n";

pub const REPLIES_6: &str = "\
    reply 5 00000005000000010000000000000000000000000000000000000000\n\
    reply 6 00000006000000010000000000000000000000000000000000000000\n";

pub const REPLIES_8: &str = "\
    reply 7 0000000700000001000000000000000000000000000000000000000000000001000081a4000000030000fffe0000fffe00000005000\
    0100000000000000000010000000100000004000000030000000000000007000000000000000700000000\n\
    reply 8 000000080000000100000000000000000000000000000000\n";

pub const REPLY_9: &str = "\
    reply 9 0000000900000001000000000000000000000000000000000000000000000001000081a4000000030000fffe0000fffe00000005000\
    01000000000000000000100000001000000040000000300000000000000070000000000000007000000000000000568656c6c6f000000\n";

/// The roots behind the fourth and the eighth, as a script works them out from the texts of entries and nodes.
pub const STABLE_4: &str =
    "stable 4 8b3798c820746e36ba9a5d2cbe331e2cf9a4900662910ff3cfdbe8858ff805df\n";

pub const STABLE_8: &str =
    "stable 8 a9a7f32d2a5442703612e871f73816496c22dc3821b0f9c7bd6e50f8bf11a7f7\n";

/// The replicas at the end, where each has run eight requests.
pub const AT_8: &str = "at 0 8\nat 1 8\nat 2 8\nat 3 8\n";

/// Four servers of three kinds.
pub fn unlike(alloc: Global) -> Result<Bench, Fail>
    ensures { IfOk result (λ bench. vec_len bench.servers ≡ 4) }
{
    let first = server_of(alloc, 0)?;
    let second = server_of(alloc, 1)?;
    let third = server_of(alloc, 2)?;
    let fourth = server_of(alloc, 0)?;
    Ok(Bench::new(alloc, vec![in alloc; first, second, third, fourth]?))
}

/// Whether a log of these parts, with a checkpoint each k requests, is run over a bench to its end and prints this
/// text.
pub fn prints(
    alloc: Global,
    bench: &mut Bench,
    k: u32,
    parts: &[&[u32]],
    text: &[&str],
) -> Result<bool, Fail>
    requires few { vec_len bench.old.servers < 2 ^ 32 }
{
    let mut log = log_of(alloc, &[&header(1, k)])?;
    log.extend_from_slice(&log_of(alloc, parts)?)?;
    let mut awaited: Vec<u8> = Vec::new(alloc);
    for line in text {
        awaited.extend_from_slice(line.as_bytes())?;
    }
    let (status, printed) = run_bench(alloc, log, WHOLE, bench)?;
    Ok(status == Status::Done && printed == awaited)
}

/// Whether these words behind the first four requests, over servers of three kinds, print this text behind the lines of
/// these. No server fails.
pub fn four_print(alloc: Global, words: &[u32], text: &[&str]) -> Result<bool, Fail> {
    let mut awaited: Vec<&str> = vec![in alloc; REPLY_1, REPLIES_4, STABLE_4]?;
    awaited.extend_from_slice(text)?;
    let mut bench = unlike(alloc)?;
    let parts: [&[u32]; 3] = [&FIRST, &[RUN_ALL], words];
    Ok(prints(alloc, &mut bench, 4, &parts, &awaited)? && bench.downs.len() == 0)
}

/// The same behind eight requests, over a bench, whose servers may fail.
pub fn eight_print(
    alloc: Global,
    bench: &mut Bench,
    words: &[u32],
    text: &[&str],
) -> Result<bool, Fail>
    requires few { vec_len bench.old.servers < 2 ^ 32 }
{
    let mut awaited: Vec<&str> = vec![in alloc;
        REPLY_1, REPLIES_4, STABLE_4, REPLIES_6, REPLIES_8, STABLE_8,
    ]?;
    awaited.extend_from_slice(text)?;
    let parts: [&[u32]; 5] = [&FIRST, &[RUN_ALL], &MORE, &[RUN_ALL], words];
    prints(alloc, bench, 4, &parts, &awaited)
}
