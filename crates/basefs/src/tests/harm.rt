//! Records that harm replicas. Two equal words of four replicas decide a place, and three equal roots make it stable.

use super::session::{Fault, bench_of};
use super::{END, RUN, RUN_ALL, WHOLE, header, log_of, look_up, make_dir, null_request, run_bench};
use crate::status::Status;
use flaky_server::SrvCall;
use server_trait::FaultPoint;
use std::alloc::Global;
use std::test::Fail;

const ROGUE: u32 = 6;

const SKIP: u32 = 7;

const LIE_REPLY: u32 = 9;

const LIE_ROOT: u32 = 10;

const LIE_ITEM: u32 = 11;

const WIPE: u32 = 12;

/// Whether a log is run to its end over four servers and prints this text.
fn prints(alloc: Global, log: Vec<u8>, text: &str) -> Result<bool, Fail> {
    let mut bench = bench_of(alloc, 4, &[])?;
    let (status, printed) = run_bench(alloc, log, WHOLE, &mut bench)?;
    Ok(status == Status::Done && printed.as_slice() == text.as_bytes())
}

/// At how many places there is a checkpoint, the words behind a request that calls the procedure 0 with the xid 1, and
/// what is printed.
const HARMED: [(u32, &[u32], &str); 10] = [
    // The same bytes give the same word; the call with the xid 2 does not, and a third replica decides.
    (
        4,
        &[
            ROGUE, 0, 1, 0, 40, 1, 0, 2, 100003, 2, 0, 0, 0, 0, 0, RUN, 1, END,
        ],
        "reply 1 000000010000000100000000000000000000000000000000\nat 0 1\nat 1 1\nat 2 0\nat 3 0\n",
    ),
    (
        4,
        &[
            ROGUE, 0, 1, 0, 40, 2, 0, 2, 100003, 2, 0, 0, 0, 0, 0, RUN, 1, RUN, 2, END,
        ],
        "reply 1 000000010000000100000000000000000000000000000000\nat 0 1\nat 1 1\nat 2 1\nat 3 0\n",
    ),
    // A place that is skipped has no word.
    (
        4,
        &[SKIP, 0, RUN, 1, RUN, 2, END],
        "reply 1 000000010000000100000000000000000000000000000000\nat 0 1\nat 1 1\nat 2 1\nat 3 0\n",
    ),
    (
        4,
        &[SKIP, 0, RUN, 1, END],
        "at 0 1\nat 1 1\nat 2 0\nat 3 0\n",
    ),
    // One lie is outvoted; two equal ones decide.
    (
        4,
        &[LIE_REPLY, 0, 1, 1, 4, 1, RUN_ALL, END],
        "reply 1 000000010000000100000000000000000000000000000000\nat 0 1\nat 1 1\nat 2 1\nat 3 1\n",
    ),
    (
        4,
        &[
            LIE_REPLY, 0, 1, 1, 4, 1, LIE_REPLY, 1, 1, 1, 4, 1, RUN, 0, RUN, 1, END,
        ],
        "reply 1 00000001\nat 0 1\nat 1 1\nat 2 0\nat 3 0\n",
    ),
    // A later lie takes the place of an earlier one, and one about another place is not used here.
    (
        4,
        &[
            LIE_REPLY, 0, 1, 1, 4, 1, LIE_REPLY, 0, 1, 0, LIE_REPLY, 0, 2, 1, 4, 1, LIE_REPLY, 1,
            1, 0, RUN_ALL, END,
        ],
        "silent 1\nat 0 1\nat 1 1\nat 2 1\nat 3 1\n",
    ),
    // The root of the empty array is cast by three of four.
    (
        1,
        &[
            LIE_ROOT, 0, 1, 0, 0, 0, 0, 0, 0, 0, 0, LIE_ITEM, 2, 1, 0, 4, 0x78000000, RUN_ALL, END,
        ],
        "reply 1 000000010000000100000000000000000000000000000000\n\
            stable 1 8c5087b7545319bb98efafcc7a88977d0082f590f2a042f3bbcbb12ddc9bbb82\nat 0 1\nat 1 1\nat 2 1\n\
            at 3 1\n",
    ),
    // A replica that runs no request casts the root of its array.
    (
        1,
        &[SKIP, 3, RUN, 1, RUN, 2, END],
        "reply 1 000000010000000100000000000000000000000000000000\n\
            stable 1 8c5087b7545319bb98efafcc7a88977d0082f590f2a042f3bbcbb12ddc9bbb82\nat 0 0\nat 1 1\nat 2 1\n\
            at 3 1\n",
    ),
    // Nothing is left to run.
    (
        4,
        &[RUN_ALL, ROGUE, 0, 1, 0, 0, SKIP, 2, END],
        "reply 1 000000010000000100000000000000000000000000000000\nidle 0 at-end\nidle 2 at-end\nat 0 1\nat 1 1\n\
            at 2 1\nat 3 1\n",
    ),
];

/// Whether these words behind such a request print this text.
fn words_print(alloc: Global, k: u32, words: &[u32], text: &str) -> Result<bool, Fail> {
    let log = log_of(alloc, &[&header(1, k), &null_request(1), words])?;
    prints(alloc, log, text)
}

#[test]
fn harmed_replicas_are_outvoted(rt: HostRuntime) -> Result<(), Fail> {
    for (k, words, text) in HARMED {
        assert!(rt; words_print(rt.alloc(), k, words, text)?);
    }
    Ok(())
}

/// Replica 0 makes the directory "b", and loses it. Replica 1 never makes it. Both then find no "b" (status 2).
#[test]
fn a_wiped_replica_has_lost_all(rt: HostRuntime) -> Result<(), Fail> {
    let alloc = rt.alloc();
    let log = log_of(
        alloc,
        &[
            &header(1, 4),
            &make_dir(1),
            &[RUN, 0, SKIP, 1, WIPE, 0],
            &look_up(2),
            &[RUN, 0, RUN, 1, END],
        ],
    )?;
    let text =
        "reply 2 00000002000000010000000000000000000000000000000000000002\nat 0 2\nat 1 2\nat 2 0\nat 3 0\n";
    assert!(rt; prints(alloc, log, text)?);
    Ok(())
}

/// The server of replica 0 fails while it makes the directory that it was not asked for. From then on it is down.
#[test]
fn a_rogue_whose_server_fails(rt: HostRuntime) -> Result<(), Fail> {
    let alloc = rt.alloc();
    let words = [
        ROGUE, 0, 1, 0, 112, 1, 0, 2, 100003, 2, 14, 0, 0, 0, 0, 0x42415345, 0, 1, 0, 0, 0, 0, 0,
        1, 0x62000000, !0, !0, !0, !0, !0, !0, !0, !0, LIE_REPLY, 0, 1, 0, SKIP, 0, WIPE, 0,
        RUN_ALL, END,
    ];
    let log = log_of(alloc, &[&header(1, 4), &null_request(1), &words])?;
    // The start makes two directories in each server.
    let fault = Fault {
        call: SrvCall::Mkdir,
        number: 3,
        event: 2,
    };
    let mut bench = bench_of(alloc, 4, &[Some(fault)])?;
    let (status, text) = run_bench(alloc, log, WHOLE, &mut bench)?;
    let lines = "down 0\nidle 0 not-live\nidle 0 not-live\nidle 0 not-live\n\
            reply 1 000000010000000100000000000000000000000000000000\nat 0 down\nat 1 1\nat 2 1\nat 3 1\n";
    let point = FaultPoint {
        event: 2,
        stage: 0,
        replica: 0,
    };
    assert_eq!(rt; status, Status::Done);
    assert_eq!(rt; text.as_slice(), lines.as_bytes());
    assert_eq!(rt; bench.downs.as_slice(), [point].as_slice());
    Ok(())
}
