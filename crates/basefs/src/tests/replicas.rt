//! Several replicas that run one by one.

use super::session::bench_of;
use super::{END, RUN, RUN_ALL, WHOLE, header, log_of, null_request, run_bench};
use crate::status::Status;
use std::alloc::Global;
use std::test::Fail;

/// The status of a run over so many servers of one call of the procedure 0 and these words behind it, and whether it
/// prints this text.
fn ends(
    alloc: Global,
    f: u32,
    servers: u32,
    words: &[u32],
    text: &str,
) -> Result<(Status, bool), Fail> {
    let log = log_of(alloc, &[&header(f, 4), &null_request(1), words])?;
    let mut bench = bench_of(alloc, servers, &[])?;
    let (status, printed) = run_bench(alloc, log, WHOLE, &mut bench)?;
    Ok((status, printed.as_slice() == text.as_bytes()))
}

/// How many replicas may fail, how many servers there are, the words behind the call, the status, and what is printed.
#[test]
fn replicas_run_one_by_one(rt: HostRuntime) -> Result<(), Fail> {
    for (f, servers, words, status, text) in [
        (
            1u32,
            4u32,
            [RUN, 0, RUN, 1, END].as_slice(),
            Status::Done,
            "reply 1 000000010000000100000000000000000000000000000000\nat 0 1\nat 1 1\nat 2 0\nat 3 0\n",
        ),
        (
            1,
            4,
            [RUN, 0, END].as_slice(),
            Status::Done,
            "at 0 1\nat 1 0\nat 2 0\nat 3 0\n",
        ),
        (
            1,
            5,
            [RUN, 2, RUN, 2, RUN_ALL, END].as_slice(),
            Status::Done,
            "idle 2 at-end\nreply 1 000000010000000100000000000000000000000000000000\nat 0 1\nat 1 1\nat 2 1\nat 3 1\n",
        ),
        (
            2,
            7,
            [RUN, 6, RUN, 4, RUN, 5, END].as_slice(),
            Status::Done,
            "reply 1 000000010000000100000000000000000000000000000000\nat 0 0\nat 1 0\nat 2 0\nat 3 0\nat 4 1\n\
                at 5 1\nat 6 1\n",
        ),
        (1, 10, [RUN, 4].as_slice(), Status::BadLog { at: 84 }, ""),
        // A word stands behind the last record.
        (
            1,
            4,
            [RUN_ALL, END, 0].as_slice(),
            Status::BadLog { at: 92 },
            "reply 1 000000010000000100000000000000000000000000000000\nat 0 1\nat 1 1\nat 2 1\nat 3 1\n",
        ),
        (
            1,
            4,
            [RUN, 0, RUN, 1].as_slice(),
            Status::BadLog { at: 100 },
            "reply 1 000000010000000100000000000000000000000000000000\n",
        ),
        (
            1,
            3,
            [RUN_ALL, END].as_slice(),
            Status::TooFewServers { have: 3, need: 4 },
            "",
        ),
        (
            0,
            0,
            [RUN_ALL, END].as_slice(),
            Status::TooFewServers { have: 0, need: 1 },
            "",
        ),
    ] {
        assert_eq!(rt;
            ends(rt.alloc(), f, servers, words, text)?,
            (status, true),
            "{text}"
        );
    }
    Ok(())
}
