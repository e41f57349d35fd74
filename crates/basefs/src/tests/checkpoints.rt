//! Checkpoints and stable places. The roots are what a script of the repository works out from the texts of entries and
//! nodes, with SHA-256 of another library.

use super::session::bench_of;
use super::{END, RUN, RUN_ALL, WHOLE, header, log_of, make_dir, null_request, run_bench};
use crate::status::Status;
use std::alloc::Global;
use std::test::Fail;

/// The root of an array of 16 entries in which nothing was made.
const EMPTY: &str = "8c5087b7545319bb98efafcc7a88977d0082f590f2a042f3bbcbb12ddc9bbb82";

/// The same with the directory "b" in the root, made at the second 1.
const WITH_B: &str = "b7f29c77ef2685b2812639c92520b4ba2dea30161a0207471488e8507ad85eca";

/// The reply of the directory "b".
const MADE: &str =
    "reply 1 000000010000000100000000000000000000000000000000000000004241534500000001000000010000000000000000000\
        00000000000000000000000000002000041ed000000020000fffe0000fffe0000020000001000000000000000000100000001000\
        00002000000010000000000000001000000000000000100000000";

/// What is awaited: a text, or a stable place and its root.
#[derive(Clone, Copy, Debug)]
enum Awaited {
    Text(&'static str),
    Null(u32),
    Stable(u32, &'static str),
}

/// The text of what is awaited. The reply of a call of the procedure 0 at place n, whose xid is 1, is the same but for
/// n.
fn text_of(alloc: Global, awaited: &[Awaited]) -> Result<Vec<u8>, Fail> {
    let mut text = Vec::new(alloc);
    for item in awaited {
        let line = match item {
            Awaited::Text(text) => format!(in alloc; "{text}\n")?,
            Awaited::Null(place) => {
                format!(in alloc;
                    "reply {place} 000000010000000100000000000000000000000000000000\n"
                )?
            }
            Awaited::Stable(place, root) => format!(in alloc; "stable {place} {root}\n")?,
        };
        text.extend_from_slice(line.as_bytes())?;
    }
    Ok(text)
}

/// Runs a log over the servers of its replicas, and gives what it prints.
fn printed(alloc: Global, f: u32, k: u32, parts: &[&[u32]]) -> Result<Vec<u8>, Fail> {
    let mut log = log_of(alloc, &[&header(f, k)])?;
    log.extend_from_slice(&log_of(alloc, parts)?)?;
    let servers = f.saturating_mul(3).saturating_add(1);
    let mut bench = bench_of(alloc, servers, &[])?;
    let (status, text) = run_bench(alloc, log, WHOLE, &mut bench)?;
    if status != Status::Done {
        return Err("not done".into());
    }
    Ok(text)
}

/// Four times the next request of a replica.
const FOUR_0: [u32; 8] = [RUN, 0, RUN, 0, RUN, 0, RUN, 0];

const FOUR_1: [u32; 8] = [RUN, 1, RUN, 1, RUN, 1, RUN, 1];

const FOUR_2: [u32; 8] = [RUN, 2, RUN, 2, RUN, 2, RUN, 2];

#[test]
fn three_roots_of_four_make_a_place_stable(rt: HostRuntime) -> Result<(), Fail> {
    let alloc = rt.alloc();
    let ask = null_request(1);
    let log: [&[u32]; 8] = [&ask, &ask, &ask, &ask, &FOUR_0, &FOUR_1, &FOUR_2, &[END]];
    let lines = [
        Awaited::Null(1),
        Awaited::Null(2),
        Awaited::Null(3),
        Awaited::Null(4),
        Awaited::Stable(4, EMPTY),
        Awaited::Text("at 0 4\nat 1 4\nat 2 4\nat 3 0"),
    ];
    assert_eq!(rt; printed(alloc, 1, 4, &log)?, text_of(alloc, &lines)?);
    // The same without the third replica: no place is stable.
    let log: [&[u32]; 7] = [&ask, &ask, &ask, &ask, &FOUR_0, &FOUR_1, &[END]];
    let lines = [
        Awaited::Null(1),
        Awaited::Null(2),
        Awaited::Null(3),
        Awaited::Null(4),
        Awaited::Text("at 0 4\nat 1 4\nat 2 0\nat 3 0"),
    ];
    assert_eq!(rt; printed(alloc, 1, 4, &log)?, text_of(alloc, &lines)?);
    Ok(())
}

/// A replica whose place and the interval lie below the stable place may not run. With an interval of 2 and four
/// requests it is two places too far behind, with 4 it is not.
#[test]
fn a_replica_that_lags_is_behind(rt: HostRuntime) -> Result<(), Fail> {
    let alloc = rt.alloc();
    let ask = null_request(1);
    let log: [&[u32]; 9] = [
        &ask,
        &ask,
        &ask,
        &ask,
        &FOUR_0,
        &FOUR_1,
        &FOUR_2,
        &[RUN, 3, RUN, 0],
        &[END],
    ];
    let lines = [
        Awaited::Null(1),
        Awaited::Null(2),
        Awaited::Null(3),
        Awaited::Null(4),
        Awaited::Stable(2, EMPTY),
        Awaited::Stable(4, EMPTY),
        Awaited::Text("idle 3 behind\nidle 0 at-end\nat 0 4\nat 1 4\nat 2 4\nat 3 0"),
    ];
    assert_eq!(rt; printed(alloc, 1, 2, &log)?, text_of(alloc, &lines)?);
    let lines = [
        Awaited::Null(1),
        Awaited::Null(2),
        Awaited::Null(3),
        Awaited::Null(4),
        Awaited::Stable(4, EMPTY),
        Awaited::Text("idle 0 at-end\nat 0 4\nat 1 4\nat 2 4\nat 3 1"),
    ];
    assert_eq!(rt; printed(alloc, 1, 4, &log)?, text_of(alloc, &lines)?);
    Ok(())
}

/// One replica decides alone, and a root follows each reply. A request that changes nothing leaves the root.
#[test]
fn the_root_is_that_of_the_array(rt: HostRuntime) -> Result<(), Fail> {
    let alloc = rt.alloc();
    let make = make_dir(1);
    let ask = null_request(1);
    let log: [&[u32]; 4] = [&make, &ask, &[RUN_ALL], &[END]];
    let lines = [
        Awaited::Text(MADE),
        Awaited::Stable(1, WITH_B),
        Awaited::Null(2),
        Awaited::Stable(2, WITH_B),
        Awaited::Text("at 0 2"),
    ];
    assert_eq!(rt; printed(alloc, 0, 1, &log)?, text_of(alloc, &lines)?);
    Ok(())
}
