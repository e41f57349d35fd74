//! Logs that stop, with the byte at which they do.

use super::{LINES, REPLY, WHOLE, header, log_of, null_log, null_request};
use crate::status::Status;
use std::test::Fail;

/// What a transfer prints of a replica that is live.
const IDLE: &str = "idle 0 not-rebuilding\n";

/// The null log up to some byte, and these bytes behind it, ends so, and writes so many bytes.
fn ends(rt: &HostRuntime, keep: usize, more: &[u8]) -> Result<(Status, usize), Fail> {
    let mut log = null_log(rt.alloc())?;
    log.truncate(keep);
    log.extend_from_slice(more)?;
    let (status, text) = super::run(rt.alloc(), log, WHOLE)?;
    Ok((status, text.len()))
}

#[test]
fn logs_that_stop(rt: HostRuntime) -> Result<(), Fail> {
    let reply = REPLY.len();
    let both = LINES.len();
    for (keep, more, status, written) in [
        (0, b"".as_slice(), Status::BadLog { at: 0 }, 0),
        (0, b"BASELOG9".as_slice(), Status::BadLog { at: 0 }, 0),
        (
            12,
            b"\0\0\0\x11\0\0\0\x04\0\x01\0\0".as_slice(),
            Status::BadLog { at: 0 },
            0,
        ),
        (23, b"".as_slice(), Status::BadLog { at: 0 }, 0),
        (24, b"".as_slice(), Status::BadLog { at: 24 }, 0),
        (83, b"".as_slice(), Status::BadLog { at: 24 }, 0),
        (87, b"".as_slice(), Status::BadLog { at: 84 }, 0),
        (88, b"".as_slice(), Status::BadLog { at: 88 }, reply),
        (91, b"".as_slice(), Status::BadLog { at: 88 }, reply),
        (92, b"\0".as_slice(), Status::BadLog { at: 92 }, both),
        (
            84,
            b"\0\0\0\x02\0\0\0\0".as_slice(),
            Status::BadLog { at: 92 },
            reply,
        ),
        (
            84,
            b"\0\0\0\x02\0\0\0\x01".as_slice(),
            Status::BadLog { at: 84 },
            0,
        ),
        (
            84,
            b"\0\0\0\x02\0\0\0".as_slice(),
            Status::BadLog { at: 84 },
            0,
        ),
        (
            84,
            b"\0\0\0\x04\0\0\0\0".as_slice(),
            Status::BadLog { at: 92 },
            0,
        ),
        (
            84,
            b"\0\0\0\x05\0\0\0\0\0\0\0\x01".as_slice(),
            Status::BadLog { at: 96 },
            IDLE.len(),
        ),
        (
            84,
            b"\0\0\0\x05\0\0\0\0\0\0\0\0".as_slice(),
            Status::BadLog { at: 84 },
            0,
        ),
        (
            84,
            b"\0\0\0\x06\0\0\0\0\0\0\0\0\0\x0f\x42\x40\0\0\0\0".as_slice(),
            Status::BadLog { at: 84 },
            0,
        ),
        (
            84,
            b"\0\0\0\x09\0\0\0\0\0\0\0\x01\0\0\0\0".as_slice(),
            Status::BadLog { at: 100 },
            0,
        ),
        (
            84,
            b"\0\0\0\x09\0\0\0\0\0\0\0\x01\0\0\0\x02".as_slice(),
            Status::BadLog { at: 84 },
            0,
        ),
        (
            84,
            b"\0\0\0\x0d\0\0\0\0\0\0\0\x01".as_slice(),
            Status::BadLog { at: 84 },
            0,
        ),
        (84, b"\0\0\0\x0f".as_slice(), Status::BadLog { at: 84 }, 0),
        (
            8,
            b"\0\0\0\x01\0\0\0\x10\0\0\0\x04\0\x01\0\0".as_slice(),
            Status::TooFewServers { have: 1, need: 4 },
            0,
        ),
    ] {
        assert_eq!(rt; ends(&rt, keep, more)?, (status, written), "{keep} bytes");
    }
    Ok(())
}

#[test]
fn times_do_not_fall(rt: HostRuntime) -> Result<(), Fail> {
    let log = log_of(
        rt.alloc(),
        &[&header(0, 4), &null_request(1), &null_request(0)],
    )?;
    let (status, text) = super::run(rt.alloc(), log, WHOLE)?;
    assert_eq!(rt; status, Status::BadLog { at: 84 });
    assert_eq!(rt; text.len(), 0);
    Ok(())
}
