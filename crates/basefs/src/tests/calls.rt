//! Calls on directories, with their replies word for word (RFC 1094, 2.2).

use super::{END, LIMITS, RUN_ALL, WHOLE, header, log_of, make_dir, run_in};
use crate::status::Status;
use std::alloc::Global;
use std::test::Fail;

/// READDIR of the root from its beginning, of at most 4,096 bytes.
const READ_DIR: [u32; 25] = [
    1, 0, 1, 0, 80, 1, 0, 2, 100003, 2, 16, 0, 0, 0, 0, 0x42415345, 0, 1, 0, 0, 0, 0, 0, 0, 4096,
];

/// STATFS of the root.
const STAT_FS: [u32; 23] = [
    1, 0, 2, 0, 72, 2, 0, 2, 100003, 2, 17, 0, 0, 0, 0, 0x42415345, 0, 1, 0, 0, 0, 0, 0,
];

/// SETATTR of the first object, with the mode 0700 alone.
const SET_ATTR: [u32; 31] = [
    1, 0, 2, 0, 104, 2, 0, 2, 100003, 2, 2, 0, 0, 0, 0, 0x42415345, 1, 1, 0, 0, 0, 0, 0, 0o700, !0,
    !0, !0, !0, !0, !0, !0,
];

/// What two requests print, each run at once.
pub fn printed(alloc: Global, first: &[u32], second: &[u32]) -> Result<Vec<u8>, Fail> {
    let parts: [&[u32]; 6] = [
        &header(0, 1024),
        first,
        &[RUN_ALL],
        second,
        &[RUN_ALL],
        &[END],
    ];
    let (status, text) = run_in(alloc, log_of(alloc, &parts)?, WHOLE, LIMITS)?;
    if status != Status::Done {
        return Err("not done".into());
    }
    Ok(text)
}

const EMPTY_ROOT: &str = "\
    reply 1 000000010000000100000000000000000000000000000000000000000000000100000001000000012e000000000000010000\
    000100000001000000022e2e0000000000020000000000000001\n\
    reply 2 000000020000000100000000000000000000000000000000000000000000200000000200000000800000008000000080\n\
    at 0 2\n";

#[test]
fn an_empty_root_is_listed(rt: HostRuntime) -> Result<(), Fail> {
    let text = printed(rt.alloc(), &READ_DIR, &STAT_FS)?;
    assert_eq!(rt; text.as_slice(), EMPTY_ROOT.as_bytes());
    Ok(())
}

const MODE_SET: &str = "\
    reply 2 0000000200000001000000000000000000000000000000000000000000000002000041c0000000020000fffe0000fffe0000\
    02000000100000000000000000010000000100000002000000010000000000000001000000000000000200000000\n\
    at 0 2\n";

#[test]
fn a_mode_is_set(rt: HostRuntime) -> Result<(), Fail> {
    let text = printed(rt.alloc(), &make_dir(1), &SET_ATTR)?;
    assert!(rt; text.ends_with(MODE_SET.as_bytes()));
    Ok(())
}
