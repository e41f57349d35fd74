//! Calls of MOUNT that are refused, with their replies word for word (RFC 1094, appendix A).

use super::calls::printed;
use std::test::Fail;

/// MNT of "/usr".
const MISSING: [u32; 17] = [
    1, 0, 1, 0, 48, 1, 0, 2, 100005, 1, 1, 0, 0, 0, 0, 4, 0x2f757372,
];

/// UMNT of "/export", with a byte of padding that is not zero.
const GARBAGE: [u32; 18] = [
    1, 0, 2, 0, 52, 2, 0, 2, 100005, 1, 3, 0, 0, 0, 0, 7, 0x2f657870, 0x6f727401,
];

const REFUSED: &str = "\
    reply 1 00000001000000010000000000000000000000000000000000000002\n\
    reply 2 000000020000000100000000000000000000000000000004\n\
    at 0 2\n";

#[test]
fn another_path_is_missing_and_no_arguments_are_garbage(rt: HostRuntime) -> Result<(), Fail> {
    let text = printed(rt.alloc(), &MISSING, &GARBAGE)?;
    assert_eq!(rt; text.as_slice(), REFUSED.as_bytes());
    Ok(())
}
