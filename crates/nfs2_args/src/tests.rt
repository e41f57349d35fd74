//! Arguments by hand from RFC 1094, 2.2, and bytes that are none.

mod both_ways;
mod edges;

ghost use Rattle.std.specs.Prelude.{◌≤◌};

use crate::read_args;
use nfs2_types::{Handle, Sattr, SetTime, Time};
use std::alloc::{AllocError, Global};
use xdr_core::XdrErr;

/// The handle of index 7 and generation 1.
pub const A: Handle = *b"BASE\0\0\0\x07\0\0\0\x01\0\0\0\0\0\0\0\0\0\0\0\0\0\0\0\0\0\0\0\0";

/// The handle of index 9 and generation 3.
pub const B: Handle = *b"BASE\0\0\0\x09\0\0\0\x03\0\0\0\0\0\0\0\0\0\0\0\0\0\0\0\0\0\0\0\0";

/// The name "abc", with one byte of padding.
pub const ABC: &[u8] = b"\0\0\0\x03abc\0";

/// The name "to", with two bytes of padding.
pub const TO: &[u8] = b"\0\0\0\x02to\0\0";

/// Mode 0644, uid 5, no gid, size 3, the time of the request, 16 seconds and 9 microseconds.
pub const WORDS: &[u8] =
    b"\0\0\x01\xa4\0\0\0\x05\xff\xff\xff\xff\0\0\0\x03\0\0\0\0\0\x0f\x42\x40\0\0\0\x10\0\0\0\x09";

/// What these words say.
pub const SATTR: Sattr = Sattr {
    mode: Some(420),
    uid: Some(5),
    gid: None,
    size: Some(3),
    atime: SetTime::Now,
    mtime: SetTime::At(Time {
        secs: 16,
        micros: 9,
    }),
};

/// The parts one after the other.
pub fn joined(alloc: Global, parts: &[&[u8]]) -> Result<Vec<u8>, AllocError> {
    let mut text = Vec::new(alloc);
    for part in parts {
        text.extend_from_slice(part)?;
    }
    Ok(text)
}

/// What is wrong with the arguments.
pub fn error_of(proc: u32, text: &[u8]) -> Option<XdrErr>
    requires { proc ≤ 17 }
{
    read_args(proc, text).err()
}
