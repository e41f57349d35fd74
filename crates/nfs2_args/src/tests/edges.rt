//! Words that are ignored or have several spellings, and lengths at their limits.

use super::{A, SATTR, error_of, joined};
use crate::read_args;
use nfs2_types::{Args, Sattr, SetTime};
use std::test::Fail;
use xdr_core::{XdrErr, XdrKind};

#[test]
fn ignores(rt: HostRuntime) -> Result<(), Fail> {
    // All ones, a mode of sixteen bits, times left alone and of the request; words that are not looked at.
    let table: [(u32, &[u8], Args<'_>); 4] = [
        (
            2,
            b"\xff\xff\xff\xff\xff\xff\xff\xff\xff\xff\xff\xff\xff\xff\xff\xff\
              \xff\xff\xff\xff\0\0\0\x01\0\0\0\x01\xff\xff\xff\xff",
            Args::SetAttr {
                node: A,
                sattr: Sattr {
                    mode: None,
                    uid: None,
                    gid: None,
                    size: None,
                    atime: SetTime::Keep,
                    mtime: SetTime::Now,
                },
            },
        ),
        (
            2,
            b"\0\0\x81\xa4\0\0\0\x05\xff\xff\xff\xff\0\0\0\x03\0\0\0\x63\0\x0f\x42\x41\0\0\0\x10\0\0\0\x09",
            Args::SetAttr {
                node: A,
                sattr: SATTR,
            },
        ),
        (
            6,
            b"\0\0\0\x05\0\0\0\x06\0\0\0\x07",
            Args::Read {
                file: A,
                offset: 5,
                count: 6,
            },
        ),
        (
            8,
            b"\0\0\0\x05\0\0\0\x06\0\0\0\x07\0\0\0\0",
            Args::Write {
                file: A,
                offset: 6,
                bytes: b"",
            },
        ),
    ];
    for (proc, words, args) in table {
        assert!(rt; proc <= 17);
        let text = joined(rt.alloc(), &[&A, words])?;
        let found = read_args(proc, text.as_slice())?;
        assert!(rt; found == args, "procedure {proc}");
    }
    Ok(())
}

#[test]
fn bounds(rt: HostRuntime) -> Result<(), Fail> {
    // A length at its limit asks for the bytes, and one above it is too long.
    let table: [(u32, &[u8], usize, XdrKind); 6] = [
        (4, b"\0\0\0\xff", 32, XdrKind::Short),
        (4, b"\0\0\x01\0", 32, XdrKind::TooLong),
        (13, b"\0\0\0\x01x\0\0\0\0\0\x04\0", 40, XdrKind::Short),
        (13, b"\0\0\0\x01x\0\0\0\0\0\x04\x01", 40, XdrKind::TooLong),
        (8, b"\0\0\0\0\0\0\0\0\0\0\0\0\0\0\x20\0", 44, XdrKind::Short),
        (
            8,
            b"\0\0\0\0\0\0\0\0\0\0\0\0\0\0\x20\x01",
            44,
            XdrKind::TooLong,
        ),
    ];
    for (proc, words, at, kind) in table {
        assert!(rt; proc <= 17);
        let text = joined(rt.alloc(), &[&A, words])?;
        assert_eq!(rt; error_of(proc, text.as_slice()), Some(XdrErr { at, kind }));
    }
    Ok(())
}
