//! The arguments of each procedure, read and written again, cut, with more bytes, and with wrong padding.

ghost use Rattle.std.specs.Prelude.{◌≤◌};

use super::{A, ABC, B, SATTR, TO, WORDS, error_of, joined};
use crate::{read_args, write_args};
use nfs2_types::Args;
use std::alloc::Global;
use std::process::Abort;
use std::test::Fail;
use xdr_core::{XdrErr, XdrKind};

/// The arguments of one procedure: their bytes, where the last item begins, where an item with padding begins, and
/// where a byte of that padding is (0: there is none).
#[derive(Drop)]
struct Row<'a> {
    parts: &'a [&'a [u8]],
    args: Args<'a>,
    last: usize,
    padded: usize,
    pad: usize,
}

impl<'a> Row<'a> {
    fn new(
        parts: &'a [&'a [u8]],
        args: Args<'a>,
        last: usize,
        padded: usize,
        pad: usize,
    ) -> Row<'a> {
        Row {
            parts,
            args,
            last,
            padded,
            pad,
        }
    }
}

/// The bytes are read as the arguments, which are written as these bytes again; with a byte less, with a byte of
/// padding that is not zero, and with a byte more they are refused.
fn try_row(rt: &impl Abort, alloc: Global, proc: u32, row: &Row<'_>) -> Result<(), Fail>
    requires { proc ≤ 17 }
{
    let mut text = joined(alloc, row.parts)?;
    let args = read_args(proc, text.as_slice())?;
    assert!(rt; args == row.args, "procedure {proc}");
    assert_eq!(rt; write_args(alloc, &args)?.as_slice(), text.as_slice());
    let size = text.len();
    if row.pad > 0 && row.pad < size {
        text[row.pad] = 1;
        assert_eq!(rt;
            error_of(proc, text.as_slice()),
            Some(XdrErr {
                at: row.padded,
                kind: XdrKind::BadPad
            })
        );
        text[row.pad] = 0;
    }
    text.push(0)?;
    assert_eq!(rt;
        error_of(proc, text.as_slice()),
        Some(XdrErr {
            at: size,
            kind: XdrKind::Extra
        })
    );
    text.pop();
    if text.pop().is_some() {
        assert_eq!(rt;
            error_of(proc, text.as_slice()),
            Some(XdrErr {
                at: row.last,
                kind: XdrKind::Short
            })
        );
    }
    Ok(())
}

#[test]
fn reads_and_writes_all(rt: HostRuntime) -> Result<(), Fail> {
    let rows = [
        Row::new(&[], Args::Null, 0, 0, 0),
        Row::new(&[&A], Args::GetAttr { node: A }, 0, 0, 0),
        Row::new(
            &[&A, WORDS],
            Args::SetAttr {
                node: A,
                sattr: SATTR,
            },
            60,
            0,
            0,
        ),
        Row::new(&[], Args::Root, 0, 0, 0),
        Row::new(
            &[&A, ABC],
            Args::Lookup {
                dir: A,
                name: b"abc",
            },
            32,
            32,
            39,
        ),
        Row::new(&[&A], Args::ReadLink { node: A }, 0, 0, 0),
        Row::new(
            &[&A, b"\0\0\x20\0\0\0\x10\0\0\0\0\0"],
            Args::Read {
                file: A,
                offset: 8192,
                count: 4096,
            },
            40,
            0,
            0,
        ),
        Row::new(&[], Args::WriteCache, 0, 0, 0),
        Row::new(
            &[&A, b"\0\0\0\0\0\0\0\x02\0\0\0\0\0\0\0\x05hello\0\0\0"],
            Args::Write {
                file: A,
                offset: 2,
                bytes: b"hello",
            },
            44,
            44,
            53,
        ),
        Row::new(
            &[&A, ABC, WORDS],
            Args::Create {
                dir: A,
                name: b"abc",
                sattr: SATTR,
            },
            68,
            32,
            39,
        ),
        Row::new(
            &[&A, ABC],
            Args::Remove {
                dir: A,
                name: b"abc",
            },
            32,
            32,
            39,
        ),
        Row::new(
            &[&A, ABC, &B, TO],
            Args::Rename {
                from: A,
                name: b"abc",
                to: B,
                to_name: b"to",
            },
            72,
            72,
            79,
        ),
        Row::new(
            &[&A, &B, ABC],
            Args::Link {
                node: A,
                dir: B,
                name: b"abc",
            },
            64,
            64,
            71,
        ),
        Row::new(
            &[&A, ABC, b"\0\0\0\x01/\0\0\0", WORDS],
            Args::Symlink {
                dir: A,
                name: b"abc",
                text: b"/",
                sattr: SATTR,
            },
            76,
            40,
            45,
        ),
        Row::new(
            &[&A, ABC, WORDS],
            Args::MkDir {
                dir: A,
                name: b"abc",
                sattr: SATTR,
            },
            68,
            32,
            39,
        ),
        Row::new(
            &[&A, ABC],
            Args::RmDir {
                dir: A,
                name: b"abc",
            },
            32,
            32,
            39,
        ),
        Row::new(
            &[&A, b"\0\0\0\x02\0\0\x10\0"],
            Args::ReadDir {
                dir: A,
                cookie: 2,
                count: 4096,
            },
            36,
            0,
            0,
        ),
        Row::new(&[&A], Args::StatFs { node: A }, 0, 0, 0),
    ];
    for proc in 0..18 {
        try_row(&rt, rt.alloc(), proc, &rows[proc as usize])?;
    }
    Ok(())
}
