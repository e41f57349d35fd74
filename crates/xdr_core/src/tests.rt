//! The example of RFC 4506, section 7, and bytes that are no items.

use crate::{Reader, Writer, XdrErr, XdrKind};
use std::test::Fail;

/// The file "sillyprog" of kind EXEC, which "lisp" runs, of the owner "john" (RFC 4506, 7).
const FILE: [u8; 48] = [
    0x00, 0x00, 0x00, 0x09, 0x73, 0x69, 0x6c, 0x6c, 0x79, 0x70, 0x72, 0x6f, 0x67, 0x00, 0x00, 0x00,
    0x00, 0x00, 0x00, 0x02, 0x00, 0x00, 0x00, 0x04, 0x6c, 0x69, 0x73, 0x70, 0x00, 0x00, 0x00, 0x04,
    0x6a, 0x6f, 0x68, 0x6e, 0x00, 0x00, 0x00, 0x06, 0x28, 0x71, 0x75, 0x69, 0x74, 0x29, 0x00, 0x00,
];

#[test]
fn reads_the_example(rt: HostRuntime) -> Result<(), Fail> {
    let mut r = Reader::new(&FILE);
    assert_eq!(rt; r.opaque(255)?, b"sillyprog".as_slice());
    assert_eq!(rt; r.word()?, 2);
    assert_eq!(rt; r.opaque(255)?, b"lisp".as_slice());
    assert_eq!(rt; r.at(), 28);
    assert_eq!(rt; r.opaque(32)?, b"john".as_slice());
    assert_eq!(rt;
        r.end(),
        Err(XdrErr {
            at: 36,
            kind: XdrKind::Extra
        })
    );
    assert_eq!(rt; r.word()?, 6);
    assert_eq!(rt; r.rest(), b"(quit)\0\0".as_slice());
    assert_eq!(rt; r.fixed(6)?, b"(quit)".as_slice());
    r.end()?;
    Ok(())
}

#[test]
fn writes_the_example(rt: HostRuntime) -> Result<(), Fail> {
    let mut w = Writer::new(rt.alloc());
    w.opaque(b"sillyprog")?;
    w.word(2)?;
    w.opaque(b"lisp")?;
    w.opaque(b"john")?;
    w.word(6)?;
    w.fixed(b"(quit)")?;
    assert_eq!(rt; w.into_bytes().as_slice(), FILE.as_slice());
    Ok(())
}

#[test]
fn writes_bools(rt: HostRuntime) -> Result<(), Fail> {
    let mut w = Writer::new(rt.alloc());
    w.boolean(true)?;
    w.boolean(false)?;
    assert_eq!(rt;
        w.into_bytes().as_slice(),
        [0, 0, 0, 1, 0, 0, 0, 0].as_slice()
    );
    Ok(())
}

#[test]
fn words_and_blocks(rt: HostRuntime) -> Result<(), Fail> {
    let mut w = Writer::new(rt.alloc());
    w.words(&[1, 0x01020304])?;
    w.fixed(&[7; 32])?;
    let bytes = w.into_bytes();
    assert_eq!(rt;
        &bytes[..8.min(bytes.len())],
        [0, 0, 0, 1, 1, 2, 3, 4].as_slice()
    );
    let mut r = Reader::new(&bytes);
    let start = r.clone()?;
    assert_eq!(rt; (r.word()?, r.word()?), (1, 0x01020304));
    assert_eq!(rt; r.block()?, [7; 32]);
    r.end()?;
    assert_eq!(rt; start.at(), 0);
    Ok(())
}

/// An item that is asked for.
#[derive(Clone, Copy, Debug)]
enum Wanted {
    Word,
    Boolean,
    Opaque(u32),
    Fixed(u32),
}

/// What is wrong with the item behind a first word.
fn error_of(bytes: &[u8], wanted: Wanted) -> Option<XdrErr> {
    let mut r = Reader::new(bytes);
    if let Err(e) = r.word() {
        return Some(e);
    }
    match wanted {
        Wanted::Word => r.word().err(),
        Wanted::Boolean => r.boolean().err(),
        Wanted::Opaque(max) => r.opaque(max).err(),
        Wanted::Fixed(size) => r.fixed(size).err(),
    }
}

#[test]
fn refuses(rt: HostRuntime) {
    let table: [(&[u8], Wanted, usize, XdrKind); 10] = [
        (b"\0\0\0", Wanted::Word, 0, XdrKind::Short),
        (b"\0\0\0\x01\0\0\0", Wanted::Word, 4, XdrKind::Short),
        (b"\0\0\0\x01\0\0\x01", Wanted::Boolean, 4, XdrKind::Short),
        (
            b"\0\0\0\x01\0\0\0\x02",
            Wanted::Boolean,
            4,
            XdrKind::BadBool,
        ),
        (
            b"\0\0\0\x01\0\0\0\x06",
            Wanted::Opaque(5),
            4,
            XdrKind::TooLong,
        ),
        (
            b"\0\0\0\x01\0\0\0\x05abcde\0\0",
            Wanted::Opaque(5),
            4,
            XdrKind::Short,
        ),
        (
            b"\0\0\0\x01\0\0\0\x05abcde\0\0\x01",
            Wanted::Opaque(5),
            4,
            XdrKind::BadPad,
        ),
        (b"\0\0\0\x01\0\0\0", Wanted::Opaque(5), 4, XdrKind::Short),
        (b"\0\0\0\x01abc", Wanted::Fixed(3), 4, XdrKind::Short),
        (b"\0\0\0\x01abc\x01", Wanted::Fixed(3), 4, XdrKind::BadPad),
    ];
    for (bytes, wanted, at, kind) in table {
        assert_eq!(rt;
            error_of(bytes, wanted),
            Some(XdrErr { at, kind }),
            "{wanted:?} of {bytes:?}"
        );
    }
}
