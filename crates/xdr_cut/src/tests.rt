//! Items that are cut at each of their bytes.

use crate::{CutErr, opaque_in, word_in};
use std::test::Fail;
use xdr_core::Reader;

#[test]
fn a_word_that_is_cut(rt: HostRuntime) {
    // Of the words from 258 to 1,000 the first two bytes are zeros.
    let table: [(&[u8], Result<u32, CutErr>); 7] = [
        (b"", Err(CutErr::Short { need: 12 })),
        (b"\0\0", Err(CutErr::Short { need: 12 })),
        (b"\0\x01", Err(CutErr::Wrong)),
        (b"\0\0\0", Err(CutErr::Wrong)),
        (b"\0\0\x01", Err(CutErr::Short { need: 12 })),
        (b"\0\0\x01\x01", Err(CutErr::Wrong)),
        (b"\0\0\x01\x02", Ok(258)),
    ];
    for (bytes, wanted) in table {
        assert_eq!(rt;
            word_in(&mut Reader::new(bytes), 258, 1000, 8),
            wanted,
            "{bytes:?}"
        );
    }
}

#[test]
fn opaque_data_that_is_cut(rt: HostRuntime) -> Result<(), Fail> {
    let table: [(&[u8], Result<&[u8], CutErr>); 7] = [
        (b"", Err(CutErr::Short { need: 4 })),
        (b"\0\0\0", Err(CutErr::Short { need: 4 })),
        (b"\0\0\0\x05", Err(CutErr::Short { need: 12 })),
        (b"\0\0\0\x09", Err(CutErr::Wrong)),
        (b"\0\0\0\x05hello\0", Err(CutErr::Short { need: 12 })),
        (b"\0\0\0\x05hello\x01", Err(CutErr::Wrong)),
        (b"\0\0\0\x05hello\0\0\0", Ok(b"hello")),
    ];
    for (bytes, wanted) in table {
        assert_eq!(rt;
            opaque_in(&mut Reader::new(bytes), 8, 0),
            wanted,
            "{bytes:?}"
        );
    }
    Ok(())
}
