//! The texts of the first two entries of the empty array, by hand, and texts with a wrong item, whose places follow
//! from the format.

use crate::{EntryErr, read_entry, write_entry};
use abs_model::{Attr, Entry, Names, OPEN_MODE, Object};
use nfs2_types::Time;
use std::alloc::Global;
use std::test::Fail;

const ZERO_TIME: Time = Time { secs: 0, micros: 0 };

const ROOT_ATTR: Attr = Attr {
    mode: OPEN_MODE,
    uid: 0,
    gid: 0,
    atime: ZERO_TIME,
    mtime: ZERO_TIME,
    ctime: ZERO_TIME,
};

/// The words 0, 0, 1, 2, 0x1ff, and nine zeros.
const ROOT_TEXT: [u8; 56] = [
    0, 0, 0, 0, 0, 0, 0, 0, 0, 0, 0, 1, 0, 0, 0, 2, 0, 0, 1, 0xff, 0, 0, 0, 0, 0, 0, 0, 0, 0, 0, 0,
    0, 0, 0, 0, 0, 0, 0, 0, 0, 0, 0, 0, 0, 0, 0, 0, 0, 0, 0, 0, 0, 0, 0, 0, 0,
];

/// The words 0, 1, 0, 0.
const NULL_TEXT: [u8; 16] = [0, 0, 0, 0, 0, 0, 0, 1, 0, 0, 0, 0, 0, 0, 0, 0];

#[test]
fn writes_the_first_two_entries(rt: HostRuntime) -> Result<(), Fail> {
    let alloc = rt.alloc();
    let root = Entry {
        generation: 1,
        object: Object::Dir {
            attr: ROOT_ATTR,
            names: Names::new(Vec::new(alloc)),
        },
    };
    let text = write_entry(alloc, 0, &root)?;
    assert_eq!(rt; text.as_slice(), ROOT_TEXT.as_slice());
    let null = Entry {
        generation: 0,
        object: Object::Null,
    };
    let text = write_entry(alloc, 1, &null)?;
    assert_eq!(rt; text.as_slice(), NULL_TEXT.as_slice());
    Ok(())
}

/// Entry 7, of generation 3: a file with mode 0644 and the bytes "lisp".
const FILE: [u32; 15] = [
    0,
    7,
    3,
    1,
    0o644,
    10,
    20,
    100,
    999_999,
    101,
    0,
    102,
    5,
    4,
    0x6c69_7370,
];

/// A word of the file's text that is wrong, and the byte at which its item begins: the tag, the kind, the mode, three
/// counts of microseconds, a length that is too large, and one that is too large for the bytes.
const WRONG: [(usize, u32, usize); 8] = [
    (0, 1, 0),
    (3, 3, 12),
    (4, 4096, 16),
    (8, 1_000_000, 32),
    (10, 1_000_000, 40),
    (12, 1_000_000, 48),
    (13, 1_048_577, 52),
    (13, 5, 52),
];

/// The bytes of words.
fn spelled(alloc: Global, words: &[u32]) -> Result<Vec<u8>, Fail> {
    let mut text = Vec::new(alloc);
    for word in words {
        text.extend_from_slice(&word.to_be_bytes())?;
    }
    Ok(text)
}

/// The index that is read, or why none is.
fn index_read(alloc: Global, bytes: &[u8]) -> Result<u32, EntryErr> {
    read_entry(alloc, bytes).map(|x| x.0)
}

#[test]
fn tells_the_place_of_a_wrong_word(rt: HostRuntime) -> Result<(), Fail> {
    let alloc = rt.alloc();
    let text = spelled(alloc, &FILE)?;
    assert_eq!(rt; index_read(alloc, &text), Ok(7));
    for (i, word, at) in WRONG {
        let mut words = FILE;
        if i < words.len() {
            words[i] = word;
        }
        let text = spelled(alloc, &words)?;
        assert_eq!(rt; index_read(alloc, &text), Err(EntryErr::Text { at }));
    }
    Ok(())
}

#[test]
fn tells_the_place_in_a_directory(rt: HostRuntime) -> Result<(), Fail> {
    let alloc = rt.alloc();
    assert_eq!(rt; index_read(alloc, &ROOT_TEXT), Ok(0));
    let mut text = ROOT_TEXT;
    text[18] = 0x10;
    text[19] = 0;
    assert_eq!(rt; index_read(alloc, &text), Err(EntryErr::Text { at: 16 }));
    let mut text = ROOT_TEXT.to_vec(alloc)?;
    text.push(0).map_err(|_| "full")?;
    assert_eq!(rt; index_read(alloc, &text), Err(EntryErr::Text { at: 56 }));
    let mut named = ROOT_TEXT;
    named[55] = 1;
    let mut text = named.to_vec(alloc)?;
    text.extend_from_slice(&256u32.to_be_bytes())?;
    text.extend_from_slice(&[97; 256])?;
    text.extend_from_slice(&[0, 0, 0, 1, 0, 0, 0, 1])?;
    assert_eq!(rt; index_read(alloc, &text), Err(EntryErr::Text { at: 56 }));
    Ok(())
}
