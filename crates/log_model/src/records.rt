//! Records of a log, and how they are spelled.

use crate::holdings::Word;
use crate::items::Item;
use crate::objects::Digest;
use crate::requests::Request;
use crate::spelling::{put_opaque, put_words};
use std::alloc::{AllocError, Global};

/// A record of a log; the first number is that of the replica, if it has one.
#[derive(Debug, Drop)]
pub enum Record {
    Request(Request),
    Run(u32),
    RunAll,
    Reboot(u32),
    Fetch(u32, u32),
    Rogue(u32, Request),
    Skip(u32),
    Scratch {
        r: u32,
        index: u32,
        offset: u32,
        bytes: Vec<u8>,
    },
    LieReply(u32, u32, Word),
    LieRoot(u32, u32, Digest),
    LieItem {
        r: u32,
        level: u32,
        number: u32,
        item: Item,
    },
    Wipe(u32),
    Swap(u32, u32),
    End,
}

/// Appends a word, before which stands whether there is one.
fn put_word(out: &mut Vec<u8>, word: &Word) -> Result<(), AllocError> {
    match word {
        None => put_words(out, &[0]),
        Some(bytes) => {
            put_words(out, &[1])?;
            put_opaque(out, bytes.as_slice())
        }
    }
}

impl Record {
    /// Appends a record.
    pub fn put(&self, alloc: Global, out: &mut Vec<u8>) -> Result<(), AllocError> {
        match self {
            Record::Request(request) => {
                put_words(out, &[1, 0])?;
                request.put(alloc, out)
            }
            Record::Run(r) => put_words(out, &[2, *r]),
            Record::RunAll => put_words(out, &[3]),
            Record::Reboot(r) => put_words(out, &[4, *r]),
            Record::Fetch(r, n) => put_words(out, &[5, *r, *n]),
            Record::Rogue(r, request) => {
                put_words(out, &[6, *r])?;
                request.put(alloc, out)
            }
            Record::Skip(r) => put_words(out, &[7, *r]),
            Record::Wipe(r) => put_words(out, &[12, *r]),
            Record::Swap(r, spare) => put_words(out, &[13, *r, *spare]),
            Record::End => put_words(out, &[14]),
            _ => self.put_lie(alloc, out),
        }
    }

    /// Appends a record that has bytes that are no call.
    fn put_lie(&self, alloc: Global, out: &mut Vec<u8>) -> Result<(), AllocError> {
        match self {
            Record::Scratch {
                r,
                index,
                offset,
                bytes,
            } => {
                put_words(out, &[8, *r, *index, *offset])?;
                put_opaque(out, bytes.as_slice())
            }
            Record::LieReply(r, place, word) => {
                put_words(out, &[9, *r, *place])?;
                put_word(out, word)
            }
            Record::LieRoot(r, place, root) => {
                put_words(out, &[10, *r, *place])?;
                out.extend_from_slice(root)
            }
            Record::LieItem {
                r,
                level,
                number,
                item,
            } => {
                put_words(out, &[11, *r, *level, *number])?;
                put_opaque(out, item.bytes(alloc)?.as_slice())
            }
            _ => Ok(()),
        }
    }
}
