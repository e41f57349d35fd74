//! Requests of NFS version 2 and how they are spelled (RFC 5531, 9; RFC 1094, 2.2).

use crate::objects::Oid;
use crate::spelling::{length_of, put_opaque, put_words};
use std::alloc::{AllocError, Global};

/// A call. A name is one letter, and a sattr that is not shown leaves all alone.
#[derive(Clone, Debug, Drop)]
pub enum Call {
    Null,
    GetAttr(Oid),
    SetAttr {
        node: Oid,
        mode: Option<u32>,
        size: Option<u32>,
    },
    Lookup(Oid, u8),
    ReadLink(Oid),
    Read {
        file: Oid,
        offset: u32,
        count: u32,
    },
    Write {
        file: Oid,
        offset: u32,
        bytes: Vec<u8>,
    },
    Create {
        dir: Oid,
        letter: u8,
        size: Option<u32>,
    },
    Remove(Oid, u8),
    Rename {
        from: Oid,
        letter: u8,
        to: Oid,
        to_letter: u8,
    },
    Link {
        node: Oid,
        dir: Oid,
        letter: u8,
    },
    Symlink {
        dir: Oid,
        letter: u8,
        text: Vec<u8>,
    },
    MkDir(Oid, u8),
    RmDir(Oid, u8),
    ReadDir {
        dir: Oid,
        cookie: u32,
        count: u32,
    },
    StatFs(Oid),
    /// Bytes that end within the head of a call.
    Cut,
}

/// A call with its number and the second at which it comes.
#[derive(Clone, Debug, Drop)]
pub struct Request {
    pub xid: u32,
    pub time: u32,
    pub call: Call,
}

fn put_handle(out: &mut Vec<u8>, oid: Oid) -> Result<(), AllocError> {
    put_words(out, &[0x42415345, oid.index, oid.generation, 0, 0, 0, 0, 0])
}

/// Appends the handle of a directory and a name in it.
fn put_place(out: &mut Vec<u8>, dir: Oid, letter: u8) -> Result<(), AllocError> {
    put_handle(out, dir)?;
    put_opaque(out, &[letter])
}

fn put_sattr(out: &mut Vec<u8>, mode: Option<u32>, size: Option<u32>) -> Result<(), AllocError> {
    let mode = mode.unwrap_or(!0);
    let size = size.unwrap_or(!0);
    put_words(out, &[mode, !0, !0, size, !0, !0, !0, !0])
}

impl Call {
    /// The number of the procedure.
    fn number(&self) -> u32 {
        match self {
            Call::Null | Call::Cut => 0,
            Call::GetAttr(_) => 1,
            Call::SetAttr { .. } => 2,
            Call::Lookup(_, _) => 4,
            Call::ReadLink(_) => 5,
            Call::Read { .. } => 6,
            Call::Write { .. } => 8,
            Call::Create { .. } => 9,
            Call::Remove(_, _) => 10,
            Call::Rename { .. } => 11,
            Call::Link { .. } => 12,
            Call::Symlink { .. } => 13,
            Call::MkDir(_, _) => 14,
            Call::RmDir(_, _) => 15,
            Call::ReadDir { .. } => 16,
            Call::StatFs(_) => 17,
        }
    }

    /// Appends the arguments of a call on one object.
    fn put_object_args(&self, out: &mut Vec<u8>) -> Result<(), AllocError> {
        match self {
            Call::GetAttr(node) | Call::ReadLink(node) | Call::StatFs(node) => {
                put_handle(out, *node)
            }
            Call::SetAttr { node, mode, size } => {
                put_handle(out, *node)?;
                put_sattr(out, *mode, *size)
            }
            Call::Read {
                file,
                offset,
                count,
            } => {
                put_handle(out, *file)?;
                put_words(out, &[*offset, *count, 0])
            }
            Call::Write {
                file,
                offset,
                bytes,
            } => {
                put_handle(out, *file)?;
                put_words(out, &[0, *offset, 0])?;
                put_opaque(out, bytes.as_slice())
            }
            Call::ReadDir { dir, cookie, count } => {
                put_handle(out, *dir)?;
                put_words(out, &[*cookie, *count])
            }
            _ => Ok(()),
        }
    }

    /// Appends the arguments of a call on names.
    fn put_name_args(&self, out: &mut Vec<u8>) -> Result<(), AllocError> {
        match self {
            Call::Lookup(dir, letter) | Call::Remove(dir, letter) | Call::RmDir(dir, letter) => {
                put_place(out, *dir, *letter)
            }
            Call::Create { dir, letter, size } => {
                put_place(out, *dir, *letter)?;
                put_sattr(out, None, *size)
            }
            Call::MkDir(dir, letter) => {
                put_place(out, *dir, *letter)?;
                put_sattr(out, None, None)
            }
            Call::Rename {
                from,
                letter,
                to,
                to_letter,
            } => {
                put_place(out, *from, *letter)?;
                put_place(out, *to, *to_letter)
            }
            Call::Link { node, dir, letter } => {
                put_handle(out, *node)?;
                put_place(out, *dir, *letter)
            }
            Call::Symlink { dir, letter, text } => {
                put_place(out, *dir, *letter)?;
                put_opaque(out, text.as_slice())?;
                put_sattr(out, None, None)
            }
            _ => Ok(()),
        }
    }
}

impl Request {
    /// The bytes of the call, which has no credential.
    fn bytes(&self, alloc: Global) -> Result<Vec<u8>, AllocError> {
        let mut out = Vec::new(alloc);
        if matches!(&self.call, Call::Cut) {
            put_words(&mut out, &[self.xid, 0, 2, 100003, 2])?;
            return Ok(out);
        }
        let number = self.call.number();
        put_words(&mut out, &[self.xid, 0, 2, 100003, 2, number, 0, 0, 0, 0])?;
        self.call.put_object_args(&mut out)?;
        self.call.put_name_args(&mut out)?;
        Ok(out)
    }

    /// Appends the time and the bytes of the call, as a record has them.
    pub fn put(&self, alloc: Global, out: &mut Vec<u8>) -> Result<(), AllocError> {
        let bytes = self.bytes(alloc)?;
        put_words(out, &[self.time, 0, length_of(bytes.as_slice())])?;
        out.extend_from_slice(bytes.as_slice())
    }
}
