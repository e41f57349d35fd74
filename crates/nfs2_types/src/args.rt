//! The arguments of a call.

use crate::handle::Handle;
use crate::time::Time;

/// What a call says of a time of an object.
#[derive(Clone, Copy, Debug, PartialEq, Eq)]
pub enum SetTime {
    /// It is left alone.
    Keep,
    /// It becomes the time of the request.
    Now,
    /// It becomes this time, whose seconds are below 2^32 - 1.
    At(Time),
}

/// What a call sets (RFC 1094, 2.3.6). A field that is not given is left alone.
/// A mode has 12 bits; a uid, a gid and a size are below 2^32 - 1; the size is in bytes.
#[derive(Clone, Copy, Debug, PartialEq, Eq)]
pub struct Sattr {
    pub mode: Option<u32>,
    pub uid: Option<u32>,
    pub gid: Option<u32>,
    pub size: Option<u32>,
    pub atime: SetTime,
    pub mtime: SetTime,
}

/// The arguments of a call by procedure (RFC 1094, 2.2). Names, texts and bytes are slices of the call.
#[derive(Clone, Copy, Debug, PartialEq, Eq)]
pub enum Args<'a> {
    Null,
    Root,
    WriteCache,
    GetAttr {
        node: Handle,
    },
    SetAttr {
        node: Handle,
        sattr: Sattr,
    },
    Lookup {
        dir: Handle,
        name: &'a [u8],
    },
    ReadLink {
        node: Handle,
    },
    Read {
        file: Handle,
        offset: u32,
        count: u32,
    },
    Write {
        file: Handle,
        offset: u32,
        bytes: &'a [u8],
    },
    Create {
        dir: Handle,
        name: &'a [u8],
        sattr: Sattr,
    },
    Remove {
        dir: Handle,
        name: &'a [u8],
    },
    Rename {
        from: Handle,
        name: &'a [u8],
        to: Handle,
        to_name: &'a [u8],
    },
    Link {
        node: Handle,
        dir: Handle,
        name: &'a [u8],
    },
    Symlink {
        dir: Handle,
        name: &'a [u8],
        text: &'a [u8],
        sattr: Sattr,
    },
    MkDir {
        dir: Handle,
        name: &'a [u8],
        sattr: Sattr,
    },
    RmDir {
        dir: Handle,
        name: &'a [u8],
    },
    ReadDir {
        dir: Handle,
        cookie: u32,
        count: u32,
    },
    StatFs {
        node: Handle,
    },
}
