//! What a client sees of an object.

/// The kinds of objects that are served.
#[derive(Clone, Copy, Debug, PartialEq, Eq)]
pub enum Kind {
    File,
    Dir,
    Link,
}

/// The attributes that a client sees (RFC 1094, 2.3.5), in the order of their words.
#[derive(Clone, Copy, Debug, PartialEq, Eq)]
pub struct Fattr {
    pub ftype: u32,
    pub mode: u32,
    pub nlink: u32,
    pub uid: u32,
    pub gid: u32,
    pub size: u32,
    pub blocksize: u32,
    pub rdev: u32,
    pub blocks: u32,
    pub fsid: u32,
    pub fileid: u32,
    pub atime_secs: u32,
    pub atime_micros: u32,
    pub mtime_secs: u32,
    pub mtime_micros: u32,
    pub ctime_secs: u32,
    pub ctime_micros: u32,
}
