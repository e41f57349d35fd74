//! What a request does to an array, and its reply (RFC 1094, 2.2). Names have one letter. Each caller is nobody.

use crate::objects::{Array, Attr, COUNT, Content, Entry, Name, Node, Oid, null_entry};
use crate::requests::{Call, Request};
use crate::spelling::{length_of, put_opaque, put_words};
use std::alloc::{AllocError, Global};

mod files;

pub use files::overwrite;

mod names;

/// The user and the group of a caller without a name.
const NOBODY: u32 = 65534;

/// The bytes that a file holds at most.
const FILE_LIMIT: u32 = 1_048_576;

const PERM: u32 = 1;

const NOENT: u32 = 2;

const NXIO: u32 = 6;

const ACCES: u32 = 13;

const EXIST: u32 = 17;

const NOTDIR: u32 = 20;

const ISDIR: u32 = 21;

const FBIG: u32 = 27;

const NOSPC: u32 = 28;

const NOTEMPTY: u32 = 66;

const STALE: u32 = 70;

/// Why a call has no result.
#[derive(Debug, Drop)]
pub enum Stop {
    Refused(u32),
    NoMemory,
}

impl From<AllocError> for Stop {
    fn from(_: AllocError) -> Stop {
        Stop::NoMemory
    }
}

/// The result of a call that is not refused, and the objects that it told of.
#[derive(Debug, Drop)]
pub struct Outcome {
    pub result: Vec<u8>,
    pub told: Vec<u32>,
}

/// What a client gets, and the objects that were told of. No bytes are silence.
#[derive(Debug, Drop)]
pub struct Answer {
    pub word: Option<Vec<u8>>,
    pub told: Vec<u32>,
}

/// An array with what a call is given beside its arguments.
#[derive(Drop)]
pub struct Service<'a> {
    pub alloc: Global,
    pub array: &'a mut Array,
    pub most: u32,
    pub time: u32,
}

impl Service<'_> {
    /// A result of these words, of a call that told of these objects.
    fn outcome(&self, words: &[u32], told: &[u32]) -> Result<Outcome, Stop> {
        let mut result = Vec::new(self.alloc);
        put_words(&mut result, words)?;
        let told = Vec::from_slice(self.alloc, told)?;
        Ok(Outcome { result, told })
    }

    /// OK and the attributes of an object.
    fn attributes(&self, index: u32, told: &[u32]) -> Result<Outcome, Stop> {
        let attributes = self.array.attributes(index).ok_or(Stop::Refused(STALE))?;
        let mut outcome = self.outcome(&[0], told)?;
        put_words(&mut outcome.result, &attributes)?;
        Ok(outcome)
    }

    /// OK, the handle of an object, and its attributes.
    fn found(&self, index: u32, told: &[u32]) -> Result<Outcome, Stop> {
        let entry = self.array.entry(index).ok_or(Stop::Refused(STALE))?;
        let attributes = self.array.attributes(index).ok_or(Stop::Refused(STALE))?;
        let handle = [0, 0x42415345, index, entry.generation, 0, 0, 0, 0, 0];
        let mut outcome = self.outcome(&handle, told)?;
        put_words(&mut outcome.result, &attributes)?;
        Ok(outcome)
    }

    /// The index of an object.
    fn live(&self, oid: Oid) -> Result<u32, Stop> {
        if self.array.is_live(oid) {
            Ok(oid.index)
        } else {
            Err(Stop::Refused(STALE))
        }
    }

    /// The index of an object that is a directory.
    fn directory(&self, oid: Oid) -> Result<u32, Stop> {
        let index = self.live(oid)?;
        if self.array.is_dir(index) {
            Ok(index)
        } else {
            Err(Stop::Refused(NOTDIR))
        }
    }

    /// The bytes of a file.
    fn file(&self, oid: Oid) -> Result<&Vec<u8>, Stop> {
        let index = self.live(oid)?;
        let node = self.array.node(index).ok_or(Stop::Refused(STALE))?;
        match &node.content {
            Content::File(bytes) => Ok(bytes),
            Content::Dir(_) => Err(Stop::Refused(ISDIR)),
            Content::Link(_) => Err(Stop::Refused(ACCES)),
        }
    }

    /// Refuses a file of another size, where so many bytes are used now by what changes.
    fn fits(&self, size: u32, now: u32) -> Result<(), Stop> {
        if size > FILE_LIMIT {
            return Err(Stop::Refused(FBIG));
        }
        self.has_room(size, now)
    }

    /// Refuses where more than the limit would be used.
    fn has_room(&self, more: u32, less: u32) -> Result<(), Stop> {
        let used = self.array.used().saturating_sub(less).saturating_add(more);
        if used > self.most {
            return Err(Stop::Refused(NOSPC));
        }
        Ok(())
    }

    /// The object was changed now, and its content too where it was written.
    fn touch(&mut self, index: u32, is_written: bool) {
        let time = self.time;
        if let Some(node) = self.array.node_mut(index) {
            node.attr.ctime = time;
            if is_written {
                node.attr.mtime = time;
            }
        }
    }

    /// A call on an array. The procedures 3 and 7 do what 0 does.
    fn perform(&mut self, call: &Call) -> Result<Outcome, Stop> {
        match call {
            Call::Null | Call::Cut => self.outcome(&[], &[]),
            Call::GetAttr(node) => {
                let index = self.live(*node)?;
                self.attributes(index, &[])
            }
            Call::SetAttr { node, mode, size } => self.set_attr(*node, *mode, *size),
            Call::Lookup(dir, letter) => self.look_up(*dir, *letter),
            Call::ReadLink(node) => self.read_link(*node),
            Call::Read {
                file,
                offset,
                count,
            } => self.read(*file, *offset, *count),
            Call::Write {
                file,
                offset,
                bytes,
            } => self.write(*file, *offset, bytes.as_slice()),
            Call::Create { dir, letter, size } => self.create(*dir, *letter, *size),
            Call::Remove(dir, letter) => self.remove(*dir, *letter),
            Call::Rename {
                from,
                letter,
                to,
                to_letter,
            } => self.rename(*from, *letter, *to, *to_letter),
            Call::Link { node, dir, letter } => self.link(*node, *dir, *letter),
            Call::Symlink { dir, letter, text } => self.symlink(*dir, *letter, text.as_slice()),
            Call::MkDir(dir, letter) => self.make_dir(*dir, *letter),
            Call::RmDir(dir, letter) => self.remove_dir(*dir, *letter),
            Call::ReadDir { dir, cookie, count } => self.read_dir(*dir, *cookie, *count),
            Call::StatFs(node) => self.stat_fs(*node),
        }
    }
}

/// What a request does to an array in which so many bytes may be used.
pub fn reply_to(
    alloc: Global,
    array: &mut Array,
    most: u32,
    request: &Request,
) -> Result<Answer, AllocError> {
    if matches!(&request.call, Call::Cut) {
        return Ok(Answer {
            word: None,
            told: Vec::new(alloc),
        });
    }
    let mut service = Service {
        alloc,
        array,
        most,
        time: request.time,
    };
    let mut reply = Vec::new(alloc);
    put_words(&mut reply, &[request.xid, 1, 0, 0, 0, 0])?;
    match service.perform(&request.call) {
        Ok(outcome) => {
            reply.extend_from_slice(outcome.result.as_slice())?;
            Ok(Answer {
                word: Some(reply),
                told: outcome.told,
            })
        }
        Err(Stop::Refused(status)) => {
            put_words(&mut reply, &[status])?;
            Ok(Answer {
                word: Some(reply),
                told: Vec::new(alloc),
            })
        }
        Err(Stop::NoMemory) => Err(AllocError),
    }
}
