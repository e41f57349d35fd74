//! The array of objects that a replica holds, and the texts that are digested.

use crate::spelling::{length_of, put_opaque, put_words};
use sha2::{Digest as _, Sha256};
use std::alloc::{AllocError, Global};

/// How many entries an array has.
pub const COUNT: u32 = 16;

/// The digest of a text.
pub type Digest = [u8; 32];

/// An index, and the generation of the object there.
#[derive(Clone, Copy, Debug, PartialEq, Eq)]
pub struct Oid {
    pub index: u32,
    pub generation: u32,
}

/// A name of one letter in a directory.
#[derive(Clone, Copy, Debug)]
pub struct Name {
    pub letter: u8,
    pub target: Oid,
}

/// What an object has beside its content. The group is that of the owner, and times are whole seconds.
#[derive(Clone, Copy, Debug)]
pub struct Attr {
    pub mode: u32,
    pub owner: u32,
    pub atime: u32,
    pub mtime: u32,
    pub ctime: u32,
}

#[derive(Clone, Debug, Drop)]
pub enum Content {
    File(Vec<u8>),
    Dir(Vec<Name>),
    Link(Vec<u8>),
}

#[derive(Clone, Debug, Drop)]
pub struct Node {
    pub attr: Attr,
    pub content: Content,
}

#[derive(Clone, Debug, Drop)]
pub struct Entry {
    pub generation: u32,
    pub node: Option<Node>,
}

#[derive(Clone, Debug, Drop)]
pub struct Array {
    entries: Vec<Entry>,
}

/// An entry without an object.
pub fn null_entry(generation: u32) -> Entry {
    Entry {
        generation,
        node: None,
    }
}

/// The names that an entry has.
fn names_in(entry: &Entry) -> &[Name] {
    match &entry.node {
        Some(
            Node {
                content: Content::Dir(names),
                ..
            },
        ) => names.as_slice(),
        _ => &[],
    }
}

/// How many of these names lead to an index.
fn count_to(names: &[Name], index: u32) -> u32 {
    let mut count = 0u32;
    for name in names {
        if name.target.index == index {
            count = count.saturating_add(1);
        }
    }
    count
}

/// Appends the names of a directory, each with where it leads.
fn put_names(out: &mut Vec<u8>, names: &[Name]) -> Result<(), AllocError> {
    put_words(out, &[u32::try_from(names.len()).unwrap_or(u32::MAX)])?;
    for name in names {
        put_opaque(out, &[name.letter])?;
        put_words(out, &[name.target.index, name.target.generation])?;
    }
    Ok(())
}

/// The text of an entry.
fn text_of(alloc: Global, index: u32, entry: &Entry) -> Result<Vec<u8>, AllocError> {
    let mut out = Vec::new(alloc);
    put_words(&mut out, &[0, index, entry.generation])?;
    let Some(node) = &entry.node else {
        put_words(&mut out, &[0])?;
        return Ok(out);
    };
    let kind = match node.content {
        Content::File(_) => 1,
        Content::Dir(_) => 2,
        Content::Link(_) => 5,
    };
    let attr = node.attr;
    put_words(&mut out, &[kind, attr.mode, attr.owner, attr.owner])?;
    put_words(&mut out, &[attr.atime, 0, attr.mtime, 0, attr.ctime, 0])?;
    match &node.content {
        Content::File(bytes) => put_opaque(&mut out, bytes.as_slice())?,
        Content::Dir(names) => put_names(&mut out, names.as_slice())?,
        Content::Link(text) => put_opaque(&mut out, text.as_slice())?,
    }
    Ok(out)
}

/// The text of an entry, and its digest.
pub fn text_and_digest(
    alloc: Global,
    index: u32,
    entry: &Entry,
) -> Result<(Vec<u8>, Digest), AllocError> {
    let text = text_of(alloc, index, entry)?;
    let digest = Sha256::digest(text.as_slice());
    Ok((text, digest))
}

/// The text of the node over these digests. It is the only one, and so that of the root.
pub fn node_text(alloc: Global, digests: &[Digest]) -> Result<Vec<u8>, AllocError> {
    let mut out = Vec::new(alloc);
    put_words(&mut out, &[1, 1, 0])?;
    for digest in digests {
        out.extend_from_slice(digest)?;
    }
    Ok(out)
}

/// The root over these digests.
pub fn root_of(alloc: Global, digests: &[Digest]) -> Result<Digest, AllocError> {
    let text = node_text(alloc, digests)?;
    Ok(Sha256::digest(text.as_slice()))
}

impl Array {
    /// The array with which a service begins.
    pub fn empty(alloc: Global) -> Result<Array, AllocError> {
        let attr = Attr {
            mode: 0o777,
            owner: 0,
            atime: 0,
            mtime: 0,
            ctime: 0,
        };
        let content = Content::Dir(Vec::new(alloc));
        let mut entries = Vec::new(alloc);
        entries.push(Entry {
            generation: 1,
            node: Some(Node { attr, content }),
        })?;
        for _ in 1..COUNT {
            entries.push(null_entry(0))?;
        }
        Ok(Array { entries })
    }

    pub fn entry(&self, index: u32) -> Option<&Entry> {
        self.entries.get(index as usize)
    }

    pub fn entry_mut(&mut self, index: u32) -> Option<&mut Entry> {
        self.entries.get_mut(index as usize)
    }

    pub fn node(&self, index: u32) -> Option<&Node> {
        self.entries.get(index as usize)?.node.as_ref()
    }

    pub fn node_mut(&mut self, index: u32) -> Option<&mut Node> {
        self.entries.get_mut(index as usize)?.node.as_mut()
    }

    /// Whether an index and a generation name an object.
    pub fn is_live(&self, oid: Oid) -> bool {
        match self.entry(oid.index) {
            Some(entry) => entry.node.is_some() && entry.generation == oid.generation,
            None => false,
        }
    }

    pub fn is_dir(&self, index: u32) -> bool {
        match self.node(index) {
            Some(node) => matches!(&node.content, Content::Dir(_)),
            None => false,
        }
    }

    /// The names of a directory; what is none has none.
    pub fn names(&self, dir: u32) -> &[Name] {
        match self.entry(dir) {
            Some(entry) => names_in(entry),
            None => &[],
        }
    }

    /// Where a name in a directory leads.
    pub fn target(&self, dir: u32, letter: u8) -> Option<Oid> {
        for name in self.names(dir) {
            if name.letter == letter {
                return Some(name.target);
            }
        }
        None
    }

    /// How many names lead to an index.
    pub fn links(&self, index: u32) -> u32 {
        let mut count = 0u32;
        for entry in &self.entries {
            count = count.saturating_add(count_to(names_in(entry), index));
        }
        count
    }

    /// How many directories stand in one.
    fn subdirs(&self, dir: u32) -> u32 {
        let mut count = 0u32;
        for name in self.names(dir) {
            if self.is_dir(name.target.index) {
                count = count.saturating_add(1);
            }
        }
        count
    }

    /// The directory that has a name for an index. That of the root is the root.
    pub fn parent(&self, index: u32) -> u32 {
        let mut dir = 0u32;
        for entry in &self.entries {
            if count_to(names_in(entry), index) > 0 {
                return dir;
            }
            dir = dir.saturating_add(1);
        }
        0
    }

    /// The bytes in use: those of files and of links, and 512 for each name.
    pub fn used(&self) -> u32 {
        let mut sum = 0u32;
        for entry in &self.entries {
            let part = match &entry.node {
                None => 0,
                Some(node) => match &node.content {
                    Content::File(bytes) => length_of(bytes.as_slice()),
                    Content::Link(text) => length_of(text.as_slice()),
                    Content::Dir(names) => u32::try_from(names.len())
                        .unwrap_or(u32::MAX)
                        .saturating_mul(512),
                },
            };
            sum = sum.saturating_add(part);
        }
        sum
    }

    /// The lowest index without an object. A generation never comes near its limit here.
    pub fn free(&self) -> Option<u32> {
        let mut index = 0u32;
        for entry in &self.entries {
            if entry.node.is_none() {
                return Some(index);
            }
            index = index.saturating_add(1);
        }
        None
    }

    /// The attributes that a client sees (RFC 1094, 2.3.5).
    pub fn attributes(&self, index: u32) -> Option<[u32; 17]> {
        let node = self.node(index)?;
        let (kind, bits, links, size) = match &node.content {
            Content::File(bytes) => (1, 0o100000, self.links(index), length_of(bytes.as_slice())),
            Content::Link(text) => (5, 0o120000, self.links(index), length_of(text.as_slice())),
            Content::Dir(names) => (
                2,
                0o040000,
                self.subdirs(index).saturating_add(2),
                u32::try_from(names.len())
                    .unwrap_or(u32::MAX)
                    .saturating_mul(32)
                    .saturating_add(512),
            ),
        };
        let Attr {
            mode,
            owner,
            atime,
            mtime,
            ctime,
        } = node.attr;
        let mode = mode.saturating_add(bits);
        let blocks = size.div_ceil(512);
        let fileid = index.saturating_add(1);
        Some([
            kind, mode, links, owner, owner, size, 4096, 0, blocks, 1, fileid, atime, 0, mtime, 0,
            ctime, 0,
        ])
    }

    /// The digests of the texts of all entries.
    pub fn digests(&self, alloc: Global) -> Result<Vec<Digest>, AllocError> {
        let mut digests = Vec::new(alloc);
        let mut index = 0u32;
        for entry in &self.entries {
            let (_, digest) = text_and_digest(alloc, index, entry)?;
            digests.push(digest)?;
            index = index.saturating_add(1);
        }
        Ok(digests)
    }

    /// Whether each of these names leads to an object, which is not the root, and a directory has no other name.
    fn are_good(&self, names: &[Name]) -> bool {
        for name in names {
            let index = name.target.index;
            let twice = self.is_dir(index) && self.links(index) != 1;
            if index == 0 || twice || !self.is_live(name.target) {
                return false;
            }
        }
        true
    }

    /// Whether the names of each directory are good.
    fn has_good_names(&self) -> bool {
        for entry in &self.entries {
            if !self.are_good(names_in(entry)) {
                return false;
            }
        }
        true
    }

    /// Whether an index is reached by fewer than so many names from the root, going up from it.
    fn is_reached(&self, index: u32) -> bool {
        let mut at = index;
        for _ in 0..COUNT {
            if at == 0 {
                return true;
            }
            if self.links(at) == 0 {
                return false;
            }
            at = self.parent(at);
        }
        false
    }

    /// Whether each object is reached from the root.
    fn is_connected(&self) -> bool {
        for index in 0..COUNT {
            if self.node(index).is_some() && !self.is_reached(index) {
                return false;
            }
        }
        true
    }

    /// Whether entries that stood in arrays of a service make one of a service together, where so many bytes are
    /// allowed.
    pub fn is_valid(&self, most: u32) -> bool {
        self.is_dir(0) && self.has_good_names() && self.is_connected() && self.used() <= most
    }
}
