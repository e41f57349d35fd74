//! What a replica that is rebuilt gets from others. There is one node, of level 1 and number 0, and below it are the
//! entries, of level 0.

use crate::objects::{Array, COUNT, Digest, Entry, node_text, root_of, text_and_digest};
use sha2::{Digest as _, Sha256};
use std::alloc::{AllocError, Global};

/// What an item's bytes are.
#[derive(Clone, Debug, Drop)]
pub enum Item {
    /// The text of the node over these digests.
    Node(Vec<Digest>),
    /// The text of an entry, with its index.
    Entry(u32, Entry),
    /// No text of either kind.
    Other(Vec<u8>),
}

impl Item {
    pub fn bytes(&self, alloc: Global) -> Result<Vec<u8>, AllocError> {
        match self {
            Item::Node(digests) => node_text(alloc, digests.as_slice()),
            Item::Entry(index, entry) => Ok(text_and_digest(alloc, *index, entry)?.0),
            Item::Other(bytes) => bytes.clone(),
        }
    }

    fn digest(&self, alloc: Global) -> Result<Digest, AllocError> {
        let bytes = self.bytes(alloc)?;
        Ok(Sha256::digest(bytes.as_slice()))
    }
}

/// An entry that was got.
#[derive(Debug, Drop)]
struct Got {
    index: u32,
    entry: Entry,
}

/// A replica that is rebuilt: its array, the place and the root that it aims at, and what it got towards them.
#[derive(Debug, Drop)]
pub struct Rebuilding {
    pub array: Array,
    own: Vec<Digest>,
    target: Option<u32>,
    root: Digest,
    node: Option<Vec<Digest>>,
    got: Vec<Got>,
}

impl Rebuilding {
    /// Nothing is aimed at yet.
    pub fn new(alloc: Global, array: Array) -> Result<Rebuilding, AllocError> {
        let own = array.digests(alloc)?;
        Ok(Rebuilding {
            array,
            own,
            target: None,
            root: [0; 32],
            node: None,
            got: Vec::new(alloc),
        })
    }

    /// What was got is forgotten.
    pub fn forget(&mut self) {
        self.node = None;
        self.got.clear();
    }

    /// Another place is aimed at from the beginning.
    pub fn aim_at(&mut self, place: u32, root: Digest) {
        if self.target != Some(place) {
            self.target = Some(place);
            self.root = root;
            self.forget();
        }
    }

    fn has_entry(&self, index: u32) -> bool {
        self.got.iter().any(|got| got.index == index)
    }

    /// The level and the number of the next item that is missing, and its digest.
    pub fn next_item(&self, alloc: Global) -> Result<Option<(u32, u32, Digest)>, AllocError> {
        if root_of(alloc, self.own.as_slice())? == self.root {
            return Ok(None);
        }
        let Some(wanted) = &self.node else {
            return Ok(Some((1, 0, self.root)));
        };
        for index in 0..COUNT {
            let own = self.own.get(index as usize);
            if let Some(digest) = wanted.get(index as usize) {
                if own != Some(digest) && !self.has_entry(index) {
                    return Ok(Some((0, index, *digest)));
                }
            }
        }
        Ok(None)
    }

    /// Takes an item whose digest is this one and that is of this level and number. Whether it does.
    pub fn take(
        &mut self,
        alloc: Global,
        wanted: (u32, u32, Digest),
        item: Item,
    ) -> Result<bool, AllocError> {
        let (level, number, digest) = wanted;
        if item.digest(alloc)? != digest {
            return Ok(false);
        }
        match item {
            Item::Node(digests) => {
                if level == 1 {
                    self.node = Some(digests);
                }
                Ok(level == 1)
            }
            Item::Entry(index, entry) => {
                let is_wanted = level == 0 && index == number;
                if is_wanted {
                    self.got.push(Got { index, entry })?;
                }
                Ok(is_wanted)
            }
            Item::Other(_bytes) => Ok(false),
        }
    }

    /// How many nodes and entries were got.
    pub fn counts(&self) -> (u32, u32) {
        let objects = u32::try_from(self.got.len()).unwrap_or(u32::MAX);
        (u32::from(self.node.is_some()), objects)
    }

    /// The array with what was got.
    pub fn changed(&self) -> Result<Array, AllocError> {
        let mut array = self.array.clone()?;
        for got in &self.got {
            if let Some(entry) = array.entry_mut(got.index) {
                *entry = got.entry.clone()?;
            }
        }
        Ok(array)
    }
}
