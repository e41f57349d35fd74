//! Replicas that run requests: what each holds, what it casts, and what it serves.

use crate::items::Item;
use crate::objects::{Array, Digest, Entry, root_of, text_and_digest};
use crate::requests::Request;
use crate::service::reply_to;
use std::alloc::{AllocError, Global};

/// What a client gets. No bytes are silence.
pub type Word = Option<Vec<u8>>;

/// The limits of a log: f, its places between checkpoints, and the bytes in use.
#[derive(Clone, Copy, Debug)]
pub struct Limits {
    pub f: u32,
    pub interval: u32,
    pub most: u32,
}

/// An entry as it was at a checkpoint, before it was told of.
#[derive(Debug, Drop)]
struct Saved {
    index: u32,
    entry: Entry,
}

/// The digests that the entries were believed to have at a place, and those that were told of since.
#[derive(Debug, Drop)]
pub struct Checkpoint {
    pub place: u32,
    pub digests: Vec<Digest>,
    saved: Vec<Saved>,
}

#[derive(Debug, Drop)]
struct ReplyLie {
    place: u32,
    word: Word,
}

#[derive(Debug, Drop)]
struct RootLie {
    place: u32,
    root: Digest,
}

#[derive(Debug, Drop)]
struct ItemLie {
    level: u32,
    number: u32,
    item: Item,
}

/// What a replica keeps until it is rebuilt.
#[derive(Debug, Drop)]
struct Lies {
    replies: Vec<ReplyLie>,
    roots: Vec<RootLie>,
    items: Vec<ItemLie>,
}

/// A replica that is live.
#[derive(Debug, Drop)]
pub struct Live {
    pub array: Array,
    pub place: u32,
    believed: Vec<Digest>,
    told: Vec<u32>,
    holds: Vec<Checkpoint>,
    lies: Lies,
}

/// What a replica casts for a place.
#[derive(Debug, Drop)]
pub struct Cast {
    pub place: u32,
    pub word: Option<Word>,
    pub root: Option<Digest>,
}

impl Checkpoint {
    fn new(alloc: Global, place: u32, digests: Vec<Digest>) -> Checkpoint {
        Checkpoint {
            place,
            digests,
            saved: Vec::new(alloc),
        }
    }

    fn saved_entry(&self, index: u32) -> Option<&Entry> {
        for saved in &self.saved {
            if saved.index == index {
                return Some(&saved.entry);
            }
        }
        None
    }

    /// Keeps the entry of an index, unless one is kept.
    fn save(&mut self, index: u32, entry: &Entry) -> Result<(), AllocError> {
        if self.saved_entry(index).is_none() {
            let entry = entry.clone()?;
            self.saved.push(Saved { index, entry })?;
        }
        Ok(())
    }
}

impl Live {
    /// A replica at a place, of which it holds the checkpoint.
    pub fn new(alloc: Global, array: Array, place: u32) -> Result<Live, AllocError> {
        let believed = array.digests(alloc)?;
        let digests = believed.clone()?;
        let mut holds = Vec::new(alloc);
        holds.push(Checkpoint::new(alloc, place, digests))?;
        let lies = Lies {
            replies: Vec::new(alloc),
            roots: Vec::new(alloc),
            items: Vec::new(alloc),
        };
        Ok(Live {
            array,
            place,
            believed,
            told: Vec::new(alloc),
            holds,
            lies,
        })
    }

    /// The entries that are told of, as they were before, are kept with the newest checkpoint.
    fn tell(&mut self, before: &Array, told: &[u32]) -> Result<(), AllocError> {
        for index in told {
            self.told.push(*index)?;
            if let (Some(newest), Some(entry)) = (self.holds.last_mut(), before.entry(*index)) {
                newest.save(*index, entry)?;
            }
        }
        Ok(())
    }

    /// The digests of what was told of are taken anew.
    fn believe(&mut self, alloc: Global) -> Result<(), AllocError> {
        for index in &self.told {
            if let (Some(entry), Some(place)) = (
                self.array.entry(*index),
                self.believed.get_mut(*index as usize),
            ) {
                let (_, digest) = text_and_digest(alloc, *index, entry)?;
                *place = digest;
            }
        }
        self.told.clear();
        Ok(())
    }

    /// The next place is passed. At each multiple of the interval comes a checkpoint, and a root is cast.
    fn pass(&mut self, alloc: Global, interval: u32) -> Result<Option<Digest>, AllocError> {
        self.place = self.place.saturating_add(1);
        if self.place.checked_rem(interval) != Some(0) {
            return Ok(None);
        }
        self.believe(alloc)?;
        let digests = self.believed.clone()?;
        self.holds
            .push(Checkpoint::new(alloc, self.place, digests))?;
        for lie in &self.lies.roots {
            if lie.place == self.place {
                return Ok(Some(lie.root));
            }
        }
        Ok(Some(root_of(alloc, self.believed.as_slice())?))
    }

    /// What the replica says of its place: its lie, if it has one, or what it is given.
    fn said(&self, word: Word) -> Result<Word, AllocError> {
        for lie in &self.lies.replies {
            if lie.place == self.place {
                return lie.word.clone();
            }
        }
        Ok(word)
    }

    /// Runs a request at the next place.
    pub fn run(
        &mut self,
        alloc: Global,
        limits: &Limits,
        request: &Request,
    ) -> Result<Cast, AllocError> {
        let before = self.array.clone()?;
        let answer = reply_to(alloc, &mut self.array, limits.most, request)?;
        self.tell(&before, answer.told.as_slice())?;
        let root = self.pass(alloc, limits.interval)?;
        let word = self.said(answer.word)?;
        Ok(Cast {
            place: self.place,
            word: Some(word),
            root,
        })
    }

    /// Passes a place without a word.
    pub fn skip(&mut self, alloc: Global, limits: &Limits) -> Result<Cast, AllocError> {
        let root = self.pass(alloc, limits.interval)?;
        Ok(Cast {
            place: self.place,
            word: None,
            root,
        })
    }

    pub fn lie_reply(&mut self, place: u32, word: Word) -> Result<(), AllocError> {
        self.lies.replies.retain(|lie| lie.place != place);
        self.lies.replies.push(ReplyLie { place, word })?;
        Ok(())
    }

    pub fn lie_root(&mut self, place: u32, root: Digest) -> Result<(), AllocError> {
        self.lies.roots.retain(|lie| lie.place != place);
        self.lies.roots.push(RootLie { place, root })?;
        Ok(())
    }

    pub fn lie_item(&mut self, level: u32, number: u32, item: Item) -> Result<(), AllocError> {
        self.lies
            .items
            .retain(|lie| lie.level != level || lie.number != number);
        self.lies.items.push(ItemLie {
            level,
            number,
            item,
        })?;
        Ok(())
    }

    /// Checkpoints of lower places are forgotten.
    pub fn stable_at(&mut self, place: u32) {
        self.holds.retain(|checkpoint| checkpoint.place >= place);
    }

    /// The digests of the checkpoint of a place, if it is held.
    fn digests_at(&self, place: u32) -> Option<&Vec<Digest>> {
        for checkpoint in &self.holds {
            if checkpoint.place == place {
                return Some(&checkpoint.digests);
            }
        }
        None
    }

    /// The entry at a place that is held: the first that was saved since, or the present one.
    fn entry_at(&self, place: u32, index: u32) -> Option<&Entry> {
        for checkpoint in &self.holds {
            if checkpoint.place >= place {
                if let Some(entry) = checkpoint.saved_entry(index) {
                    return Some(entry);
                }
            }
        }
        self.array.entry(index)
    }

    /// The item that the replica lies about, if it does.
    fn lie_on(&self, level: u32, number: u32) -> Option<&Item> {
        for lie in &self.lies.items {
            if lie.level == level && lie.number == number {
                return Some(&lie.item);
            }
        }
        None
    }

    /// What the replica gives for an item of a place, if anything.
    pub fn serve(&self, place: u32, level: u32, number: u32) -> Result<Option<Item>, AllocError> {
        if let Some(item) = self.lie_on(level, number) {
            return Ok(Some(item.clone()?));
        }
        let Some(digests) = self.digests_at(place) else {
            return Ok(None);
        };
        if level == 1 {
            return Ok(Some(Item::Node(digests.clone()?)));
        }
        match self.entry_at(place, number) {
            Some(entry) => Ok(Some(Item::Entry(number, entry.clone()?))),
            None => Ok(None),
        }
    }
}
