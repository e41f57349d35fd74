//! The words that stand, and what they decide.

use crate::holdings::{Limits, Word};
use crate::objects::Digest;
use std::alloc::{AllocError, Global};

/// What a replica says of a place. A root is said as a reply of its 32 bytes.
#[derive(Debug, Drop)]
struct Vote {
    replica: u32,
    place: u32,
    word: Word,
}

/// Words of replies for places that are not decided, and of roots for places above the stable one.
#[derive(Debug, Drop)]
pub struct Ballots {
    replies: Vec<Vote>,
    roots: Vec<Vote>,
    decided: Vec<u32>,
    pub stable: u32,
    pub root: Digest,
}

/// How many of these votes give a place this word.
fn count_of(votes: &[Vote], place: u32, word: &Word) -> u32 {
    let mut count = 0u32;
    for vote in votes {
        if vote.place == place && vote.word == *word {
            count = count.saturating_add(1);
        }
    }
    count
}

/// A replica says something else of a place than before, or says it first. How many say the same then.
fn cast(votes: &mut Vec<Vote>, replica: u32, place: u32, word: Word) -> Result<u32, AllocError> {
    votes.retain(|vote| vote.replica != replica || vote.place != place);
    let same = count_of(votes.as_slice(), place, &word);
    votes.push(Vote {
        replica,
        place,
        word,
    })?;
    Ok(same.saturating_add(1))
}

impl Ballots {
    /// No words. The place 0 is stable with this root.
    pub fn new(alloc: Global, root: Digest) -> Ballots {
        Ballots {
            replies: Vec::new(alloc),
            roots: Vec::new(alloc),
            decided: Vec::new(alloc),
            stable: 0,
            root,
        }
    }

    /// The words of a replica don't stand any more.
    pub fn withdraw(&mut self, replica: u32) {
        self.replies.retain(|vote| vote.replica != replica);
        self.roots.retain(|vote| vote.replica != replica);
    }

    /// A word of a reply, and the line that it gives, if it is the last of f + 1.
    pub fn say(
        &mut self,
        alloc: Global,
        limits: &Limits,
        replica: u32,
        place: u32,
        word: Word,
    ) -> Result<Option<String>, AllocError> {
        if self.decided.contains(&place) {
            return Ok(None);
        }
        let line = match &word {
            None => format!(in alloc; "silent {place}\n")?,
            Some(bytes) => {
                let hex = hex::encode(alloc, bytes)?;
                format!(in alloc; "reply {place} {hex}\n")?
            }
        };
        if cast(&mut self.replies, replica, place, word)? <= limits.f {
            return Ok(None);
        }
        self.decided.push(place)?;
        self.replies.retain(|vote| vote.place != place);
        Ok(Some(line))
    }

    /// A word of a root, and the line that it gives, if it is the last of 2f + 1.
    pub fn say_root(
        &mut self,
        alloc: Global,
        limits: &Limits,
        replica: u32,
        place: u32,
        root: Digest,
    ) -> Result<Option<String>, AllocError> {
        if place <= self.stable {
            return Ok(None);
        }
        let word = Some(Vec::from_slice(alloc, &root)?);
        if cast(&mut self.roots, replica, place, word)? <= limits.f.saturating_mul(2) {
            return Ok(None);
        }
        self.stable = place;
        self.root = root;
        self.roots.retain(|vote| vote.place > place);
        let hex = hex::encode(alloc, &root)?;
        Ok(Some(format!(in alloc; "stable {place} {hex}\n")?))
    }
}
