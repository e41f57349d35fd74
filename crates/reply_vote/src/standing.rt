//! The standing words of one voter.

ghost use Rattle.std.specs.Prelude.{◌≡◌, ◌≢◌, ◌≤◌, ℕ, None, Some, IsSome, IfSome, cond, nat_le, OnOk, OnErr};
ghost use Rattle.cluster_model.specs.Service.{same_word};
ghost use Rattle.reply_vote.specs.Ballots.{ballot};

use nfs2_types::{NoMemory, Word};
use std::alloc::Global;
use std::collections::BTreeMap;

/// The words of one voter, by place.
#[derive(Drop)]
pub struct Standing {
    pub words: BTreeMap<u32, Word>,
}

/// Whether two words are equal.
pub fn is_same(a: &Word, b: &Word) -> bool
    ensures { result ≡ same_word a.now b.now }
{
    match (a, b) {
        (Word::Silent, Word::Silent) => true,
        (Word::Reply(a), Word::Reply(b)) => a.as_slice() == b.as_slice(),
        (Word::Silent, Word::Reply(_)) => false,
        (Word::Reply(_), Word::Silent) => false,
    }
}

impl Standing {
    /// No words. It takes no memory.
    pub fn new(alloc: Global) -> Standing
        ensures { (p : ℕ) → ballot result p ≡ None }
    {
        Standing {
            words: BTreeMap::new(alloc),
        }
    }

    /// The word for a place is now this one.
    pub fn put(&mut self, place: u32, word: Word) -> Result<(), NoMemory>
        ensures here { OnOk result (ballot self.new place ≡ Some word) }
        ensures others { OnOk result ((q : ℕ) → q ≢ place → ballot self.new q ≡ ballot self.old q) }
        ensures same { OnErr result ((q : ℕ) → ballot self.new q ≡ ballot self.old q) }
    {
        match self.words.insert(place, word) {
            Ok(_) => Ok(()),
            Err(_) => Err(NoMemory),
        }
    }

    /// The lowest place that has a word, if it is at most this one.
    fn lowest_up_to(&self, place: u32) -> Option<u32>
        ensures low { IfSome result (λ p. p ≤ place) }
        ensures there { IfSome result (λ p. IsSome (ballot self.now p)) }
        ensures none { result ≡ None → (q : ℕ) → q ≤ place → ballot self.now q ≡ None }
    {
        match self.words.first_key_value() {
            Some((first, _)) if *first <= place => Some(*first),
            _ => None,
        }
    }

    /// Forgets the word for a place. It takes no memory.
    pub fn forget(&mut self, place: u32)
        ensures here { ballot self.new place ≡ None }
        ensures others { (q : ℕ) → q ≢ place → ballot self.new q ≡ ballot self.old q }
    {
        self.words.remove(&place);
    }

    /// Forgets the words for places up to this one. It takes no memory.
    pub fn drop_to(&mut self, place: u32)
        ensures { (q : ℕ) → ballot self.new q ≡ cond (nat_le q place) None (ballot self.old q) }
    {
        while let Some(lowest) = self.lowest_up_to(place) {
            self.words.remove(&lowest);
        }
    }
}
