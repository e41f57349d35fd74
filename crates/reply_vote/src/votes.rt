//! Votes of several voters.

ghost use Rattle.std.specs.Option.{option_copied};
ghost use Rattle.std.specs.Prelude.{◌≡◌, ◌<◌, ◌≤◌, ℕ, None, Some, List, Option, IfOk, OnOk, OnErr, length, count_by};
ghost use Rattle.nfs2_types.specs.declared.Word.{Word as SpecWord};
ghost use Rattle.cluster_model.specs.State.{is_word};
ghost use Rattle.reply_vote.specs.Ballots.{ballots, word_at, votes_for, Casts, Withdraws, Forgets, Drops, SameWords, IsDecided};

use crate::standing::{Standing, is_same};
use nfs2_types::{NoMemory, Word};
use std::alloc::Global;

/// The standing words of each voter, and how many equal words decide a place.
#[derive(Drop)]
pub struct Votes {
    pub voters: Vec<Standing>,
    pub threshold: u32,
}

impl Votes {
    /// So many voters without words.
    pub fn new(alloc: Global, voters: u32, threshold: u32) -> Result<Votes, NoMemory>
        requires { 1 ≤ threshold }
        ensures voters { IfOk result (λ v. length (ballots v) ≡ voters) }
        ensures none { IfOk result (λ v. (k p : ℕ) → word_at (ballots v) k p ≡ None) }
        ensures threshold { IfOk result (λ v. v.threshold ≡ threshold) }
    {
        let mut standing = Vec::new(alloc);
        for _ in 0..voters {
            match standing.push(Standing::new(alloc)) {
                Ok(()) => {}
                Err(_) => return Err(NoMemory),
            }
        }
        Ok(Votes {
            voters: standing,
            threshold,
        })
    }

    /// The voter's word for a place is now this one.
    pub fn cast(&mut self, voter: u32, place: u32, word: Word) -> Result<(), NoMemory>
        requires { voter < length (ballots self.old) }
        ensures casts { OnOk result (Casts voter place word (ballots self.old) (ballots self.new)) }
        ensures threshold { self.new.threshold ≡ self.old.threshold }
        ensures same { OnErr result (SameWords (ballots self.old) (ballots self.new)) }
    {
        match self.voters[voter as usize].put(place, word) {
            Ok(()) => Ok(()),
            Err(_) => Err(NoMemory),
        }
    }

    /// No word of the voter stands from now on. It takes no memory.
    pub fn withdraw(&mut self, alloc: Global, voter: u32)
        requires { voter < length (ballots self.old) }
        ensures withdraws { Withdraws voter (ballots self.old) (ballots self.new) }
        ensures threshold { self.new.threshold ≡ self.old.threshold }
    {
        self.voters[voter as usize] = Standing::new(alloc);
    }

    /// Forgets the words for a place. It takes no memory.
    pub fn forget(&mut self, place: u32)
        ensures forgets { Forgets place (ballots self.old) (ballots self.new) }
        ensures threshold { self.new.threshold ≡ self.old.threshold }
    {
        for voter in 0..self.voters.len() {
            self.voters[voter].forget(place);
        }
    }

    /// Forgets the words for places up to this one. It takes no memory.
    pub fn drop_to(&mut self, place: u32)
        ensures drops { Drops place (ballots self.old) (ballots self.new) }
        ensures threshold { self.new.threshold ≡ self.old.threshold }
    {
        for voter in 0..self.voters.len() {
            self.voters[voter].drop_to(place);
        }
    }

    /// How many voters have this word for this place. It takes no memory.
    pub fn count(&self, place: u32, word: &Word) -> usize
        ensures { result ≡ votes_for (ballots self.now) place word.now }
    {
        let mut count = 0;
        for standing in &self.voters {
            match standing.words.get(&place) {
                Some(standing) => {
                    if is_same(word, standing) {
                        count += 1;
                    }
                }
                None => {}
            }
        }
        count
    }

    /// The word of the lowest voter whose word for this place has the threshold. It takes no memory.
    pub fn decided(&self, place: u32) -> Option<&Word>
        ensures { IsDecided self.now.threshold place (ballots self.now) (option_copied result) }
    {
        for voter in 0..self.voters.len() {
            match self.voters[voter].words.get(&place) {
                Some(word) => {
                    if self.count(place, word) >= self.threshold as usize {
                        return Some(word);
                    }
                }
                None => {}
            }
        }
        None
    }
}
