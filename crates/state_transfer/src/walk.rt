//! How far a fetch has come.

ghost use Rattle.std.specs.Prelude.{◌≡◌, ◌<◌, ◌≤◌, ◌+◌, ◌-◌, ◌^◌, ◌∷◌, ◌++◌, [], OnOk, OnErr, IfOk, length, drop};
ghost use Rattle.partition_tree.specs.Digests.{digest_at, most_levels};
ghost use Rattle.partition_tree.specs.Levels.{width};
ghost use Rattle.state_transfer.specs.Stand.{Own, settled, begins, differing, expected};
ghost use Rattle.state_transfer.specs.Fetch.{change};
ghost use Rattle.state_transfer.specs.Walk.{stand_of, IsSound, IsAsBefore, Passes};

use crate::children::{want, want_below};
use crate::item::Taken;
use abs_model::{Change, Entry};
use abs_text::{EntryErr, is_node_text, read_entry};
use nfs2_types::{Digest, NoMemory};
use partition_tree::Tree;
use std::alloc::Global;
use std::mem;

/// What is wanted of a level and, so far, of the level below it: numbers, each with the digest that is expected there.
#[derive(Drop)]
pub struct Walk {
    pub levels: u32,
    pub level: u32,
    pub wanted: Vec<(u32, Digest)>,
    // how many of these are got
    pub next: usize,
    pub lower: Vec<(u32, Digest)>,
    pub nodes: u32,
    pub changes: Vec<Change>,
}

impl Walk {
    /// A walk that wants nothing, with room for one item.
    pub fn new(alloc: Global, levels: u32) -> Result<Walk, NoMemory>
        requires { levels ≤ most_levels }
        ensures { IfOk result (λ w. IsSound w × (w.levels ≡ levels)) }
    {
        let wanted = Vec::with_capacity(alloc, 1).map_err(|_| NoMemory)?;
        let lower = Vec::with_capacity(alloc, 1).map_err(|_| NoMemory)?;
        Ok(Walk {
            levels,
            level: 0,
            wanted,
            next: 0,
            lower,
            nodes: 0,
            changes: Vec::new(alloc),
        })
    }

    /// Forgets what was got, and begins anew at this root. It takes no memory.
    pub fn begin(&mut self, own: &Tree, root: Digest)
        requires size { length own.now ≡ 16 ^ self.old.levels }
        requires sound { IsSound self.old }
        ensures sound { IsSound self.new }
        ensures stand { stand_of self.new ≡ begins (digest_at own.now) self.old.levels root }
        ensures levels { self.new.levels ≡ self.old.levels }
        ensures nodes { self.new.nodes ≡ 0 }
        ensures changes { self.new.changes.items ≡ [] }
    {
        self.wanted.clear();
        self.lower.clear();
        self.changes.clear();
        self.next = 0;
        self.nodes = 0;
        self.level = self.levels;
        let _room = want(own, self.levels, (0, root), &mut self.wanted);
        self.settle();
    }

    /// Goes down to the first level of which something is wanted.
    fn settle(&mut self)
        requires { IsSound self.old }
        ensures sound { IsSound self.new }
        ensures stand { stand_of self.new ≡ settled self.old.level (stand_of self.old).rest self.old.lower.items }
        ensures levels { self.new.levels ≡ self.old.levels }
        ensures nodes { self.new.nodes ≡ self.old.nodes }
        ensures changes { self.new.changes.items ≡ self.old.changes.items }
    {
        while self.level > 0 && self.next == self.wanted.len() {
            mem::swap(&mut self.wanted, &mut self.lower);
            self.lower.clear();
            self.next = 0;
            self.level -= 1;
        }
    }

    /// Takes bytes for the item that is next, which has this number, where they have its form. Otherwise, and where
    /// memory is wanting, nothing changes.
    pub fn pass(
        &mut self,
        alloc: Global,
        own: &Tree,
        number: u32,
        bytes: &[u8],
    ) -> Result<Taken, NoMemory>
        requires size { length own.now ≡ 16 ^ self.old.levels }
        requires sound { IsSound self.old }
        requires some { self.old.next < length self.old.wanted.items }
        requires number { number < width self.old.levels self.old.level }
        ensures passes { Passes (digest_at own.now) number bytes.now self.old self.new result }
        ensures sound { IsSound self.new }
        ensures levels { self.new.levels ≡ self.old.levels }
    {
        if self.level == 0 {
            return self.pass_entry(alloc, number, bytes);
        }
        if !is_node_text(self.level, number, bytes) {
            return Ok(Taken::Wrong);
        }
        match self.take_node(own, number, bytes) {
            Ok(()) => Ok(Taken::Good),
            Err(error) => Err(error),
        }
    }

    /// The same of the text of an entry.
    fn pass_entry(&mut self, alloc: Global, number: u32, bytes: &[u8]) -> Result<Taken, NoMemory>
        requires sound { IsSound self.old }
        requires some { self.old.next < length self.old.wanted.items }
        requires level { self.old.level ≡ 0 }
        ensures passes { (own : Own) → Passes own number bytes.now self.old self.new result }
        ensures sound { IsSound self.new }
        ensures levels { self.new.levels ≡ self.old.levels }
    {
        match read_entry(alloc, bytes) {
            Ok((index, entry)) => {
                if index != number {
                    return Ok(Taken::Wrong);
                }
                match self.take_entry(number, entry) {
                    Ok(()) => Ok(Taken::Good),
                    Err(error) => Err(error),
                }
            }
            Err(EntryErr::Text { at: _ }) => Ok(Taken::Wrong),
            Err(EntryErr::NoMemory) => Err(NoMemory),
        }
    }

    /// Notes what is wanted below the node that is next, by its text, and goes on behind it.
    fn take_node(&mut self, own: &Tree, number: u32, text: &[u8]) -> Result<(), NoMemory>
        requires size { length own.now ≡ 16 ^ self.old.levels }
        requires sound { IsSound self.old }
        requires some { self.old.next < length self.old.wanted.items }
        requires level { 0 < self.old.level }
        requires number { number < width self.old.levels self.old.level }
        requires text { length text.now ≡ 524 }
        ensures stand { OnOk result (stand_of self.new ≡ settled self.old.level
            (drop (self.old.next + 1) self.old.wanted.items)
            (self.old.lower.items
            ++ differing (digest_at own.now) (self.old.level - 1) (expected number text.now))) }
        ensures nodes { OnOk result (self.new.nodes ≡ self.old.nodes + 1) }
        ensures changes { self.new.changes.items ≡ self.old.changes.items }
        ensures err { OnErr result (IsAsBefore self.old self.new) }
        ensures sound { IsSound self.new }
        ensures levels { self.new.levels ≡ self.old.levels }
    {
        match want_below(own, self.level - 1, number, text, &mut self.lower) {
            Ok(()) => {}
            Err(error) => return Err(error),
        }
        self.next += 1;
        self.nodes += 1;
        self.settle();
        Ok(())
    }

    /// Notes the entry that is next, and goes on behind it.
    fn take_entry(&mut self, number: u32, entry: Entry) -> Result<(), NoMemory>
        requires sound { IsSound self.old }
        requires some { self.old.next < length self.old.wanted.items }
        requires level { self.old.level ≡ 0 }
        ensures stand { OnOk result (stand_of self.new ≡
            record { level = 0; rest = drop (self.old.next + 1) self.old.wanted.items; lower = [] }) }
        ensures nodes { self.new.nodes ≡ self.old.nodes }
        ensures changes { OnOk result (self.new.changes.items ≡
            self.old.changes.items ++ change number entry ∷ []) }
        ensures err { OnErr result (IsAsBefore self.old self.new) }
        ensures sound { IsSound self.new }
        ensures levels { self.new.levels ≡ self.old.levels }
    {
        match self.changes.push(Change {
            index: number,
            entry,
        }) {
            Ok(()) => {}
            Err(_) => return Err(NoMemory),
        }
        self.next += 1;
        Ok(())
    }
}
