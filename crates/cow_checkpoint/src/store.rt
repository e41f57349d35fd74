//! The checkpoints that a replica holds.

ghost use Rattle.std.specs.Prelude.{◌≡◌, ◌<◌, ◌↔◌, ◌++◌, ◌∷◌, [], ℕ, List, Some, IsOk, vec_len};
ghost use Rattle.std.specs.Prelude.{OnOk, IfOk, IfErr, IfSome, IsSome, length};
ghost use Rattle.std.specs.Option.{option_map};
ghost use Rattle.std.specs.Vec.{vec_capacity};
ghost use Rattle.std.specs.Ordering.{nat_cmp};
ghost use Rattle.std.specs.BTreeSet.{contains};
ghost use Rattle.std.specs.List.Sorted.{IsStrictlySortedBy};
ghost use Rattle.std.specs.Rc.{rc_slice_items};
ghost use Rattle.abs_model.specs.declared.Entry.{Entry};
ghost use Rattle.cluster_model.specs.Right.{is_told};
ghost use Rattle.conf_map.specs.Stands.{StandValid};
ghost use Rattle.conf_map.specs.Notice.{Watched};
ghost use Rattle.cow_checkpoint.specs.Store.{begun, notices, takes, drops, held_text, HasNode, IsNodeText, IsExact, IsTouched};

use crate::checkpoint::{Checkpoint, present_text};
use crate::held::Held;
use crate::saved::Text;
use conf_map::Modify;
use nfs2_types::NoMemory;
use partition_tree::Tree;
use server_trait::{ConfTable, Srv, WrapErr};
use std::alloc::Global;
use std::collections::BTreeSet;
use std::marker::Model;
use std::rc::RcSlice;

/// Checkpoints of a replica: their digests, and the texts that have changed since. It is told of each object before
/// that is changed, and saves the object's text then, once for each checkpoint.
#[derive(Drop)]
pub struct CheckpointStore {
    alloc: Global,
    size: usize,
    taken: u32,
    told: Vec<u32>,
    held: Held,
}

impl Model for CheckpointStore {
    ghost use Rattle.cow_checkpoint.specs.Store.{Store, IsKept};

    ghost Value = { Store };

    ghost view = { λ s. record {
      size = s.size;
      taken = s.taken;
      told = s.told.items;
      holds = s.held;
    } };

    ghost invariant = { λ s. IsKept (record {
      size = s.size;
      taken = s.taken;
      told = s.told.items;
      holds = s.held;
    }) };
}

/// Appends an index, where there is room for it.
fn push_within(told: &mut Vec<u32>, index: u32) -> Result<(), WrapErr>
    requires { vec_len told.old < vec_capacity told.old }
    ensures ok { IsOk result }
    ensures items { told.new.items ≡ told.old.items ++ index ∷ [] }
{
    match told.push(index) {
        Ok(()) => Ok(()),
        Err(_) => Err(WrapErr::NoMemory),
    }
}

/// The indexes told, each once.
fn told_once(alloc: Global, told: &[u32]) -> Result<BTreeSet<u32>, NoMemory>
    ensures { IfOk result (λ once. (i : ℕ) → contains nat_cmp once i ≡ is_told i told.now) }
{
    let mut once = BTreeSet::new(alloc);
    for index in told {
        if once.insert(*index).is_err() {
            return Err(NoMemory);
        }
    }
    Ok(once)
}

/// The same as a list, rising.
fn in_order(alloc: Global, once: &BTreeSet<u32>) -> Result<Vec<u32>, NoMemory>
    ensures same { IfOk result (λ v. v.items ≡ once.now.keys) }
    ensures rising { IfOk result (λ v. IsStrictlySortedBy nat_cmp v.items) }
{
    let mut indexes = Vec::new(alloc);
    for index in once.iter() {
        if indexes.push(*index).is_err() {
            return Err(NoMemory);
        }
    }
    Ok(indexes)
}

/// A text, handed out.
fn shared(text: &Text) -> Result<Option<RcSlice<u8>>, WrapErr>
    ensures text { IfOk result (λ shared. option_map rc_slice_items shared ≡ Some text.now) }
    ensures err { IfErr result (λ e. e ≡ WrapErr.NoMemory) }
{
    match text.share() {
        Ok(shared) => Ok(Some(shared)),
        Err(_) => Err(WrapErr::NoMemory),
    }
}

impl CheckpointStore {
    /// Holds one checkpoint: that of this place, with the digests of the tree.
    pub fn new(alloc: Global, place: u32, tree: Tree) -> Result<CheckpointStore, NoMemory>
        ensures { IfOk result (λ store. store ≡ begun place tree) }
    {
        let size = tree.len();
        Ok(CheckpointStore {
            alloc,
            size,
            taken: place,
            told: Vec::new(alloc),
            held: Held::new(alloc, Checkpoint::new(alloc, place, tree)),
        })
    }

    /// The indexes told since the newest checkpoint taken, each once and rising.
    pub fn touched(&self) -> Result<Vec<u32>, NoMemory>
        ensures touched { IfOk result (λ indexes. IsTouched self.now.told indexes.items) }
        ensures exact { IsExact self.now.told self.now.holds }
    {
        let once = told_once(self.alloc, &self.told)?;
        in_order(self.alloc, &once)
    }

    /// Holds a checkpoint of this place besides, with the digests of the tree.
    pub fn take(&mut self, place: u32, tree: &Tree) -> Result<(), NoMemory>
        requires later { self.old.taken < place }
        requires size { length tree.now ≡ self.old.size }
        ensures { OnOk result (self.new ≡ takes place tree.now self.old) }
    {
        let copy = tree.copy(self.alloc)?;
        let checkpoint = Checkpoint::new(self.alloc, place, copy);
        self.held.push(checkpoint)?;
        self.told.clear();
        self.taken = place;
        Ok(())
    }

    /// The text that an index had at a place, where nothing changed that was not told: the one saved first at or after
    /// the place, else the present text. There is none where the place is not held, or the index lies outside.
    pub fn get(
        &mut self,
        server: &mut Srv,
        table: &ConfTable,
        place: u32,
        index: u32,
    ) -> Result<Option<RcSlice<u8>>, WrapErr>
        requires stands { (A : List Entry) × StandValid (state server.old).tree table.now A }
        requires size { length table.now.rows.items ≡ self.old.size }
        ensures held { IfOk result (λ text. (A : List Entry) → StandValid (state server.old).tree table.now A →
            option_map rc_slice_items text ≡ held_text place index A self.old) }
        ensures same { self.new ≡ self.old }
        ensures tree { OnOk result ((state server.new).tree ≡ (state server.old).tree) }
        ensures watched { Watched (state server.old) (state server.new) result }
    {
        if !self.held.has(place) || self.size <= index as usize {
            return Ok(None);
        }
        if let Some(text) = self.held.saved(place, index) {
            return shared(text);
        }
        let text = present_text(self.alloc, server, table, index)?;
        shared(&text)
    }

    /// The text of a node of the checkpoint of a place, or `None` where the place is not held, at level 0, and outside
    /// the tree. It takes no memory.
    pub fn node(&self, place: u32, level: u32, number: u32) -> Option<[u8; 524]>
        ensures text { IfSome result (λ text. IsNodeText place level number self.now.holds text) }
        ensures some { IsSome result ↔ HasNode place level number self.now.holds }
    {
        match self.held.at(place) {
            Some(c) => c.node(level, number),
            None => None,
        }
    }

    /// Forgets the checkpoints of lower places. It takes no memory.
    pub fn drop_before(&mut self, place: u32)
        ensures { self.new ≡ drops place self.old }
    {
        self.held.drop_before(place);
    }
}

impl Modify for CheckpointStore {
    ghost told = { λ s. s.told };

    ghost noticed = { λ old A i new. new ≡ notices A i old };

    fn modify(&mut self, server: &mut Srv, table: &ConfTable, index: u32) -> Result<(), WrapErr> {
        if self.told.reserve(1).is_err() {
            return Err(WrapErr::NoMemory);
        }
        self.held.save(self.alloc, server, table, index)?;
        push_within(&mut self.told, index)
    }
}
