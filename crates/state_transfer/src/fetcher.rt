//! A fetch from the root down.

ghost use Rattle.std.specs.Prelude.{◌≡◌, ◌+◌, ◌^◌, ◌<◌, ◌∷◌, [], None, IsSome, IfOk, OnErr, length};
ghost use Rattle.state_transfer.specs.Stand.{next_in};
ghost use Rattle.state_transfer.specs.Fetch.{begun, IsBegun, IsAnswer};

use crate::item::{Counts, Item, Taken};
use crate::walk::Walk;
use abs_model::Change;
use nfs2_types::{Digest, NoMemory};
use partition_tree::Tree;
use sha2::{Digest as _, Sha256};
use std::alloc::Global;
use std::marker::Model;

/// Fetches what a target has and the own array hasn't: a walk from the root down that sees digests alone and keeps no
/// text of a node. Contracts see what it stands at and the entries that it got.
#[derive(Drop)]
pub struct Fetcher {
    alloc: Global,
    own: Tree,
    place: u32,
    walk: Walk,
}

impl Model for Fetcher {
    ghost use Rattle.std.specs.Prelude.{◌≡◌, ◌^◌, length};
    ghost use Rattle.state_transfer.specs.Fetch.{Fetch};
    ghost use Rattle.state_transfer.specs.Walk.{fetch_of, IsSound};

    ghost Value = { Fetch };

    ghost view = { λ f. fetch_of f.own f.place f.walk };

    ghost invariant = { λ f. (length f.own ≡ 16 ^ f.walk.levels) × IsSound f.walk };
}

impl Fetcher {
    /// Begins towards the root of a place, from the digests of the own texts.
    pub fn new(alloc: Global, own: Tree, place: u32, root: Digest) -> Result<Fetcher, NoMemory>
        ensures { IfOk result (λ f. IsBegun own place root f) }
    {
        let mut walk = Walk::new(alloc, own.levels())?;
        walk.begin(&own, root);
        Ok(Fetcher {
            alloc,
            own,
            place,
            walk,
        })
    }

    /// The item that is missing of the highest level, and among these of the lowest number, or `None` where nothing is
    /// missing. It takes no memory.
    pub fn next_item(&self) -> Option<Item>
        ensures { result ≡ next_in self.now.stand }
    {
        let wanted = self.walk.wanted.get(self.walk.next)?;
        Some(Item {
            level: self.walk.level,
            number: wanted.0,
        })
    }

    /// Takes the bytes for the item that is next, exactly where they have the digest that is expected there and are the
    /// text of that item. After want of memory it is as it was. It costs the bytes and one digest.
    pub fn accept(&mut self, bytes: &[u8]) -> Result<Taken, NoMemory>
        requires { IsSome (next_in self.old.stand) }
        ensures taken { IfOk result (IsAnswer bytes.now self.old self.new) }
        ensures err { OnErr result (self.new ≡ self.old) }
    {
        let (number, digest) = self.walk.wanted[self.walk.next];
        if Sha256::digest(bytes) != digest {
            return Ok(Taken::Wrong);
        }
        self.walk.pass(self.alloc, &self.own, number, bytes)
    }

    /// Sets a new target, and forgets what was got. It takes no memory.
    pub fn retarget(&mut self, place: u32, root: Digest)
        ensures { self.new ≡ begun self.old.own place self.old.levels root }
    {
        self.place = place;
        self.walk.begin(&self.own, root);
    }

    /// How many nodes and entries were got towards the target: so few that the two can be added. It takes no memory.
    pub fn counts(&self) -> Counts
        ensures nodes { result.nodes ≡ self.now.nodes }
        ensures objects { result.objects ≡ length self.now.changes }
        ensures few { result.nodes + result.objects < 2 ^ 32 }
    {
        Counts {
            nodes: self.walk.nodes,
            objects: self.walk.changes.len() as u32,
        }
    }

    /// The entries that were got, once nothing is missing, and the own digests back. It takes no memory.
    pub fn changes(self) -> (Vec<Change>, Tree)
        requires { next_in self.stand ≡ None }
        ensures changes { result.0.items ≡ self.changes }
        ensures own { result.1 ≡ self.own }
    {
        let walk = self.walk;
        (walk.changes, self.own)
    }
}
