//! A live replica.

ghost use Rattle.std.specs.Prelude.{◌≡◌, ◌<◌, ◌+◌, ◌^◌, true, length, List, IfOk, OnOk};
ghost use Rattle.nfs2_types.specs.Times.{is_time};
ghost use Rattle.abs_model.specs.declared.Entry.{Entry};
ghost use Rattle.abs_model.specs.Array.{empty_array};
ghost use Rattle.conf_map.specs.Stands.{StandValid, StandsValid, AreWithin, HasRoom};
ghost use Rattle.conf_map.specs.Notice.{Watched};
ghost use Rattle.partition_tree.specs.Digests.{IsTreeSize};
ghost use Rattle.cow_checkpoint.specs.Store.{drops};
ghost use Rattle.replica.specs.Replicas.{IsOver, IsRootWord, begun, begun_at, takes_checkpoint, checked};
ghost use Rattle.replica.specs.Passed.{Passed};

use crate::beginning::empty_tree;
use crate::lies::Lies;
use crate::refreshing::refresh;
use conf_map::fresh;
use cow_checkpoint::CheckpointStore;
use dispatch::answer;
use nfs2_types::{Digest, Limits, NoMemory, Time, Word};
use partition_tree::Tree;
use server_trait::{ConfTable, Srv, WrapErr};
use std::alloc::Global;

/// A live replica: how many requests it has passed, the digests that it believes of its array, its checkpoints, its
/// lies, and whether it was harmed. Its array is what its server and table stand for; it keeps none.
#[derive(Drop)]
pub struct Replica {
    pub place: u32,
    pub tree: Tree,
    pub store: CheckpointStore,
    pub lies: Lies,
    pub harmed: bool,
}

/// The words that a replica casts for a place, the first place being 1: the reply word, and where a checkpoint was
/// taken the root of its digests; or its lies about them.
#[derive(Debug, Drop)]
pub struct Cast {
    pub place: u32,
    pub word: Word,
    pub root: Option<Digest>,
}

impl Replica {
    /// A replica at a place with these digests, whose checkpoint it holds: honest and not harmed.
    pub fn begun_at(alloc: Global, place: u32, tree: Tree) -> Result<Replica, NoMemory>
        ensures { IfOk result (λ k. k ≡ begun_at place tree) }
    {
        let first = tree.copy(alloc)?;
        let store = CheckpointStore::new(alloc, place, first)?;
        Ok(Replica {
            place,
            tree,
            store,
            lies: Lies::none(alloc),
            harmed: false,
        })
    }

    /// A replica that has passed no request, over a server that is wiped, whatever it held. `Down`: the server failed.
    pub fn fresh(
        alloc: Global,
        server: &mut Srv,
        table: &mut ConfTable,
        limits: &Limits,
    ) -> Result<Replica, WrapErr>
        requires within { AreWithin limits.now }
        requires size { IsTreeSize limits.now.n }
        requires room { HasRoom limits.now (state server.old).limits }
        ensures begins { IfOk result (λ k. k ≡ begun limits.now.n) }
        ensures stands { OnOk result (StandsValid limits.now (state server.new).tree table.new
            (empty_array limits.now.n)) }
        ensures watched { Watched (state server.old) (state server.new) result }
    {
        let tree = empty_tree(alloc, limits.n)?;
        let replica = Replica::begun_at(alloc, 0, tree)?;
        fresh(alloc, server, table, limits.n)?;
        Ok(replica)
    }

    /// Runs the request behind its place, from whatever array server and table stand for, passes that place, and takes
    /// a checkpoint where one is due. After an error nothing is said of the replica, and server and table stand for
    /// nothing. `Down`: the server failed.
    pub fn run_next(
        &mut self,
        alloc: Global,
        server: &mut Srv,
        table: &mut ConfTable,
        limits: &Limits,
        time: Time,
        call: &[u8],
    ) -> Result<Cast, WrapErr>
        requires stands { (A : List Entry) × StandsValid limits.now (state server.old).tree table.old A }
        requires over { IsOver limits.now.n self.old }
        requires within { AreWithin limits.now }
        requires room { HasRoom limits.now (state server.old).limits }
        requires time { is_time time ≡ true }
        requires place { self.old.place + 1 < 2 ^ 32 }
        requires interval { 0 < limits.now.k }
        ensures passed { IfOk result (λ cast. Passed limits.now time call.now
            (state server.old).tree (state server.new).tree table.old table.new self.old self.new cast) }
        ensures over { OnOk result (IsOver limits.now.n self.new) }
        ensures watched { Watched (state server.old) (state server.new) result }
    {
        let word = answer(alloc, server, table, limits, time, call, &mut self.store)?;
        self.place += 1;
        let root = self.check(alloc, server, table, limits)?;
        let spoken = self.lies.word_for(self.place, word)?;
        Ok(Cast {
            place: self.place,
            word: spoken,
            root,
        })
    }

    /// Takes the checkpoint of its place where one is due, and gives its root word then.
    pub(crate) fn check(
        &mut self,
        alloc: Global,
        server: &mut Srv,
        table: &ConfTable,
        limits: &Limits,
    ) -> Result<Option<Digest>, WrapErr>
        requires stands { (A : List Entry) × StandValid (state server.old).tree table.now A }
        requires rows { length table.now.rows.items ≡ limits.now.n }
        requires over { IsOver limits.now.n self.old }
        requires later { self.old.store.taken < self.old.place }
        requires interval { 0 < limits.now.k }
        ensures checked { OnOk result ((A : List Entry) → StandValid (state server.old).tree table.now A →
            self.new ≡ checked limits.now A self.old) }
        ensures root { IfOk result (λ root. IsRootWord limits.now self.new root) }
        ensures over { OnOk result (IsOver limits.now.n self.new) }
        ensures same { OnOk result ((state server.new).tree ≡ (state server.old).tree) }
        ensures watched { Watched (state server.old) (state server.new) result }
    {
        if self.place % limits.k != 0 {
            return Ok(None);
        }
        self.take_checkpoint(alloc, server, table)?;
        Ok(Some(self.lies.root_for(self.place, self.tree.root())))
    }

    /// Brings the digests of the objects told up to date, and takes the checkpoint of its place.
    fn take_checkpoint(
        &mut self,
        alloc: Global,
        server: &mut Srv,
        table: &ConfTable,
    ) -> Result<(), WrapErr>
        requires stands { (A : List Entry) × StandValid (state server.old).tree table.now A }
        requires over { IsOver (length table.now.rows.items) self.old }
        requires later { self.old.store.taken < self.old.place }
        ensures taken { OnOk result ((A : List Entry) → StandValid (state server.old).tree table.now A →
            self.new ≡ takes_checkpoint A self.old) }
        ensures same { OnOk result ((state server.new).tree ≡ (state server.old).tree) }
        ensures watched { Watched (state server.old) (state server.new) result }
    {
        let told = self.store.touched()?;
        refresh(alloc, server, table, &mut self.tree, told.as_slice())?;
        self.store.take(self.place, &self.tree)?;
        Ok(())
    }

    /// Forgets the checkpoints of places below a stable one. It takes no memory.
    pub fn stable_at(&mut self, place: u32)
        ensures { self.new ≡ record self.old { store = drops place self.old.store } }
    {
        self.store.drop_before(place);
    }
}
