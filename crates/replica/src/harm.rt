//! What harms a live replica.

ghost use Rattle.std.specs.Prelude.{◌≡◌, ◌<◌, ◌+◌, ◌^◌, true, List, IfOk, OnErr, OnOk};
ghost use Rattle.nfs2_types.specs.Times.{is_time};
ghost use Rattle.abs_model.specs.declared.Entry.{Entry};
ghost use Rattle.abs_model.specs.Array.{empty_array};
ghost use Rattle.conf_map.specs.Stands.{StandsValid, AreWithin, HasRoom};
ghost use Rattle.conf_map.specs.Notice.{Watched};
ghost use Rattle.replica.specs.Lying.{lied};
ghost use Rattle.replica.specs.Replicas.{IsOver, harm};
ghost use Rattle.replica.specs.Passed.{Passed, Skipped};

use crate::lie::Lie;
use crate::running::{Cast, Replica};
use conf_map::fresh;
use nfs2_types::{Digest, Limits, NoMemory, Time};
use server_trait::{ConfTable, Srv, WrapErr};
use std::alloc::Global;

impl Replica {
    /// Runs this request in place of the one behind its place, and may be wrong from then on. All else is as for a
    /// request of its own.
    pub fn rogue(
        &mut self,
        alloc: Global,
        server: &mut Srv,
        table: &mut ConfTable,
        limits: &Limits,
        time: Time,
        call: &[u8],
    ) -> Result<Cast, WrapErr>
        requires stands { (A : List Entry) × StandsValid limits.now (state server.old).tree table.old A }
        requires over { IsOver limits.now.n self.old }
        requires within { AreWithin limits.now }
        requires room { HasRoom limits.now (state server.old).limits }
        requires time { is_time time ≡ true }
        requires place { self.old.place + 1 < 2 ^ 32 }
        requires interval { 0 < limits.now.k }
        ensures passed { IfOk result (λ cast. Passed limits.now time call.now
            (state server.old).tree (state server.new).tree table.old table.new (harm self.old) self.new cast) }
        ensures over { OnOk result (IsOver limits.now.n self.new) }
        ensures watched { Watched (state server.old) (state server.new) result }
    {
        self.harmed = true;
        let cast = self.run_next(alloc, server, table, limits, time, call)?;
        Ok(cast)
    }

    /// Passes a place with no request, and may be wrong from then on. It casts no reply word; a checkpoint is taken
    /// where one is due, and its root word is given. `Down`: the server failed.
    pub fn skip(
        &mut self,
        alloc: Global,
        server: &mut Srv,
        table: &ConfTable,
        limits: &Limits,
    ) -> Result<Option<Digest>, WrapErr>
        requires stands { (A : List Entry) × StandsValid limits.now (state server.old).tree table.now A }
        requires over { IsOver limits.now.n self.old }
        requires within { AreWithin limits.now }
        requires place { self.old.place + 1 < 2 ^ 32 }
        requires interval { 0 < limits.now.k }
        ensures skipped { IfOk result (λ root. Skipped limits.now (state server.old).tree (state server.new).tree
            table.now self.old self.new root) }
        ensures over { OnOk result (IsOver limits.now.n self.new) }
        ensures watched { Watched (state server.old) (state server.new) result }
    {
        self.harmed = true;
        self.place += 1;
        let root = self.check(alloc, server, table, limits)?;
        Ok(root)
    }

    /// Keeps a lie, and may be wrong from then on.
    pub fn lie(&mut self, lie: Lie) -> Result<(), NoMemory>
        ensures ok { OnOk result (self.new ≡ record (harm self.old) { lies = lied lie self.old.lies }) }
        ensures err { OnErr result (self.new ≡ self.old) }
    {
        self.lies.keep(lie)?;
        self.harmed = true;
        Ok(())
    }

    /// Wipes the server, and goes on as if nothing had been: digests, checkpoints and what is told stay. It may be
    /// wrong from then on. `Down`: the server failed.
    pub fn wipe(
        &mut self,
        alloc: Global,
        server: &mut Srv,
        table: &mut ConfTable,
        limits: &Limits,
    ) -> Result<(), WrapErr>
        requires within { AreWithin limits.now }
        requires room { HasRoom limits.now (state server.old).limits }
        ensures stands { OnOk result (StandsValid limits.now (state server.new).tree table.new
            (empty_array limits.now.n)) }
        ensures harmed { OnOk result (self.new ≡ harm self.old) }
        ensures watched { Watched (state server.old) (state server.new) result }
    {
        fresh(alloc, server, table, limits.n)?;
        self.harmed = true;
        Ok(())
    }
}
