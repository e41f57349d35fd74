//! Rebuildings that begin.

ghost use Rattle.std.specs.Prelude.{◌≡◌, List, IfOk, OnOk, length};
ghost use Rattle.nfs2_types.specs.declared.Limits.{Limits};
ghost use Rattle.abs_model.specs.declared.Entry.{Entry};
ghost use Rattle.abs_model.specs.Array.{empty_array};
ghost use Rattle.conf_map.specs.Notice.{Watched};
ghost use Rattle.conf_map.specs.Stands.{StandValid, StandsValid, AreWithin, HasRoom};
ghost use Rattle.partition_tree.specs.Digests.{IsTreeSize};
ghost use Rattle.restart.specs.Rows.{AreRelinked};
ghost use Rattle.recovery.specs.Rebuilt.{Begins};

use crate::reading::read_tree;
use crate::rebuild::Rebuild;
use conf_map::fresh;
use nfs2_types::Limits;
use replica::empty_tree;
use restart::restart;
use server_trait::{ConfTable, Srv, WrapErr};
use std::alloc::Global;

impl Rebuild {
    /// Reboots the server of a replica that is given up. Server and table stand for the array that they stood for, and
    /// its digests are read anew from the objects, whatever the replica believed. After an error they stand for
    /// nothing. `Down`: the server failed.
    pub fn after_reboot(
        alloc: Global,
        server: &mut Srv,
        table: &mut ConfTable,
    ) -> Result<Rebuild, WrapErr>
        requires stands { (A : List Entry) × StandValid (state server.old).tree table.old A }
        requires size { IsTreeSize (length table.old.rows.items) }
        ensures stands { OnOk result ((limits : Limits) (A : List Entry) →
            StandsValid limits (state server.old).tree table.old A →
            StandsValid limits (state server.new).tree table.new A) }
        ensures begins { IfOk result (λ b. (A : List Entry) →
            StandValid (state server.old).tree table.old A → Begins A b) }
        ensures rows { OnOk result (AreRelinked table.old table.new) }
        ensures watched { Watched (state server.old) (state server.new) result }
    {
        restart(alloc, server, table)?;
        let own = read_tree(alloc, server, table)?;
        let rebuild = Rebuild::begin(alloc, own)?;
        Ok(rebuild)
    }

    /// Wipes a server, whatever it held, as that of a replica that was down. `Down`: the server failed.
    pub fn after_wipe(
        alloc: Global,
        server: &mut Srv,
        table: &mut ConfTable,
        limits: &Limits,
    ) -> Result<Rebuild, WrapErr>
        requires within { AreWithin limits.now }
        requires size { IsTreeSize limits.now.n }
        requires room { HasRoom limits.now (state server.old).limits }
        ensures stands { OnOk result (StandsValid limits.now (state server.new).tree table.new
            (empty_array limits.now.n)) }
        ensures begins { IfOk result (Begins (empty_array limits.now.n)) }
        ensures watched { Watched (state server.old) (state server.new) result }
    {
        let own = empty_tree(alloc, limits.n)?;
        let rebuild = Rebuild::begin(alloc, own)?;
        fresh(alloc, server, table, limits.n)?;
        Ok(rebuild)
    }
}
