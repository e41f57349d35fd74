//! The handles that a reboot gave, put into the table.

ghost use Rattle.std.specs.Prelude.{◌≡◌, ◌<◌, ◌^◌, List, true, length, OnOk};
ghost use Rattle.abs_model.specs.declared.entry.Entry.{Entry};
ghost use Rattle.conf_map.specs.Notice.{Watched};
ghost use Rattle.conf_map.specs.Stands.{Stands};
ghost use Rattle.restart.specs.Rows.{AreRelinked};
ghost use Rattle.restart.specs.Walk.{Restarts, IsGoing, is_found};

use crate::beginning::begin;
use crate::found::Found;
use crate::rebinding::{bind_all, clear_all};
use crate::walk::find_all;
use server_trait::{ConfTable, Srv, WrapErr};
use std::alloc::Global;

/// Finds the new handles and puts them into the table, where the export directory's is noted already.
fn relink(server: &mut Srv, table: &mut ConfTable, found: &mut Found) -> Result<(), WrapErr>
    requires going { (A : List Entry) × (k : Restarts (state server.old).tree table.old A)
        × IsGoing table.old k.new A found.old × (is_found found.old 0 ≡ true) }
    requires few { length table.old.rows.items < 2 ^ 32 }
    ensures stands { OnOk result ((A : List Entry) (k : Restarts (state server.old).tree table.old A) →
        IsGoing table.old k.new A found.old → is_found found.old 0 ≡ true →
        Stands (state server.new).tree table.new A) }
    ensures rows { OnOk result (AreRelinked table.old table.new) }
    ensures watched { Watched (state server.old) (state server.new) result }
{
    find_all(server, found)?;
    let lowest = table.lowest;
    clear_all(table);
    bind_all(table, &found.handles)?;
    table.lowest = lowest;
    Ok(())
}

/// Finds the handles that a reboot gave, by a walk and by the nodes' numbers, and puts them into the table.
pub fn find_handles(alloc: Global, server: &mut Srv, table: &mut ConfTable) -> Result<(), WrapErr>
    requires restarts { (A : List Entry) × Restarts (state server.old).tree table.old A }
    requires few { length table.old.rows.items < 2 ^ 32 }
    ensures stands { OnOk result ((A : List Entry) → Restarts (state server.old).tree table.old A →
        Stands (state server.new).tree table.new A) }
    ensures rows { OnOk result (AreRelinked table.old table.new) }
    ensures watched { Watched (state server.old) (state server.new) result }
{
    let mut found = begin(alloc, server, table)?;
    relink(server, table, &mut found)?;
    Ok(())
}
