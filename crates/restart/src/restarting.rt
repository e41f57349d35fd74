//! The reboot of a server that has a table.

ghost use Rattle.std.specs.Prelude.{◌≡◌, List, Some, OnOk};
ghost use Rattle.nfs2_types.specs.declared.Limits.{Limits};
ghost use Rattle.server_trait.specs.Tree.{Tree};
ghost use Rattle.server_trait.specs.Step.{HasTree};
ghost use Rattle.server_trait.specs.Calls.{Rebooted};
ghost use Rattle.abs_model.specs.declared.entry.Entry.{Entry};
ghost use Rattle.conf_map.specs.Notice.{Watched};
ghost use Rattle.conf_map.specs.Stands.{StandValid, StandsValid};
ghost use Rattle.restart.specs.Rows.{AreRelinked};

use crate::handles::find_handles;
use conf_map::broken;
use server_trait::{ConfTable, FileServer, Srv, WrapErr};
use std::alloc::Global;

/// Reboots a server that has a tree.
fn reboot(server: &mut Srv) -> Result<(), WrapErr>
    requires { HasTree (state server.old) }
    ensures rebooted { OnOk result ((t : Tree) → (state server.old).tree ≡ Some t →
        Rebooted t (state server.new).tree) }
    ensures watched { Watched (state server.old) (state server.new) result }
{
    match server.reboot() {
        Ok(()) => Ok(()),
        Err(error) => Err(broken(error)),
    }
}

/// Reboots the server and finds its nodes again: by a walk from the root, and by their numbers.
pub fn restart(alloc: Global, server: &mut Srv, table: &mut ConfTable) -> Result<(), WrapErr>
    requires { (A : List Entry) × StandValid (state server.old).tree table.old A }

    // Whatever array they stood for, they stand for it again.
    ensures stands { OnOk result ((limits : Limits) (A : List Entry) →
        StandsValid limits (state server.old).tree table.old A →
        StandsValid limits (state server.new).tree table.new A) }
    ensures rows { OnOk result (AreRelinked table.old table.new) }
    ensures watched { Watched (state server.old) (state server.new) result }
{
    reboot(server)?;
    find_handles(alloc, server, table)?;
    Ok(())
}
