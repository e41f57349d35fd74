//! A name is taken out, and with its last name the object to which it leads.

ghost use Rattle.std.specs.Prelude.{◌≡◌, ◌++◌, ◌∷◌, [], List, OnOk};
ghost use Rattle.abs_model.specs.declared.entry.Entry.{Entry};
ghost use Rattle.abs_model.specs.Array.{changed};
ghost use Rattle.conf_map.specs.Notice.{Watched, NoticedAll};
ghost use Rattle.conf_map.specs.Stands.{StandValid, Stands};
ghost use Rattle.conf_map.specs.Tallied.{Tallied};
ghost use Rattle.node_changes.specs.Drops.{drops, CanDrop};

use crate::find::Found;
use conf_map::{Modify, tell_both};
use nfs2_types::Time;
use node_changes::drop_name;
use server_trait::{ConfTable, Srv, WrapErr};

/// Tells of the directory and of the object, and takes out the name.
pub fn tell_and_drop<M: Modify>(
    server: &mut Srv,
    table: &mut ConfTable,
    old: &Found,
    name: &[u8],
    time: Time,
    saver: &mut M,
) -> Result<(), WrapErr>
    requires { (A : List Entry)
        × CanDrop (state server.old) table.old A name.now old.now.dir old.now.at }
    ensures stands { OnOk result ((A : List Entry) →
        CanDrop (state server.old) table.old A name.now old.now.dir old.now.at →
        Stands (state server.new).tree table.new
        (changed (drops A old.now.dir.index name.now old.now.at.index time) A)) }
    ensures tallied { OnOk result ((A : List Entry) →
        CanDrop (state server.old) table.old A name.now old.now.dir old.now.at →
        Tallied table.new (changed (drops A old.now.dir.index name.now old.now.at.index time) A)) }
    ensures told { OnOk result (M.told saver.new
        ≡ M.told saver.old ++ (old.now.dir.index ∷ old.now.at.index ∷ [])) }
    ensures noticed { OnOk result ((A : List Entry) → StandValid (state server.old).tree table.old A →
        NoticedAll M.noticed A saver.old (old.now.dir.index ∷ old.now.at.index ∷ []) saver.new) }
    ensures watched { Watched (state server.old) (state server.new) result }
{
    tell_both(server, table, old.dir.index, old.at.index, saver)?;
    drop_name(server, table, &old.dir, name, &old.at, time)?;
    Ok(())
}
