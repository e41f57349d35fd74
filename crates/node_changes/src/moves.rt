//! A name that moves to one that is free.

ghost use Rattle.std.specs.Prelude.{◌≡◌, ◌<◌, List, length, slice_get, slice_set, Some, OnOk};
ghost use Rattle.server_trait.specs.declared.bench.ConfEntry.{ConfEntry};
ghost use Rattle.abs_model.specs.declared.entry.Entry.{Entry};
ghost use Rattle.abs_model.specs.Array.{changed};
ghost use Rattle.conf_map.specs.Notice.{Watched};
ghost use Rattle.conf_map.specs.Stands.{Stands};
ghost use Rattle.conf_map.specs.Tallied.{Tallied, KeepsTally};
ghost use Rattle.node_changes.specs.Moves.{name_moves, CanMove};
ghost use Rattle.node_changes.specs.NameRows.{under, IsPutUnder};

use conf_map::{Located, broken, touch_row};
use nfs2_types::Time;
use server_trait::{ConfEntry, ConfTable, FileServer, Srv, WrapErr};

/// Sets the parent in a row. It takes no memory.
fn set_parent(table: &mut ConfTable, index: u32, parent: u32)
    requires { index < length table.old.rows.items }
    ensures row { (r : ConfEntry) → slice_get table.old.rows.items index ≡ Some r →
        table.new.rows.items ≡ slice_set table.old.rows.items index (under parent r) }
    ensures size { length table.new.rows.items ≡ length table.old.rows.items }
    ensures by_handle { table.new.by_handle ≡ table.old.by_handle }
    ensures tally { KeepsTally table.old table.new }
{
    let row = table.rows[index as usize];
    table.rows[index as usize] = ConfEntry { parent, ..row };
}

/// Puts a row under another parent, which is written. It takes no memory.
fn put_under(table: &mut ConfTable, parent: u32, index: u32, time: Time)
    requires parent { parent < length table.old.rows.items }
    requires index { index < length table.old.rows.items }
    ensures put { IsPutUnder table.old table.new parent index time }
    ensures tally { KeepsTally table.old table.new }
{
    set_parent(table, index, parent);
    touch_row(table, parent, time);
}

/// Moves a name of a directory to one that is free. After an error server and table stand for nothing.
pub fn move_name(
    server: &mut Srv,
    table: &mut ConfTable,
    from: &Located,
    name: &[u8],
    to: &Located,
    to_name: &[u8],
    at: &Located,
    time: Time,
) -> Result<(), WrapErr>
    requires { (A : List Entry)
        × CanMove (state server.old) table.old A name.now to_name.now from.now to.now at.now }
    ensures stands { OnOk result ((A : List Entry) →
        CanMove (state server.old) table.old A name.now to_name.now from.now to.now at.now →
        Stands (state server.new).tree table.new
        (changed (name_moves A from.now.index name.now to.now.index to_name.now at.now.index time) A)) }
    ensures tallied { OnOk result ((A : List Entry) →
        CanMove (state server.old) table.old A name.now to_name.now from.now to.now at.now →
        Tallied table.new
        (changed (name_moves A from.now.index name.now to.now.index to_name.now at.now.index time) A)) }
    ensures watched { Watched (state server.old) (state server.new) result }
{
    match server.rename(&from.handle, name, &to.handle, to_name) {
        Ok(()) => {}
        Err(error) => return Err(broken(error)),
    }
    put_under(table, to.index, at.index, time);
    touch_row(table, from.index, time);
    Ok(())
}
