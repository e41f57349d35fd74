//! Notices of the objects that a move changes.

ghost use Rattle.std.specs.Prelude.{◌≡◌, ◌<◌, ◌++◌, List, OnOk, length};
ghost use Rattle.abs_model.specs.declared.entry.Entry.{Entry};
ghost use Rattle.conf_map.specs.Notice.{Watched, NoticedAll};
ghost use Rattle.conf_map.specs.Stands.{StandValid};
ghost use Rattle.wrap_names.specs.Renames.{told_dirs, told_over, told_ends, AreLive, IsLiveIf};

use crate::ends::Ends;
use conf_map::{Located, Modify, tell_both};
use server_trait::{ConfTable, FileServer, Srv, WrapErr};

/// Tells of both directories, or of the one.
fn tell_dirs<M: Modify>(
    server: &mut Srv,
    table: &ConfTable,
    from: u32,
    to: u32,
    saver: &mut M,
) -> Result<(), WrapErr>
    requires stands { (A : List Entry) × StandValid (state server.old).tree table.now A }
    requires from { from < length table.now.rows.items }
    requires to { to < length table.now.rows.items }
    ensures told { OnOk result (M.told saver.new ≡ M.told saver.old ++ told_dirs from to) }
    ensures noticed { OnOk result ((A : List Entry) →
        StandValid (state server.old).tree table.now A →
        NoticedAll M.noticed A saver.old (told_dirs from to) saver.new) }
    ensures same { OnOk result ((state server.new).tree ≡ (state server.old).tree) }
    ensures watched { Watched (state server.old) (state server.new) result }
{
    if from == to {
        saver.modify(server, table, from)?;
        return Ok(());
    }
    tell_both(server, table, from, to, saver)?;
    Ok(())
}

/// Tells of what is replaced, if anything is.
fn tell_over<M: Modify>(
    server: &mut Srv,
    table: &ConfTable,
    over: Option<Located>,
    saver: &mut M,
) -> Result<(), WrapErr>
    requires stands { (A : List Entry) × StandValid (state server.old).tree table.now A }
    requires live { IsLiveIf table.now.rows.items over }
    ensures told { OnOk result (M.told saver.new ≡ M.told saver.old ++ told_over over) }
    ensures noticed { OnOk result ((A : List Entry) →
        StandValid (state server.old).tree table.now A →
        NoticedAll M.noticed A saver.old (told_over over) saver.new) }
    ensures same { OnOk result ((state server.new).tree ≡ (state server.old).tree) }
    ensures watched { Watched (state server.old) (state server.new) result }
{
    match over {
        Some(over) => {
            saver.modify(server, table, over.index)?;
            Ok(())
        }
        None => Ok(()),
    }
}

/// Tells of the directories of a move and then of what it replaces, before any is changed.
pub fn tell_ends<M: Modify>(
    server: &mut Srv,
    table: &ConfTable,
    ends: &Ends,
    saver: &mut M,
) -> Result<(), WrapErr>
    requires stands { (A : List Entry) × StandValid (state server.old).tree table.now A }
    requires live { AreLive table.now.rows.items ends.now }
    ensures told { OnOk result (M.told saver.new ≡ M.told saver.old ++ told_ends ends.now) }
    ensures noticed { OnOk result ((A : List Entry) →
        StandValid (state server.old).tree table.now A →
        NoticedAll M.noticed A saver.old (told_ends ends.now) saver.new) }
    ensures same { OnOk result ((state server.new).tree ≡ (state server.old).tree) }
    ensures watched { Watched (state server.old) (state server.new) result }
{
    tell_dirs(server, table, ends.from.index, ends.to.index, saver)?;
    tell_over(server, table, ends.over, saver)?;
    Ok(())
}
