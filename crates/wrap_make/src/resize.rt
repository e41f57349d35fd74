//! A size that is given to a file that is there.

ghost use Rattle.std.specs.Prelude.{◌≡◌, ◌++◌, List, OnOk};
ghost use Rattle.abs_model.specs.declared.entry.Entry.{Entry};
ghost use Rattle.abs_model.specs.Array.{changed};
ghost use Rattle.conf_map.specs.Notice.{Watched, NoticedAll};
ghost use Rattle.conf_map.specs.Stands.{Stands, StandValid};
ghost use Rattle.conf_map.specs.Tables.{IsLive};
ghost use Rattle.conf_map.specs.Tallied.{Tallied};
ghost use Rattle.wrap_make.specs.Files.{CanGive, resizes, told_sized};

use conf_map::{Located, Modify};
use nfs2_types::Time;
use node_changes::resize_file;
use server_trait::{ConfTable, FileServer, Srv, WrapErr};

/// Tells of a file and gives it its size, if there is one.
pub fn tell_and_resize<M: Modify>(
    server: &mut Srv,
    table: &mut ConfTable,
    at: &Located,
    before: u32,
    size: Option<u32>,
    time: Time,
    saver: &mut M,
) -> Result<(), WrapErr>
    requires { (A : List Entry) × CanGive (state server.old) table.old A before size at.now }
    ensures stands { OnOk result ((A : List Entry) →
        CanGive (state server.old) table.old A before size at.now →
        Stands (state server.new).tree table.new (changed (resizes A at.now.index size time) A)) }
    ensures tallied { OnOk result ((A : List Entry) →
        CanGive (state server.old) table.old A before size at.now →
        Tallied table.new (changed (resizes A at.now.index size time) A)) }
    ensures live { OnOk result (IsLive table.new.rows.items at.now) }
    ensures told { OnOk result (M.told saver.new ≡ M.told saver.old ++ told_sized at.now.index size) }
    ensures noticed { OnOk result ((A : List Entry) → StandValid (state server.old).tree table.old A →
        NoticedAll M.noticed A saver.old (told_sized at.now.index size) saver.new) }
    ensures watched { Watched (state server.old) (state server.new) result }
{
    let Some(size) = size else {
        return Ok(());
    };
    saver.modify(server, table, at.index)?;
    resize_file(server, table, at, before, size, time)?;
    Ok(())
}
