//! A size that is given to a file.

ghost use Rattle.std.specs.Prelude.{◌≡◌, List, ℕ, Some, OnOk};
ghost use Rattle.nfs2_types.specs.Bytes.{resized};
ghost use Rattle.server_trait.specs.Tree.{Tree, edited, with_bytes};
ghost use Rattle.abs_model.specs.declared.entry.Entry.{Entry};
ghost use Rattle.conf_map.specs.Notice.{Watched};
ghost use Rattle.conf_map.specs.Stands.{Stands};
ghost use Rattle.conf_map.specs.Tables.{IsLive};
ghost use Rattle.conf_map.specs.Tallied.{Tallied};
ghost use Rattle.node_changes.specs.Puts.{CanHold, CanResize, with_bytes_at};

use crate::rows::write_row;
use conf_map::{Located, broken};
use nfs2_types::{Handle, Time};
use server_trait::{ConfTable, FileServer, Srv, WrapErr};

/// Cuts a file at the server, or fills it with zeros, where the server has room for it.
pub fn resize(server: &mut Srv, file: &Handle, size: u32) -> Result<(), WrapErr>
    requires { (b : List ℕ) × CanHold (state server.old) file.now b size }
    ensures resized { OnOk result ((t : Tree) → (state server.old).tree ≡ Some t →
        (state server.new).tree ≡ Some (edited t file.now (with_bytes (resized size)))) }
    ensures watched { Watched (state server.old) (state server.new) result }
{
    match server.set_size(file, size) {
        Ok(()) => Ok(()),
        Err(error) => Err(broken(error)),
    }
}

/// Cuts a file or fills it with zeros from one size to another, and writes it at a moment. After an error server and
/// table stand for nothing.
pub fn resize_file(
    server: &mut Srv,
    table: &mut ConfTable,
    at: &Located,
    before: u32,
    after: u32,
    time: Time,
) -> Result<(), WrapErr>
    requires { (A : List Entry) × CanResize (state server.old) table.old A before after at.now }
    ensures stands { OnOk result ((A : List Entry) →
        CanResize (state server.old) table.old A before after at.now →
        Stands (state server.new).tree table.new (with_bytes_at A at.now.index (resized after) time)) }
    ensures tallied { OnOk result ((A : List Entry) →
        CanResize (state server.old) table.old A before after at.now →
        Tallied table.new (with_bytes_at A at.now.index (resized after) time)) }
    ensures live { OnOk result (IsLive table.new.rows.items at.now) }
    ensures watched { Watched (state server.old) (state server.new) result }
{
    resize(server, &at.handle, after)?;
    write_row(table, at.index, time, before, after);
    Ok(())
}
