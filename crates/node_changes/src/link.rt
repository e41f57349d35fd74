//! One name more of an object that is there.

ghost use Rattle.std.specs.Prelude.{◌≡◌, List, Some, true, OnOk};
ghost use Rattle.nfs2_types.specs.Names.{is_name};
ghost use Rattle.server_trait.specs.Tree.{Tree, named};
ghost use Rattle.abs_model.specs.declared.entry.Entry.{Entry};
ghost use Rattle.abs_model.specs.Array.{changed};
ghost use Rattle.conf_map.specs.Stands.{Stands};
ghost use Rattle.conf_map.specs.Tallied.{Tallied};
ghost use Rattle.conf_map.specs.Notice.{Watched};
ghost use Rattle.node_changes.specs.Links.{HasRoomToLink, names_both, CanLink};

use crate::rows::{NAME_BYTES, change_rows};
use conf_map::{Located, broken};
use nfs2_types::{Handle, Time};
use server_trait::{ConfTable, FileServer, Srv, WrapErr};

/// Gives a node one name more at the server, which has room for it.
fn add_name(server: &mut Srv, node: &Handle, dir: &Handle, name: &[u8]) -> Result<(), WrapErr>
    requires room { HasRoomToLink (state server.old) node.now dir.now name.now }
    requires name { is_name name.now ≡ true }
    ensures named { OnOk result ((t : Tree) → (state server.old).tree ≡ Some t →
        (state server.new).tree ≡ Some (named t dir.now name.now node.now)) }
    ensures watched { Watched (state server.old) (state server.new) result }
{
    match server.link(node, dir, name) {
        Ok(()) => Ok(()),
        Err(error) => Err(broken(error)),
    }
}

/// Gives an object one name more, in a directory that is written. After an error server and table stand for nothing.
pub fn add_link(
    server: &mut Srv,
    table: &mut ConfTable,
    dir: &Located,
    name: &[u8],
    at: &Located,
    time: Time,
) -> Result<(), WrapErr>
    requires { (A : List Entry)
        × CanLink (state server.old) table.old A name.now dir.now at.now }
    ensures stands { OnOk result ((A : List Entry) →
        CanLink (state server.old) table.old A name.now dir.now at.now →
        Stands (state server.new).tree table.new
        (changed (names_both A dir.now.index name.now at.now.index time) A)) }
    ensures tallied { OnOk result ((A : List Entry) →
        CanLink (state server.old) table.old A name.now dir.now at.now →
        Tallied table.new (changed (names_both A dir.now.index name.now at.now.index time) A)) }
    ensures watched { Watched (state server.old) (state server.new) result }
{
    add_name(server, &at.handle, &dir.handle, name)?;
    change_rows(table, dir.index, at.index, time, 0, NAME_BYTES);
    Ok(())
}
