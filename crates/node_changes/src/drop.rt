//! A name is taken out, and with its last name the object to which it leads.

ghost use Rattle.std.specs.Prelude.{◌≡◌, ◌≢◌, ◌≤◌, ℕ, false, List, Some, true, IsSomeAnd, OnOk};
ghost use Rattle.nfs2_types.specs.Names.{is_name};
ghost use Rattle.server_trait.specs.Tree.{Tree};
ghost use Rattle.server_trait.specs.Calls.{Removed};
ghost use Rattle.abs_model.specs.declared.entry.Entry.{Entry};
ghost use Rattle.abs_model.specs.Array.{changed};
ghost use Rattle.conf_map.specs.Found.{is_dir_kind};
ghost use Rattle.conf_map.specs.Notice.{Watched};
ghost use Rattle.conf_map.specs.Stands.{handle_at, Stands};
ghost use Rattle.conf_map.specs.Tallied.{Tallied};
ghost use Rattle.node_changes.specs.Drops.{CanTake, last_name, last_bytes_of, drops, CanDrop};

use crate::rows::{NAME_BYTES, change_rows, clear_rows};
use conf_map::{Located, attr_of, broken};
use nfs2_types::{Handle, Kind, Time};
use server_trait::{ConfTable, FileServer, NodeAttr, Srv, WrapErr};

/// Takes a name out at the server, by the kind of node to which it leads.
fn take_out(server: &mut Srv, dir: &Handle, name: &[u8], kind: Kind) -> Result<(), WrapErr>
    requires can { IsSomeAnd (state server.old).tree
        (λ t. CanTake t dir.now name.now (is_dir_kind kind)) }
    requires name { is_name name.now ≡ true }
    ensures taken { OnOk result ((t : Tree) → (state server.old).tree ≡ Some t →
        Removed t dir.now name.now (state server.new).tree) }
    ensures watched { Watched (state server.old) (state server.new) result }
{
    match kind {
        Kind::Dir => match server.rmdir(dir, name) {
            Ok(()) => Ok(()),
            Err(error) => Err(broken(error)),
        },
        _ => match server.remove(dir, name) {
            Ok(()) => Ok(()),
            Err(error) => Err(broken(error)),
        },
    }
}

/// Whether a node that loses a name has no other: a directory has one alone.
fn is_last(attr: &NodeAttr) -> bool
    ensures { result ≡ last_name attr.now }
{
    match attr.kind {
        Kind::Dir => true,
        _ => attr.links <= 1,
    }
}

/// The bytes of a last name, with those of the file or the link that goes with it.
fn last_bytes(attr: &NodeAttr) -> u32
    requires { is_dir_kind attr.now.kind ≡ false → attr.now.size ≤ 1048576 }
    ensures { result ≡ last_bytes_of attr.now }
{
    match attr.kind {
        Kind::Dir => NAME_BYTES,
        _ => NAME_BYTES + attr.size,
    }
}

/// Takes out a name of a directory, and with its last name the object to which it leads. After an error server and
/// table stand for nothing.
pub fn drop_name(
    server: &mut Srv,
    table: &mut ConfTable,
    dir: &Located,
    name: &[u8],
    at: &Located,
    time: Time,
) -> Result<(), WrapErr>
    requires { (A : List Entry) × CanDrop (state server.old) table.old A name.now dir.now at.now }
    ensures stands { OnOk result ((A : List Entry) →
        CanDrop (state server.old) table.old A name.now dir.now at.now →
        Stands (state server.new).tree table.new
        (changed (drops A dir.now.index name.now at.now.index time) A)) }
    ensures tallied { OnOk result ((A : List Entry) →
        CanDrop (state server.old) table.old A name.now dir.now at.now →
        Tallied table.new (changed (drops A dir.now.index name.now at.now.index time) A)) }
    ensures handles { OnOk result ((i : ℕ) → i ≢ at.now.index →
        handle_at table.new.rows.items i ≡ handle_at table.old.rows.items i) }
    ensures watched { Watched (state server.old) (state server.new) result }
{
    let attr = attr_of(server, &at.handle)?;
    take_out(server, &dir.handle, name, attr.kind)?;
    if is_last(&attr) {
        clear_rows(table, dir.index, at.index, time, last_bytes(&attr));
        return Ok(());
    }
    change_rows(table, dir.index, at.index, time, NAME_BYTES, 0);
    Ok(())
}
