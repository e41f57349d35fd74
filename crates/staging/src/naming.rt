//! Objects come under their names.

ghost use Rattle.std.specs.Prelude.{◌≡◌, ◌<◌, ◌^◌, ℕ, Bool, List, Some, true, length, slice_get, IsSomeAnd, OnOk};
ghost use Rattle.nfs2_types.specs.Names.{is_name};
ghost use Rattle.server_trait.specs.Tree.{Tree, named};
ghost use Rattle.abs_model.specs.declared.entry.Entry.{Entry};
ghost use Rattle.abs_model.specs.declared.entry.NameRow.{NameRow};
ghost use Rattle.abs_model.specs.Objects.{names_of};
ghost use Rattle.conf_map.specs.Notice.{Watched};
ghost use Rattle.conf_map.specs.Stands.{handle_at};
ghost use Rattle.staging.specs.Put.{CanLink, CanPutAt, let_out};
ghost use Rattle.staging.specs.Place.{put_in};
ghost use Rattle.staging.specs.Staged.{StagedAt};

use crate::making::staged_name;
use crate::names::place;
use abs_model::{Entry, NameRow, Object};
use conf_map::{Located, broken};
use nfs2_types::Handle;
use server_trait::{ConfTable, FileServer, Srv, WrapErr};
use std::alloc::Global;

/// The handle of a row, if it has one.
pub fn handle_of(table: &ConfTable, index: u32) -> Option<Handle>
    ensures { result ≡ handle_at table.now.rows.items index }
{
    match table.rows.get(index as usize) {
        Some(row) => row.handle,
        None => None,
    }
}

/// Gives a file or a link one name more.
fn link_name(server: &mut Srv, node: &Handle, dir: &Handle, name: &[u8]) -> Result<(), WrapErr>
    requires can { IsSomeAnd (state server.old).tree
        (λ t. CanLink t (state server.old).limits node.now dir.now name.now) }
    requires name { is_name name.now ≡ true }
    ensures linked { OnOk result ((t : Tree) → (state server.old).tree ≡ Some t →
        (state server.new).tree ≡ Some (named t dir.now name.now node.now)) }
    ensures watched { Watched (state server.old) (state server.new) result }
{
    match server.link(node, dir, name) {
        Ok(()) => Ok(()),
        Err(error) => Err(broken(error)),
    }
}

/// Puts an object under a name: out of the staging directory where it is there, else by a link.
pub fn put_name(
    alloc: Global,
    server: &mut Srv,
    table: &ConfTable,
    staging: &Handle,
    is_staged: bool,
    d: u32,
    row: &NameRow,
) -> Result<(), WrapErr>
    requires can { IsSomeAnd (state server.old).tree (λ t. (A : List Entry) × (C : List Entry) × (S : List NameRow)
        × CanPutAt t (state server.old).limits staging.now table.now A C S is_staged d row.now) }
    ensures put { OnOk result ((t : Tree) (A C : List Entry) (S : List NameRow) →
        (state server.old).tree ≡ Some t →
        CanPutAt t (state server.old).limits staging.now table.now A C S is_staged d row.now →
        StagedAt (state server.new).tree staging.now table.now (put_in A d row.now)
        (let_out S is_staged row.now)) }
    ensures watched { Watched (state server.old) (state server.new) result }
{
    let handle = match handle_of(table, d) {
        Some(handle) => handle,
        None => return Ok(()),
    };
    if is_staged {
        let name = match staged_name(alloc, row.index) {
            Ok(name) => name,
            Err(_) => return Err(WrapErr::NoMemory),
        };
        let dir = Located { index: d, handle };
        place(server, table, staging, name.as_bytes(), &dir, row)?;
        return Ok(());
    }
    let node = match handle_of(table, row.index) {
        Some(node) => node,
        None => return Ok(()),
    };
    link_name(server, &node, &handle, row.name.as_slice())?;
    Ok(())
}
