//! Objects that stand in the staging directory get what they shall have.

ghost use Rattle.std.specs.Prelude.{◌≡◌, ◌<◌, ◌^◌, length, List, Some, IsSome, IsSomeAnd, OnOk};
ghost use Rattle.server_trait.specs.Tree.{Tree, node_at, edited, with_attr};
ghost use Rattle.abs_model.specs.declared.entry.Entry.{Entry};
ghost use Rattle.abs_model.specs.declared.entry.NameRow.{NameRow};
ghost use Rattle.conf_map.specs.Notice.{Watched};
ghost use Rattle.staging.specs.Fill.{CanFill, file_bytes, filled_at};
ghost use Rattle.staging.specs.Dress.{CanDress, dressed_at};
ghost use Rattle.staging.specs.Staged.{StagedAt};

use crate::naming::handle_of;
use abs_model::{Attr, Entry, Object};
use conf_map::{bind_row, broken};
use nfs2_types::Handle;
use node_changes::write_all;
use server_trait::{ConfEntry, ConfTable, FileServer, Srv, WrapErr};

/// Sets the mode and the owners of a node.
fn set_owners(server: &mut Srv, node: &Handle, attr: &Attr) -> Result<(), WrapErr>
    requires node { IsSomeAnd (state server.old).tree (λ t. IsSome (node_at t node.now)) }
    ensures set { OnOk result ((t : Tree) → (state server.old).tree ≡ Some t →
        (state server.new).tree ≡ Some (edited t node.now (with_attr attr.now.mode attr.now.uid attr.now.gid))) }
    ensures watched { Watched (state server.old) (state server.new) result }
{
    match server.set_attr(node, attr.mode, attr.uid, attr.gid) {
        Ok(()) => Ok(()),
        Err(error) => Err(broken(error)),
    }
}

/// Gives an object its attributes, its times and its generation.
pub fn dress(
    server: &mut Srv,
    table: &mut ConfTable,
    staging: &Handle,
    index: u32,
    generation: u32,
    attr: &Attr,
) -> Result<(), WrapErr>
    requires can { IsSomeAnd (state server.old).tree (λ t. (A : List Entry) × (S : List NameRow)
        × CanDress t staging.now table.old A S index) }
    ensures dressed { OnOk result ((t : Tree) (A : List Entry) (S : List NameRow) →
        (state server.old).tree ≡ Some t → CanDress t staging.now table.old A S index →
        StagedAt (state server.new).tree staging.now table.new (dressed_at A index generation attr.now) S) }
    ensures watched { Watched (state server.old) (state server.new) result }
{
    let node = match handle_of(table, index) {
        Some(node) => node,
        None => return Ok(()),
    };
    set_owners(server, &node, attr)?;
    let old = table.rows[index as usize];
    let row = ConfEntry {
        generation,
        atime: attr.atime,
        mtime: attr.mtime,
        ctime: attr.ctime,
        ..old
    };
    match bind_row(table, index, row) {
        Ok(()) => Ok(()),
        Err(_) => Err(WrapErr::NoMemory),
    }
}

/// The bytes of a file. What is none has none.
fn bytes_in(entry: &Entry) -> &[u8]
    ensures { result.now ≡ file_bytes entry.now }
{
    match &entry.object {
        Object::File { bytes, .. } => bytes.as_slice(),
        _ => &[],
    }
}

/// Puts its bytes into a file that has just begun, in as many writes as the server takes. What is no file stays.
pub fn fill(
    server: &mut Srv,
    table: &ConfTable,
    staging: &Handle,
    index: u32,
    entry: &Entry,
) -> Result<(), WrapErr>
    requires can { IsSomeAnd (state server.old).tree (λ t. (A : List Entry) × (S : List NameRow)
        × CanFill t (state server.old).limits staging.now table.now A S index entry.now) }
    ensures filled { OnOk result ((t : Tree) (A : List Entry) (S : List NameRow) →
        (state server.old).tree ≡ Some t →
        CanFill t (state server.old).limits staging.now table.now A S index entry.now →
        StagedAt (state server.new).tree staging.now table.now (filled_at A index entry.now) S) }
    ensures watched { Watched (state server.old) (state server.new) result }
{
    let bytes = bytes_in(entry);
    if bytes.len() == 0 {
        return Ok(());
    }
    let node = match handle_of(table, index) {
        Some(node) => node,
        None => return Ok(()),
    };
    write_all(server, &node, 0, bytes)?;
    Ok(())
}
