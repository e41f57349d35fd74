//! What stands in files, links and directories.

ghost use Rattle.std.specs.Prelude.{◌≡◌, List, option_map, take, drop, Some, true, IsSome, IsSomeAnd, IfOk, OnOk};
ghost use Rattle.server_trait.specs.Tree as tree;
ghost use Rattle.server_trait.specs.Calls.{Lists};
ghost use Rattle.abs_model.specs.declared.entry.Entry.{Entry};
ghost use Rattle.abs_model.specs.Array.{entry_at};
ghost use Rattle.abs_model.specs.Objects as objects;
ghost use Rattle.conf_map.specs.Contents.{AreInOrder, AreRows};
ghost use Rattle.conf_map.specs.Notice.{Watched};
ghost use Rattle.conf_map.specs.Stands.{StandValid};
ghost use Rattle.conf_map.specs.Tables.{IsLive};

use crate::failure::broken;
use crate::table::Located;
use nfs2_types::Handle;
use server_trait::{ConfTable, FileServer, Listed, Srv, WrapErr};

/// The bytes of a file from an offset up to the count or the end.
fn bytes_at(server: &mut Srv, file: &Handle, offset: u32, count: u32) -> Result<Vec<u8>, WrapErr>
    requires { IsSomeAnd (state server.old).tree (λ t. IsSome (tree.bytes_at t file.now)) }
    ensures bytes { IfOk result (λ v. (t : tree.Tree) → (state server.old).tree ≡ Some t →
        option_map (λ b. take count (drop offset b)) (tree.bytes_at t file.now) ≡ Some v.items) }
    ensures same { OnOk result ((state server.new).tree ≡ (state server.old).tree) }
    ensures watched { Watched (state server.old) (state server.new) result }
{
    match server.read(file, offset, count) {
        Ok(bytes) => Ok(bytes),
        Err(error) => Err(broken(error)),
    }
}

/// The text of a link.
fn text_at(server: &mut Srv, link: &Handle) -> Result<Vec<u8>, WrapErr>
    requires { IsSomeAnd (state server.old).tree (λ t. IsSome (tree.text_at t link.now)) }
    ensures text { IfOk result (λ v. (t : tree.Tree) → (state server.old).tree ≡ Some t →
        tree.text_at t link.now ≡ Some v.items) }
    ensures same { OnOk result ((state server.new).tree ≡ (state server.old).tree) }
    ensures watched { Watched (state server.old) (state server.new) result }
{
    match server.read_link(link) {
        Ok(text) => Ok(text),
        Err(error) => Err(broken(error)),
    }
}

/// The bytes of a live file from an offset, up to the count or the end.
pub fn bytes_of(
    server: &mut Srv,
    table: &ConfTable,
    at: &Located,
    offset: u32,
    count: u32,
) -> Result<Vec<u8>, WrapErr>
    requires file { (A : List Entry) × (StandValid (state server.old).tree table.now A)
        × (objects.is_file (entry_at A at.now.index) ≡ true) }
    requires live { IsLive table.now.rows.items at.now }
    ensures bytes { IfOk result (λ v. (A : List Entry) →
        StandValid (state server.old).tree table.now A → objects.is_file (entry_at A at.now.index) ≡ true →
        v.items ≡ take count (drop offset (objects.bytes_of (entry_at A at.now.index)))) }
    ensures same { OnOk result ((state server.new).tree ≡ (state server.old).tree) }
    ensures watched { Watched (state server.old) (state server.new) result }
{
    let bytes = bytes_at(server, &at.handle, offset, count)?;
    Ok(bytes)
}

/// The text of a live link.
pub fn text_of(server: &mut Srv, table: &ConfTable, at: &Located) -> Result<Vec<u8>, WrapErr>
    requires link { (A : List Entry) × (StandValid (state server.old).tree table.now A)
        × (objects.is_link (entry_at A at.now.index) ≡ true) }
    requires live { IsLive table.now.rows.items at.now }
    ensures text { IfOk result (λ v. (A : List Entry) →
        StandValid (state server.old).tree table.now A → objects.is_link (entry_at A at.now.index) ≡ true →
        v.items ≡ objects.bytes_of (entry_at A at.now.index)) }
    ensures same { OnOk result ((state server.new).tree ≡ (state server.old).tree) }
    ensures watched { Watched (state server.old) (state server.new) result }
{
    let text = text_at(server, &at.handle)?;
    Ok(text)
}

/// The names of a directory at its server, in any order.
fn list(server: &mut Srv, dir: &Handle) -> Result<Vec<Listed>, WrapErr>
    requires { IsSomeAnd (state server.old).tree (λ t. IsSome (tree.names_at t dir.now)) }
    ensures names { IfOk result (λ v. (t : tree.Tree) →
        (state server.old).tree ≡ Some t → IsSomeAnd (tree.names_at t dir.now) (Lists v.items)) }
    ensures same { OnOk result ((state server.new).tree ≡ (state server.old).tree) }
    ensures watched { Watched (state server.old) (state server.new) result }
{
    match server.list(dir) {
        Ok(names) => Ok(names),
        Err(error) => Err(broken(error)),
    }
}

/// Puts names in their order by bytes. It takes no memory.
fn sort_names(names: &mut Vec<Listed>)
    ensures { AreInOrder names.old.items names.new.items }
{
    names.sort_unstable_by(|a, b| a.name.as_slice().cmp(&b.name.as_slice()));
}

/// The names of a live directory in their order by bytes, with the handles of their nodes.
pub fn names_of(server: &mut Srv, table: &ConfTable, d: &Located) -> Result<Vec<Listed>, WrapErr>
    requires dir { (A : List Entry) × (StandValid (state server.old).tree table.now A)
        × (objects.is_dir (entry_at A d.now.index) ≡ true) }
    requires live { IsLive table.now.rows.items d.now }
    ensures rows { IfOk result (λ v. (A : List Entry) →
        StandValid (state server.old).tree table.now A → objects.is_dir (entry_at A d.now.index) ≡ true →
        AreRows table.now v.items (objects.names_of (entry_at A d.now.index))) }
    ensures same { OnOk result ((state server.new).tree ≡ (state server.old).tree) }
    ensures watched { Watched (state server.old) (state server.new) result }
{
    let mut names = list(server, &d.handle)?;
    sort_names(&mut names);
    Ok(names)
}
