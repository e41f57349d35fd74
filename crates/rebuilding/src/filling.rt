//! Objects get their attributes, their times and their generations.

ghost use Rattle.std.specs.Prelude.{◌≡◌, ◌<◌, ◌^◌, length, List, Some, IsSomeAnd, OnOk};
ghost use Rattle.server_trait.specs.Tree.{Tree};
ghost use Rattle.abs_model.specs.declared.entry.Entry.{Entry};
ghost use Rattle.abs_model.specs.declared.entry.NameRow.{NameRow};
ghost use Rattle.conf_map.specs.Notice.{Watched};
ghost use Rattle.rebuilding.specs.Fill.{CanDressAll, CanDressAt, dressed_if, dressed_to, live_attr};
ghost use Rattle.staging.specs.Staged.{StagedAt};

use abs_model::{Attr, Entry, Object};
use nfs2_types::Handle;
use server_trait::{ConfTable, Srv, WrapErr};
use staging::dress;

/// The attributes of what is live.
fn attr_in(entry: &Entry) -> Option<Attr>
    ensures { result ≡ live_attr entry.now }
{
    match &entry.object {
        Object::Null => None,
        Object::File { attr, .. } => Some(*attr),
        Object::Dir { attr, .. } => Some(*attr),
        Object::Link { attr, .. } => Some(*attr),
    }
}

/// Gives an object what it shall have but for its bytes, if one shall stand there.
fn dress_at(
    server: &mut Srv,
    table: &mut ConfTable,
    staging: &Handle,
    index: u32,
    entry: &Entry,
) -> Result<(), WrapErr>
    requires can { IsSomeAnd (state server.old).tree (λ t. (A : List Entry) × (S : List NameRow)
        × CanDressAt t staging.now table.old A S index entry.now) }
    ensures dressed { OnOk result ((t : Tree) (A : List Entry) (S : List NameRow) →
        (state server.old).tree ≡ Some t → CanDressAt t staging.now table.old A S index entry.now →
        StagedAt (state server.new).tree staging.now table.new
        (dressed_if A index entry.now.generation (live_attr entry.now)) S) }
    ensures watched { Watched (state server.old) (state server.new) result }
{
    let attr = match attr_in(entry) {
        Some(attr) => attr,
        None => return Ok(()),
    };
    dress(server, table, staging, index, entry.generation, &attr)?;
    Ok(())
}

/// Gives all objects what they shall have but for the bytes of files.
pub fn dress_all(
    server: &mut Srv,
    table: &mut ConfTable,
    staging: &Handle,
    after: &[Entry],
) -> Result<(), WrapErr>
    requires can { IsSomeAnd (state server.old).tree (λ t. (A : List Entry) × (S : List NameRow)
        × CanDressAll t staging.now table.old A S after.now) }
    requires few { length after.now < 2 ^ 32 }
    ensures dressed { OnOk result ((t : Tree) (A : List Entry) (S : List NameRow) →
        (state server.old).tree ≡ Some t → CanDressAll t staging.now table.old A S after.now →
        StagedAt (state server.new).tree staging.now table.new (dressed_to A after.now (length after.now)) S) }
    ensures watched { Watched (state server.old) (state server.new) result }
{
    for i in 0..after.len() {
        match dress_at(server, table, staging, i as u32, &after[i]) {
            Ok(()) => {}
            Err(error) => return Err(error),
        }
    }
    Ok(())
}
