//! Staged objects come under their names.

ghost use Rattle.std.specs.Prelude.{◌≡◌, List, Some, true, IsSomeAnd, OnOk};
ghost use Rattle.nfs2_types.specs.Names.{is_name};
ghost use Rattle.server_trait.specs.Tree.{Tree};
ghost use Rattle.abs_model.specs.declared.entry.Entry.{Entry};
ghost use Rattle.abs_model.specs.declared.entry.NameRow.{NameRow};
ghost use Rattle.abs_model.specs.Objects.{without};
ghost use Rattle.conf_map.specs.Notice.{Watched};
ghost use Rattle.staging.specs.Place.{CanPlace, put_in};
ghost use Rattle.staging.specs.Staged.{StagedAt};

use crate::rename::move_name;
use abs_model::NameRow;
use conf_map::Located;
use nfs2_types::Handle;
use server_trait::{ConfTable, Srv, WrapErr};

/// Puts a staged object under a name of a directory. It is never a move below itself, whatever was placed before.
pub fn place(
    server: &mut Srv,
    table: &ConfTable,
    staging: &Handle,
    staged_name: &[u8],
    d: &Located,
    row: &NameRow,
) -> Result<(), WrapErr>
    requires can { IsSomeAnd (state server.old).tree (λ t. (A : List Entry) × (C : List Entry) × (S : List NameRow)
        × CanPlace t staging.now table.now A C S staged_name.now d.now row.now) }
    requires good { is_name staged_name.now ≡ true }
    ensures placed { OnOk result ((t : Tree) (A C : List Entry) (S : List NameRow) →
        (state server.old).tree ≡ Some t → CanPlace t staging.now table.now A C S staged_name.now d.now row.now →
        StagedAt (state server.new).tree staging.now table.now (put_in A d.now.index row.now)
        (without staged_name.now S)) }
    ensures watched { Watched (state server.old) (state server.new) result }
{
    move_name(server, staging, staged_name, &d.handle, row.name.as_slice())?;
    Ok(())
}
