//! Objects come under their names.

ghost use Rattle.std.specs.Prelude.{◌≡◌, ◌<◌, ◌^◌, ℕ, List, Some, length, slice_get, IsSomeAnd, OnOk};
ghost use Rattle.server_trait.specs.Tree.{Tree};
ghost use Rattle.abs_model.specs.declared.entry.Entry.{Entry};
ghost use Rattle.abs_model.specs.declared.entry.NameRow.{NameRow};
ghost use Rattle.abs_model.specs.Objects.{names_of};
ghost use Rattle.conf_map.specs.Notice.{Watched};
ghost use Rattle.rebuilding.specs.Name.{CanName, CanNameDir, LeadWithin, all_out_to, bits_to, named_to, out_to, put_to};
ghost use Rattle.staging.specs.Staged.{StagedAt};

use abs_model::{Entry, NameRow, Object};
use nfs2_types::Handle;
use server_trait::{ConfTable, Srv, WrapErr};
use staging::put_name;
use std::alloc::Global;

/// Puts the objects to which the names of a directory lead under these names.
fn name_dir(
    alloc: Global,
    server: &mut Srv,
    table: &ConfTable,
    staging: &Handle,
    d: u32,
    rows: &[NameRow],
    staged: &mut [bool],
) -> Result<(), WrapErr>
    requires can { IsSomeAnd (state server.old).tree (λ t. (A : List Entry) × (C : List Entry) × (S : List NameRow)
        × CanNameDir t (state server.old).limits staging.now table.now A C S staged.old d rows.now) }
    requires within { (k : ℕ) (r : NameRow) → slice_get rows.now k ≡ Some r → r.index < length staged.old }
    ensures named { OnOk result ((t : Tree) (A C : List Entry) (S : List NameRow) →
        (state server.old).tree ≡ Some t →
        CanNameDir t (state server.old).limits staging.now table.now A C S staged.old d rows.now →
        StagedAt (state server.new).tree staging.now table.now (put_to A d rows.now (length rows.now))
        (out_to S staged.old rows.now (length rows.now))) }
    ensures staged { OnOk result (staged.new ≡ bits_to staged.old rows.now (length rows.now)) }
    ensures watched { Watched (state server.old) (state server.new) result }
{
    for k in 0..rows.len() {
        let index = rows[k].index as usize;
        match put_name(alloc, server, table, staging, staged[index], d, &rows[k]) {
            Ok(()) => {}
            Err(error) => return Err(error),
        }
        staged[index] = false;
    }
    Ok(())
}

/// The names of a directory. What is none has none.
pub fn names_in(entry: &Entry) -> &[NameRow]
    ensures { result.now ≡ names_of entry.now }
{
    match &entry.object {
        Object::Dir { names, .. } => names.as_slice(),
        _ => &[],
    }
}

/// Puts all names of an array into a tree whose directories lack them: the first name of a staged object takes it out
/// of the staging directory, each further one is a link. The directories come in the order of their indexes.
pub fn name(
    alloc: Global,
    server: &mut Srv,
    table: &ConfTable,
    staging: &Handle,
    after: &[Entry],
    staged: &mut [bool],
) -> Result<(), WrapErr>
    requires can { IsSomeAnd (state server.old).tree (λ t. (A : List Entry) × (S : List NameRow)
        × CanName t (state server.old).limits staging.now table.now A after.now S staged.old) }
    requires few { length after.now < 2 ^ 32 }
    requires within { LeadWithin after.now staged.old }
    ensures named { OnOk result ((t : Tree) (A : List Entry) (S : List NameRow) →
        (state server.old).tree ≡ Some t →
        CanName t (state server.old).limits staging.now table.now A after.now S staged.old →
        StagedAt (state server.new).tree staging.now table.now (named_to A after.now (length after.now))
        (all_out_to S staged.old after.now (length after.now))) }
    ensures watched { Watched (state server.old) (state server.new) result }
{
    for d in 0..after.len() {
        let rows = names_in(&after[d]);
        match name_dir(alloc, server, table, staging, d as u32, rows, staged) {
            Ok(()) => {}
            Err(error) => return Err(error),
        }
    }
    Ok(())
}
