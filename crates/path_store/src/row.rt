//! The rows of names.

ghost use Rattle.std.specs.Prelude.{◌≡◌, Some, OnOk, IsSome};
ghost use Rattle.slab.specs.Slab.{get as slot, Updates};
ghost use Rattle.path_store.specs.Changes.{PutsRow, TakesRow};

use crate::keys::PathKeys;
use crate::path::Path;
use nfs2_types::{Handle, NoMemory};
use slab::Slab;

/// The directory that has a name, and the node to which the name leads.
#[derive(Clone, Copy, Debug)]
pub struct PathRow {
    pub dir: Handle,
    pub to: Handle,
}

/// Puts a row under a new path. Errors: NoMemory.
pub fn put_row(
    keys: &mut PathKeys,
    rows: &mut Slab<PathRow>,
    path: Path,
    row: PathRow,
) -> Result<(), NoMemory>
    ensures { OnOk result (PutsRow keys.old rows.old path row keys.new rows.new) }
{
    let Ok(key) = rows.insert(row) else {
        return Err(NoMemory);
    };
    let Ok(()) = keys.insert(path, key) else {
        return Err(NoMemory);
    };
    Ok(())
}

/// Takes out the row under a path.
pub fn take_row(keys: &mut PathKeys, rows: &mut Slab<PathRow>, path: &Path)
    ensures { TakesRow keys.old rows.old path.now keys.new rows.new }
{
    let Some(key) = keys.remove(path) else {
        return;
    };
    let _ = rows.try_remove(key);
}

/// Puts another row under a key.
pub fn set_row(rows: &mut Slab<PathRow>, key: usize, row: PathRow)
    requires { IsSome (slot rows.old key) }
    ensures { Updates rows.old rows.new key (Some row) }
{
    let Some(_) = rows.try_remove(key) else {
        unreachable!();
    };
    // The slot that was given up last is the next.
    let _ = rows.insert_reserved(row);
}
