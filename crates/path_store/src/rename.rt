//! Names that move.

ghost use Rattle.std.specs.Prelude.{◌≡◌, ◌++◌, true, false, Some, None, OnOk, OnErr, IsSome, map as each};
ghost use Rattle.std.specs.FinMap as map;
ghost use Rattle.nfs2_types.specs.Names.{is_name};
ghost use Rattle.path_store.specs.Stored.{IsDir, IsAtOrBelow, Moves};
ghost use Rattle.path_store.specs.Changes.{led_to, MovesAll, MovesUnder};
ghost use Rattle.path_store.specs.Placed.{IsKeyed};
ghost use Rattle.path_store.specs.Walks.{entry_of};

use crate::dirs::PathDirs;
use crate::keys::{PathKey, PathKeys};
use crate::path::Path;
use crate::paths::move_path;
use crate::row::{PathRow, set_row};
use crate::store::PathStore;
use nfs2_types::{Handle, NoMemory};
use slab::Slab;
use std::alloc::Global;

/// Gives the directory to which a row leads its new path, if it leads to one. Errors: NoMemory.
fn move_dir(dirs: &mut PathDirs, row: Option<PathRow>, path: &Path) -> Result<(), NoMemory>
    ensures { OnOk result (dirs.new ≡ led_to row path.now dirs.old) }
{
    let Some(row) = row else {
        return Ok(());
    };
    if dirs.get(&row.to).is_none() {
        return Ok(());
    }
    let shared = path.share()?;
    dirs.insert(&row.to, shared)
}

/// Takes these paths out, and puts each back under its new beginning, and so the directories to which they lead: one
/// after the other, so that of no more than one both paths are kept. Errors: NoMemory.
fn move_all(
    alloc: Global,
    keys: &mut PathKeys,
    rows: &Slab<PathRow>,
    dirs: &mut PathDirs,
    entries: Vec<PathKey>,
    old: &[u8],
    new: &[u8],
) -> Result<(), NoMemory>
    ensures { OnOk result (MovesAll old.now new.now (each entry_of entries.items) rows.now keys.old dirs.old
        keys.new dirs.new) }
{
    for entry in entries {
        let path = move_path(alloc, old, new, &entry.path)?;
        let _ = keys.remove(&entry.path);
        move_dir(dirs, rows.get(entry.key).copied(), &path)?;
        keys.insert(path, entry.key)?;
    }
    Ok(())
}

/// Gives all paths under one their new beginning, and the path itself another row. Its cost is in their number. Errors:
/// NoMemory.
fn move_under(
    alloc: Global,
    keys: &mut PathKeys,
    rows: &mut Slab<PathRow>,
    dirs: &mut PathDirs,
    old: &Path,
    new: &Path,
    row: PathRow,
) -> Result<(), NoMemory>
    requires keyed { IsKeyed keys.old rows.old }
    requires has_key { IsSome (map.get keys.old old.now) }
    ensures { OnOk result (MovesUnder old.now new.now row keys.old rows.old dirs.old keys.new rows.new dirs.new) }
{
    let Ok(entries) = keys.under(alloc, old) else {
        return Err(NoMemory);
    };
    let Some(key) = keys.get(old) else {
        unreachable!();
    };
    set_row(rows, key, row);
    let Ok(()) = move_all(
        alloc,
        keys,
        rows,
        dirs,
        entries,
        old.as_slice(),
        new.as_slice(),
    ) else {
        return Err(NoMemory);
    };
    Ok(())
}

impl PathStore {
    /// Moves a name of one directory to a new name of another, and all that lies under it. Its cost is in the number of
    /// names under it. Errors: NoMemory, after which it is not whole.
    pub fn rename(
        &mut self,
        from: &Handle,
        name: &[u8],
        to: &Handle,
        to_name: &[u8],
        moved: &Handle,
    ) -> Result<(), NoMemory>
        requires whole { self.old.whole ≡ true }
        requires from { IsDir self.old from.now }
        requires to { IsDir self.old to.now }
        requires name { is_name name.now ≡ true }
        requires to_name { is_name to_name.now ≡ true }
        requires leads { map.get self.old.names (from.now ++ name.now) ≡ Some moved.now }
        requires new_name { map.get self.old.names (to.now ++ to_name.now) ≡ None }
        requires apart { IsDir self.old moved.now → IsAtOrBelow self.old.names moved.now to.now → ⊥ }
        ensures moved { OnOk result (Moves self.old from.now name.now to.now to_name.now moved.now self.new) }
        ensures err { OnErr result (self.new.whole ≡ false) }
    {
        self.whole = false;
        let Ok(old) = self.dirs.path_of(self.alloc, from, name) else {
            return Err(NoMemory);
        };
        let Ok(new) = self.dirs.path_of(self.alloc, to, to_name) else {
            return Err(NoMemory);
        };
        let row = PathRow {
            dir: *to,
            to: *moved,
        };
        let Ok(()) = move_under(
            self.alloc,
            &mut self.keys,
            &mut self.rows,
            &mut self.dirs,
            &old,
            &new,
            row,
        ) else {
            return Err(NoMemory);
        };
        self.whole = true;
        Ok(())
    }
}
