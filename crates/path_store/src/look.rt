//! Looking in a store.

ghost use Rattle.std.specs.Prelude.{◌≡◌, ◌↔◌, ◌++◌, true, IfOk, IsTrue, option_map};
ghost use Rattle.std.specs.FinMap as map;
ghost use Rattle.nfs2_types.specs.Names.{is_name};
ghost use Rattle.server_trait.specs.Calls.{Lists};
ghost use Rattle.path_store.specs.Stored.{names_of, IsDir, IsAtOrBelow};
ghost use Rattle.path_store.specs.Placed.{row_at};

use crate::keys::PathKeys;
use crate::path::Path;
use crate::paths::{join, rest_under};
use crate::row::PathRow;
use crate::store::PathStore;
use nfs2_types::{Handle, NoMemory};
use server_trait::Listed;
use slab::Slab;

/// The handle to which the row at a path leads.
fn target(keys: &PathKeys, rows: &Slab<PathRow>, path: &Path) -> Option<Handle>
    ensures { result ≡ option_map (λ row. row.to) (row_at keys.now rows.now path.now) }
{
    let Some(key) = keys.get(path) else {
        return None;
    };
    let Some(row) = rows.get(key).copied() else {
        return None;
    };
    Some(row.to)
}

impl PathStore {
    /// The handle to which a name of a directory leads. Errors: NoMemory.
    pub fn get(&self, dir: &Handle, name: &[u8]) -> Result<Option<Handle>, NoMemory>
        requires whole { self.now.whole ≡ true }
        requires name { is_name name.now ≡ true }
        ensures { IfOk result (λ o. o ≡ map.get self.now.names (dir.now ++ name.now)) }
    {
        let Some(top) = self.dirs.get(dir) else {
            return Ok(None);
        };
        let path = join(self.alloc, top.as_slice(), name)?;
        Ok(target(&self.keys, &self.rows, &path))
    }

    /// The names of a directory, with the handles to which they lead. Its cost is in their
    /// number, whatever lies below them. Errors: NoMemory.
    pub fn list(&self, dir: &Handle) -> Result<Vec<Listed>, NoMemory>
        requires whole { self.now.whole ≡ true }
        requires dir { IsDir self.now dir.now }
        ensures { IfOk result (λ rows. Lists rows.items (names_of self.now.names dir.now)) }
    {
        let Some(top) = self.dirs.get(dir) else {
            unreachable!();
        };
        let rows = self.keys.list(self.alloc, &self.rows, dir, top.as_slice())?;
        Ok(rows)
    }

    /// Whether a directory is another or lies below it. It takes no memory.
    pub fn is_below(&self, top: &Handle, dir: &Handle) -> bool
        requires whole { self.now.whole ≡ true }
        requires top { IsDir self.now top.now }
        requires dir { IsDir self.now dir.now }
        ensures { IsTrue result ↔ IsAtOrBelow self.now.names top.now dir.now }
    {
        let Some(above) = self.dirs.get(top) else {
            unreachable!();
        };
        let Some(path) = self.dirs.get(dir) else {
            unreachable!();
        };
        rest_under(above.as_slice(), path.as_slice()).is_some()
    }
}
