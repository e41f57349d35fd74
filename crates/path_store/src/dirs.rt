//! The paths of directories.

ghost use Rattle.std.specs.Prelude.{◌≡◌, ◌<◌, ◌≤◌, ℕ, IfOk, OnOk, IsSome, IsTrue, None, option_copied, slice_index_or, slice_set, vec_len};
ghost use Rattle.std.specs.FinMap as map;
ghost use Rattle.path_store.specs.Changes.{IsPathOf};
ghost use Rattle.path_store.specs.Tables.{HasRoom, place_of};

use crate::path::Path;
use crate::paths::join;
use crate::places::place_of;
use nfs2_types::{Handle, NoMemory};
use std::alloc::Global;
use std::marker::Model;

/// The path of a directory, and its handle.
#[derive(Drop)]
pub struct DirRow {
    pub handle: Handle,
    pub path: Path,
}

/// The path of each directory, at the place that its handle carries. Its memory is in the greatest place.
#[derive(Drop)]
pub struct PathDirs {
    pub(crate) rows: Vec<Option<DirRow>>,
}

impl Model for PathDirs {
    ghost use Rattle.std.specs.Prelude.{List, ℕ};
    ghost use Rattle.std.specs.Ordering.{nat_cmp};
    ghost use Rattle.std.specs.Cmp.Lexicographic.{slice_cmp};
    ghost use Rattle.std.specs.Coded.{coded_ℕ, coded_list};
    ghost use Rattle.std.specs.FinMap as map;

    ghost Value = { map.FinMap (slice_cmp nat_cmp) (List ℕ) };

    ghost coded = { map.code (coded_list coded_ℕ) (coded_list coded_ℕ) };

    ghost use Rattle.path_store.specs.Tables.{table, ArePlaced};
    ghost use Rattle.path_store.specs.declared.dirs.DirRow.{DirRow};

    ghost view = { λ d. table (λ (r : DirRow). r.handle) (λ (r : DirRow). r.path) d.rows.items };

    ghost invariant = { λ d. ArePlaced (λ (r : DirRow). r.handle) d.rows.items };
}

/// The row at a place.
pub(crate) fn row_at(rows: &[Option<DirRow>], place: usize) -> Option<&DirRow>
    ensures { option_copied result ≡ slice_index_or rows.now place None }
{
    let Some(Some(row)) = rows.get(place) else {
        return None;
    };
    Some(row)
}

/// Puts another row at a place.
fn set_row(rows: &mut Vec<Option<DirRow>>, place: usize, row: Option<DirRow>)
    requires { place < vec_len rows.old }
    ensures { rows.new.items ≡ slice_set rows.old.items place row }
{
    rows[place] = row;
}

/// Empty rows up to a place, which is among them. Errors: NoMemory.
fn reach(rows: &mut Vec<Option<DirRow>>, place: usize) -> Result<(), NoMemory>
    ensures same { (k : ℕ) → slice_index_or rows.new.items k None ≡ slice_index_or rows.old.items k None }
    ensures long { OnOk result (place < vec_len rows.new) }
{
    while rows.len() <= place {
        let Ok(()) = rows.push(None) else {
            return Err(NoMemory);
        };
    }
    Ok(())
}

impl PathDirs {
    /// No directories. It takes no memory.
    pub fn new(alloc: Global) -> PathDirs
        ensures { result ≡ map.empty }
    {
        PathDirs {
            rows: Vec::new(alloc),
        }
    }

    /// The path of a directory.
    pub fn get(&self, dir: &Handle) -> Option<&Path>
        ensures value { option_copied result ≡ map.get self.now dir.now }
        ensures room { IsSome result → HasRoom self.now dir.now }
    {
        let Some(row) = row_at(self.rows.as_slice(), place_of(dir)) else {
            return None;
        };
        if row.handle != *dir {
            return None;
        }
        Some(&row.path)
    }

    /// Gives a directory its path, where no other's handle carries its place. Errors: NoMemory.
    pub fn insert(&mut self, dir: &Handle, path: Path) -> Result<(), NoMemory>
        requires { HasRoom self.old dir.now }
        ensures { OnOk result (self.new ≡ map.insert self.old dir.now path) }
    {
        let place = place_of(dir);
        reach(&mut self.rows, place)?;
        set_row(&mut self.rows, place, Some(DirRow { handle: *dir, path }));
        Ok(())
    }

    /// Takes out a directory.
    pub fn remove(&mut self, dir: &Handle)
        ensures { self.new ≡ map.remove self.old dir.now }
    {
        if self.get(dir).is_some() {
            set_row(&mut self.rows, place_of(dir), None);
        }
    }

    /// The path of a name of a directory. Errors: NoMemory.
    pub fn path_of(&self, alloc: Global, dir: &Handle, name: &[u8]) -> Result<Path, NoMemory>
        requires { IsSome (map.get self.now dir.now) }
        ensures { IfOk result (λ path. IsPathOf self.now dir.now name.now path) }
    {
        let Some(top) = self.get(dir) else {
            unreachable!();
        };
        join(alloc, top.as_slice(), name)
    }
}
