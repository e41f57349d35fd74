//! The keys of whole paths.

ghost use Rattle.std.specs.Prelude.{◌≡◌, IfOk, OnOk, map as each};
ghost use Rattle.std.specs.FinMap as map;
ghost use Rattle.path_store.specs.Walks.{AreUnder, IsAlone, ListsRows, ListsFrom, StandUnder, GoesOn, entry_of};

use crate::list::{listed_row, push_listed};
use crate::path::Path;
use crate::paths::{past_name, with_byte};
use crate::row::PathRow;
use nfs2_types::{Handle, NoMemory};
use server_trait::Listed;
use slab::Slab;
use std::alloc::Global;
use std::collections::BTreeMap;
use std::marker::Model;

/// A path with its key.
#[derive(Debug, Drop)]
pub struct PathKey {
    pub path: Path,
    pub key: usize,
}

/// The keys of all paths, in the order of their bytes, which keeps those together that begin alike.
#[derive(Drop)]
pub struct PathKeys {
    keys: BTreeMap<Path, usize>,
}

impl Model for PathKeys {
    ghost use Rattle.std.specs.Prelude.{List, ℕ};
    ghost use Rattle.std.specs.Ordering.{nat_cmp};
    ghost use Rattle.std.specs.Cmp.Lexicographic.{slice_cmp};
    ghost use Rattle.std.specs.Coded.{coded_ℕ, coded_list};
    ghost use Rattle.std.specs.FinMap as map;

    ghost Value = { map.FinMap (slice_cmp nat_cmp) ℕ };

    ghost coded = { map.code (coded_list coded_ℕ) coded_ℕ };

    ghost view = { λ k. map.from_entries k.keys.entries };
}

impl PathKeys {
    /// No paths. It takes no memory.
    pub fn new(alloc: Global) -> PathKeys
        ensures { result ≡ map.empty }
    {
        PathKeys {
            keys: BTreeMap::new(alloc),
        }
    }

    /// The key of a path.
    pub fn get(&self, path: &Path) -> Option<usize>
        ensures { result ≡ map.get self.now path.now }
    {
        self.keys.get(path).copied()
    }

    /// Gives a path a key. Errors: NoMemory.
    pub fn insert(&mut self, path: Path, key: usize) -> Result<(), NoMemory>
        ensures { OnOk result (self.new ≡ map.insert self.old path key) }
    {
        let Ok(_) = self.keys.insert(path, key) else {
            return Err(NoMemory);
        };
        Ok(())
    }

    /// Takes out a path, and gives back its key.
    pub fn remove(&mut self, path: &Path) -> Option<usize>
        ensures value { result ≡ map.get self.old path.now }
        ensures rest { self.new ≡ map.remove self.old path.now }
    {
        self.keys.remove(path)
    }

    /// A path, if it has a key, by itself. Errors: NoMemory.
    fn alone(&self, alloc: Global, path: &Path) -> Result<Vec<PathKey>, NoMemory>
        ensures { IfOk result (λ found. IsAlone path.now self.now (each entry_of found.items)) }
    {
        let mut found = Vec::new(alloc);
        let Some(key) = self.get(path) else {
            return Ok(found);
        };
        let path = path.share()?;
        let Ok(()) = found.push(PathKey { path, key }) else {
            return Err(NoMemory);
        };
        Ok(found)
    }

    /// A path and all that are under it, with their keys, the last first. Its cost is in their number. Errors:
    /// NoMemory.
    pub fn under(&self, alloc: Global, top: &Path) -> Result<Vec<PathKey>, NoMemory>
        ensures { IfOk result (λ found. AreUnder top.now self.now (each entry_of found.items)) }
    {
        let mut found = self.alone(alloc, top)?;
        // 48 follows the slash, which is 47.
        let low = with_byte(alloc, top.as_slice(), b'/')?;
        let high = with_byte(alloc, top.as_slice(), b'0')?;
        for (path, key) in self.keys.range(low..high) {
            let entry = PathKey {
                path: path.share()?,
                key: *key,
            };
            let Ok(()) = found.push(entry) else {
                return Err(NoMemory);
            };
        }
        found.reverse();
        Ok(found)
    }

    /// The names of a directory whose path this is. Its cost is in their number, whatever lies below them. Errors:
    /// NoMemory.
    pub fn list(
        &self,
        alloc: Global,
        rows: &Slab<PathRow>,
        dir: &Handle,
        top: &[u8],
    ) -> Result<Vec<Listed>, NoMemory>
        requires { StandUnder dir.now top.now self.now rows.now }
        ensures { IfOk result (λ listed. ListsRows dir.now top.now self.now rows.now listed.items) }
    {
        let mut listed = Vec::new(alloc);
        let mut next = Some(with_byte(alloc, top, b'/')?);
        while let Some(low) = next {
            next = self.list_from(alloc, rows, dir, top, low, &mut listed)?;
        }
        Ok(listed)
    }

    /// Lists names of a directory from a path on, up to the first path that lies below one of them, and gives where the
    /// paths go on behind those. Errors: NoMemory.
    fn list_from(
        &self,
        alloc: Global,
        rows: &Slab<PathRow>,
        dir: &Handle,
        top: &[u8],
        low: Path,
        listed: &mut Vec<Listed>,
    ) -> Result<Option<Path>, NoMemory>
        requires placed { StandUnder dir.now top.now self.now rows.now }
        requires low { GoesOn top.now low }
        ensures { IfOk result
            (λ next. ListsFrom dir.now top.now self.now rows.now low listed.old.items next listed.new.items) }
    {
        let end = with_byte(alloc, top, b'0')?;
        for (path, key) in self.keys.range(low..end) {
            let path = path.as_slice();
            if let Some(next) = past_name(alloc, top.len(), path)? {
                return Ok(Some(next));
            }
            let row = listed_row(alloc, rows, dir, top.len(), path, *key)?;
            push_listed(listed, row)?;
        }
        Ok(None)
    }
}
