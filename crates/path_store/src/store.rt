//! The store.

ghost use Rattle.std.specs.Prelude.{◌≡◌, IfOk};
ghost use Rattle.path_store.specs.Stored.{only_root};

use crate::dirs::PathDirs;
use crate::keys::PathKeys;
use crate::path::Path;
use crate::row::PathRow;
use nfs2_types::{Handle, NoMemory};
use slab::Slab;
use std::alloc::Global;
use std::marker::Model;

/// The names of all directories. A name is found by its whole path.
#[derive(Drop)]
pub struct PathStore {
    pub(crate) alloc: Global,
    // False while a change is on its way, and after want of memory.
    pub(crate) whole: bool,
    pub(crate) keys: PathKeys,
    pub(crate) rows: Slab<PathRow>,
    pub(crate) dirs: PathDirs,
}

impl Model for PathStore {
    ghost use Rattle.std.specs.Prelude.{◌≡◌, true};
    ghost use Rattle.path_store.specs.Stored.{Stored, stored_code};
    ghost use Rattle.path_store.specs.Placed.{IsPlaced, stored_as};

    ghost Value = { Stored };

    ghost coded = { stored_code };

    ghost view = { λ s. stored_as s.whole s.keys s.rows s.dirs };

    ghost invariant = { λ s. s.whole ≡ true → IsPlaced s.keys s.rows s.dirs };
}

impl PathStore {
    /// A root of this handle, without names. Errors: NoMemory.
    pub fn new(alloc: Global, root: &Handle) -> Result<PathStore, NoMemory>
        ensures { IfOk result (λ s. s ≡ only_root root.now) }
    {
        let top = Path::new(Vec::new(alloc))?;
        let mut dirs = PathDirs::new(alloc);
        let Ok(()) = dirs.insert(root, top) else {
            return Err(NoMemory);
        };
        Ok(PathStore {
            alloc,
            whole: true,
            keys: PathKeys::new(alloc),
            rows: Slab::new(alloc),
            dirs,
        })
    }
}
