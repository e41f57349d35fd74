//! New names, and names that go.

ghost use Rattle.std.specs.Prelude.{◌≡◌, ◌++◌, true, false, Some, None, OnOk, OnErr};
ghost use Rattle.std.specs.FinMap as map;
ghost use Rattle.nfs2_types.specs.Names.{is_name};
ghost use Rattle.path_store.specs.Tables.{HasRoom};
ghost use Rattle.path_store.specs.Stored.{with_name, IsDir, IsUnnamed, HasNoNames, AddsDir, Drops};

use crate::row::{PathRow, put_row, take_row};
use crate::store::PathStore;
use nfs2_types::{Handle, NoMemory};

impl PathStore {
    /// Makes a new name of a directory lead to what is no directory. Errors: NoMemory, after which it is not whole.
    pub fn add(&mut self, dir: &Handle, name: &[u8], to: &Handle) -> Result<(), NoMemory>
        requires whole { self.old.whole ≡ true }
        requires dir { IsDir self.old dir.now }
        requires name { is_name name.now ≡ true }
        requires new_name { map.get self.old.names (dir.now ++ name.now) ≡ None }
        requires no_dir { map.get self.old.dirs to.now ≡ None }
        ensures added { OnOk result (self.new ≡ with_name self.old dir.now name.now to.now) }
        ensures err { OnErr result (self.new.whole ≡ false) }
    {
        self.whole = false;
        let Ok(path) = self.dirs.path_of(self.alloc, dir, name) else {
            return Err(NoMemory);
        };
        let row = PathRow { dir: *dir, to: *to };
        let Ok(()) = put_row(&mut self.keys, &mut self.rows, path, row) else {
            return Err(NoMemory);
        };
        self.whole = true;
        Ok(())
    }

    /// Makes a new name of a directory lead to a new directory. Errors: NoMemory, after which it is not whole.
    pub fn add_dir(&mut self, dir: &Handle, name: &[u8], to: &Handle) -> Result<(), NoMemory>
        requires whole { self.old.whole ≡ true }
        requires dir { IsDir self.old dir.now }
        requires name { is_name name.now ≡ true }
        requires new_name { map.get self.old.names (dir.now ++ name.now) ≡ None }
        requires no_dir { map.get self.old.dirs to.now ≡ None }
        requires unnamed { IsUnnamed self.old to.now }
        requires room { HasRoom self.old.dirs to.now }
        ensures added { OnOk result (AddsDir self.old dir.now name.now to.now self.new) }
        ensures err { OnErr result (self.new.whole ≡ false) }
    {
        self.whole = false;
        let Ok(path) = self.dirs.path_of(self.alloc, dir, name) else {
            return Err(NoMemory);
        };
        let Ok(copy) = path.share() else {
            return Err(NoMemory);
        };
        let row = PathRow { dir: *dir, to: *to };
        let Ok(()) = put_row(&mut self.keys, &mut self.rows, path, row) else {
            return Err(NoMemory);
        };
        let Ok(()) = self.dirs.insert(to, copy) else {
            return Err(NoMemory);
        };
        self.whole = true;
        Ok(())
    }

    /// Takes out a name, and the directory without names to which it leads, if it leads to one. Errors: NoMemory, after
    /// which it is not whole.
    pub fn remove(&mut self, dir: &Handle, name: &[u8], to: &Handle) -> Result<(), NoMemory>
        requires whole { self.old.whole ≡ true }
        requires dir { IsDir self.old dir.now }
        requires name { is_name name.now ≡ true }
        requires leads { map.get self.old.names (dir.now ++ name.now) ≡ Some to.now }
        requires empty { HasNoNames self.old to.now }
        ensures dropped { OnOk result (Drops self.old dir.now name.now to.now self.new) }
        ensures err { OnErr result (self.new.whole ≡ false) }
    {
        self.whole = false;
        let Ok(gone) = self.dirs.path_of(self.alloc, dir, name) else {
            return Err(NoMemory);
        };
        take_row(&mut self.keys, &mut self.rows, &gone);
        self.dirs.remove(to);
        self.whole = true;
        Ok(())
    }
}
