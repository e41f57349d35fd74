//! Names that nodes get and lose.

ghost use Rattle.std.specs.Prelude.{◌≡◌, ◌≢◌, ℕ, ◌+◌, ◌<◌, ◌≤◌, true, None, Some, IsSome, IfOk, OnOk};
ghost use Rattle.nfs2_types.specs.Names.{is_name};
ghost use Rattle.nfs2_types.specs.declared.fattr.Kind.TheVariants.{Dir};
ghost use Rattle.outside.specs.Causes.{WriteHasCause};
ghost use Rattle.server_trait.specs.Tree.{named, unnamed};
ghost use Rattle.inode_store.specs.Store.{file_in};
ghost use Rattle.inode_tree.specs.Changes.{Unnames, inode_of};
ghost use Rattle.inode_tree.specs.Tables.{is_dir_kind};
ghost use Rattle.inode_tree.specs.Kept.{tables_of};
ghost use Rattle.inode_tree.specs.Whole.{tree_in, IsWhole};

use crate::tables::is_directory;
use crate::tree::InodeTree;
use inode_dirs::Place;
use inode_slots::{add_name, remove_name};
use nfs2_types::Kind;
use outside::{Medium, MediumErr};

impl<M: Medium> InodeTree<M> {
    /// Gives a directory a name that it lacks, which leads to a node of a kind, but not to the root. To a directory no
    /// other name leads.
    pub fn add_name(
        &mut self,
        dir: u32,
        name: &[u8],
        inode: u32,
        kind: Kind,
    ) -> Result<(), MediumErr>
        requires whole { IsWhole M.content M.size self.old }
        requires within { dir < self.old.store.inodes }
        requires dir { (tables_of self.old.tables).kind dir ≡ Some Dir }
        requires node { (tables_of self.old.tables).kind inode ≡ Some kind }
        requires name { is_name name.now ≡ true }
        requires new { inode_of ((tables_of self.old.tables).place dir name.now) ≡ None }
        requires unlinked { kind ≡ Dir → (tables_of self.old.tables).counts.links inode ≡ 0 }
        requires other { inode ≢ 0 }
        requires room { (tables_of self.old.tables).counts.used + 512 ≤ self.old.limits.bytes }
        ensures whole { OnOk result (IsWhole M.content M.size self.new) }
        ensures node { OnOk result (tree_in M.content self.new ≡ named (tree_in M.content self.old)
            ((tables_of self.old.tables).handle dir) name.now ((tables_of self.old.tables).handle inode)) }
        ensures handles { OnOk result ((tables_of self.new.tables).handle ≡ (tables_of self.old.tables).handle) }
        ensures first { OnOk result (M.content self.new.store.medium 0 ≡ M.content self.old.store.medium 0) }
        ensures limits { self.new.limits ≡ self.old.limits }
        ensures area { self.new.store.area ≡ self.old.store.area }
        ensures inodes { self.new.store.inodes ≡ self.old.store.inodes }
        ensures size { M.size self.new.store.medium ≡ M.size self.old.store.medium }
        ensures cause { WriteHasCause (M.faults self.old.store.medium) (M.faults self.new.store.medium) result }
    {
        let Ok(copy) = Vec::from_slice(self.alloc, name) else {
            return Err(MediumErr::NoMemory);
        };
        let index = &mut self.tables.dirs[dir as usize];
        add_name(&mut self.store, index, dir, copy, inode)?;
        self.tables.add_name(dir, inode, is_directory(kind));
        Ok(())
    }

    /// Takes a name out of a directory, which stands at a place and leads to a node of a kind.
    pub fn remove_name(
        &mut self,
        dir: u32,
        name: &[u8],
        place: Place,
        kind: Kind,
    ) -> Result<(), MediumErr>
        requires whole { IsWhole M.content M.size self.old }
        requires within { dir < self.old.store.inodes }
        requires dir { (tables_of self.old.tables).kind dir ≡ Some Dir }
        requires there { (tables_of self.old.tables).place dir name.now ≡ Some place }
        requires node { (tables_of self.old.tables).kind place.inode ≡ Some kind }
        ensures whole { OnOk result (IsWhole M.content M.size self.new) }
        ensures node { OnOk result (tree_in M.content self.new ≡ unnamed (tree_in M.content self.old)
            ((tables_of self.old.tables).handle dir) name.now) }
        ensures rows { OnOk result (Unnames (tables_of self.old.tables) (tables_of self.new.tables) dir name.now
            place.inode (is_dir_kind kind)) }
        ensures others { OnOk result ((j : ℕ) → j < self.old.store.inodes → j ≢ dir →
            file_in M.content self.new.store j ≡ file_in M.content self.old.store j) }
        ensures first { OnOk result (M.content self.new.store.medium 0 ≡ M.content self.old.store.medium 0) }
        ensures limits { self.new.limits ≡ self.old.limits }
        ensures area { self.new.store.area ≡ self.old.store.area }
        ensures inodes { self.new.store.inodes ≡ self.old.store.inodes }
        ensures size { M.size self.new.store.medium ≡ M.size self.old.store.medium }
        ensures cause { WriteHasCause (M.faults self.old.store.medium) (M.faults self.new.store.medium) result }
    {
        let index = &mut self.tables.dirs[dir as usize];
        remove_name(self.alloc, &mut self.store, index, dir, name, place)?;
        self.tables
            .remove_name(dir, place.inode, is_directory(kind));
        Ok(())
    }
}
