//! Nodes that are read.

ghost use Rattle.std.specs.Prelude.{◌≡◌, ◌<◌, Some, IsSome, IfOk, OnOk, take, drop};
ghost use Rattle.outside.specs.Causes.{WriteHasCause};
ghost use Rattle.inode_dirs.specs.Files.{File};
ghost use Rattle.inode_store.specs.Store.{file_in};
ghost use Rattle.inode_tree.specs.Sound.{Tells};
ghost use Rattle.inode_tree.specs.Kept.{tables_of};
ghost use Rattle.inode_tree.specs.Whole.{tree_in, IsWhole};

use crate::tree::InodeTree;
use inode_store::Inode;
use outside::{Medium, MediumErr};

impl<M: Medium> InodeTree<M> {
    /// What the medium holds of a node beside its content. It reads one block.
    pub fn inode(&mut self, inode: u32) -> Result<Inode, MediumErr>
        requires whole { IsWhole M.content M.size self.old }
        requires within { inode < self.old.store.inodes }
        requires used { IsSome ((tables_of self.old.tables).kind inode) }
        ensures inode { IfOk result (λ x. (f : File) → file_in M.content self.old.store inode ≡ Some f → Tells x f) }
        ensures whole { OnOk result (IsWhole M.content M.size self.new) }
        ensures content { M.content self.new.store.medium ≡ M.content self.old.store.medium }
        ensures tables { self.new.tables ≡ self.old.tables }
        ensures limits { self.new.limits ≡ self.old.limits }
        ensures area { self.new.store.area ≡ self.old.store.area }
        ensures inodes { self.new.store.inodes ≡ self.old.store.inodes }
        ensures size { M.size self.new.store.medium ≡ M.size self.old.store.medium }
        ensures cause { WriteHasCause (M.faults self.old.store.medium) (M.faults self.new.store.medium) result }
    {
        let found = self.store.used(inode)?;
        Ok(found)
    }

    /// The bytes of a file, the text of a link or the slots of a directory, from a place on, up to a count or the end.
    pub fn read(&mut self, inode: u32, from: u32, count: u32) -> Result<Vec<u8>, MediumErr>
        requires whole { IsWhole M.content M.size self.old }
        requires within { inode < self.old.store.inodes }
        requires used { IsSome ((tables_of self.old.tables).kind inode) }
        ensures bytes { IfOk result (λ v. (f : File) → file_in M.content self.old.store inode ≡ Some f →
            v.items ≡ take count (drop from f.bytes)) }
        ensures whole { OnOk result (IsWhole M.content M.size self.new) }
        ensures content { M.content self.new.store.medium ≡ M.content self.old.store.medium }
        ensures tables { self.new.tables ≡ self.old.tables }
        ensures limits { self.new.limits ≡ self.old.limits }
        ensures area { self.new.store.area ≡ self.old.store.area }
        ensures inodes { self.new.store.inodes ≡ self.old.store.inodes }
        ensures size { M.size self.new.store.medium ≡ M.size self.old.store.medium }
        ensures cause { WriteHasCause (M.faults self.old.store.medium) (M.faults self.new.store.medium) result }
    {
        let bytes = self.store.read(self.alloc, inode, from, count)?;
        Ok(bytes)
    }
}
