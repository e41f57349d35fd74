//! A medium is made to hold an empty root.

ghost use Rattle.std.specs.Prelude.{◌≡◌, OnOk, Some};
ghost use Rattle.outside.specs.Causes.{WriteHasCause};
ghost use Rattle.server_trait.specs.Calls.{IsFresh};
ghost use Rattle.inode_tree.specs.Kept.{tables_of};
ghost use Rattle.inode_tree.specs.Sound.{IsPlanned};
ghost use Rattle.inode_tree.specs.Whole.{tree_in, IsWhole};

use crate::tables::InodeTables;
use crate::tree::InodeTree;
use nfs2_types::Kind;
use outside::{Block, Medium, MediumErr};

impl<M: Medium> InodeTree<M> {
    /// Makes an empty root, whatever the medium held, under handles of another epoch. Block 0 gets these bytes.
    pub fn wipe(&mut self, name: &Block) -> Result<(), MediumErr>
        requires { IsPlanned self.old.limits self.old.store.area self.old.store.inodes (M.size self.old.store.medium) }
        ensures whole { OnOk result (IsWhole M.content M.size self.new) }
        ensures fresh { OnOk result (IsFresh (Some (tree_in M.content self.new))) }
        ensures name { OnOk result (M.content self.new.store.medium 0 ≡ name.now) }
        ensures limits { self.new.limits ≡ self.old.limits }
        ensures area { self.new.store.area ≡ self.old.store.area }
        ensures inodes { self.new.store.inodes ≡ self.old.store.inodes }
        ensures size { M.size self.new.store.medium ≡ M.size self.old.store.medium }
        ensures cause { WriteHasCause (M.faults self.old.store.medium) (M.faults self.new.store.medium) result }
    {
        // A server never lasts until its epochs are spent; then it would answer NoMemory.
        let Some(epoch) = self.tables.epoch.checked_add(1) else {
            return Err(MediumErr::NoMemory);
        };
        self.tables = InodeTables::new(self.alloc, self.store.inodes, epoch)?;
        self.store.format(self.alloc, name)?;
        match self.tables.take(self.alloc, Kind::Dir)? {
            Some(_) => Ok(()),
            None => unreachable!(),
        }
    }
}
