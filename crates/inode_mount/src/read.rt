//! A medium that holds a tree is read.

ghost use Rattle.std.specs.Prelude.{◌≡◌, ◌+◌, ◌^◌, ◌<◌, OnOk};
ghost use Rattle.outside.specs.Causes.{WriteHasCause};
ghost use Rattle.inode_store.specs.Layout.{HoldsTree};
ghost use Rattle.inode_tree.specs.Planned.{epoch_of};
ghost use Rattle.inode_tree.specs.Sound.{IsPlanned};
ghost use Rattle.inode_tree.specs.Whole.{IsWhole};

use crate::claim::claim_inodes;
use crate::enter::enter_inodes;
use crate::names::enter_names;
use inode_tree::{InodeTables, InodeTree};
use outside::{Medium, MediumErr};

/// Makes the tables of what the medium holds anew, under handles of another epoch. It reads each inode, the nodes of
/// the trees, and the slots of directories.
pub fn read_tables<M: Medium>(tree: &mut InodeTree<M>) -> Result<(), MediumErr>
    requires planned { IsPlanned tree.old.limits tree.old.store.area tree.old.store.inodes
        (M.size tree.old.store.medium) }
    requires holds { HoldsTree tree.old.limits tree.old.store.area tree.old.store.inodes
        (M.content tree.old.store.medium) }
    ensures whole { OnOk result (IsWhole M.content M.size tree.new) }
    ensures epoch { OnOk result (epoch_of tree.new.tables ≡ epoch_of tree.old.tables + 1) }
    ensures few { OnOk result (epoch_of tree.new.tables < 2 ^ 64) }
    ensures content { M.content tree.new.store.medium ≡ M.content tree.old.store.medium }
    ensures limits { tree.new.limits ≡ tree.old.limits }
    ensures area { tree.new.store.area ≡ tree.old.store.area }
    ensures inodes { tree.new.store.inodes ≡ tree.old.store.inodes }
    ensures size { M.size tree.new.store.medium ≡ M.size tree.old.store.medium }
    ensures cause { WriteHasCause (M.faults tree.old.store.medium) (M.faults tree.new.store.medium) result }
{
    // A server never lasts until its epochs are spent; then it would answer NoMemory.
    let Some(epoch) = tree.tables.epoch().checked_add(1) else {
        return Err(MediumErr::NoMemory);
    };
    claim_inodes(tree.alloc, &mut tree.store)?;
    tree.tables = InodeTables::new(tree.alloc, tree.store.inodes, epoch)?;
    enter_inodes(tree)?;
    enter_names(tree)?;
    Ok(())
}
