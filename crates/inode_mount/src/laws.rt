//! What the tables of a server say of its medium.

ghost use Rattle.std.specs.Prelude.{◌≡◌};
ghost use Rattle.inode_store.specs.Layout.{superblock, HoldsTree};
ghost use Rattle.inode_tree.specs.Whole.{IsWhole};

use inode_tree::InodeTree;
use outside::Medium;

/// A medium whose inodes are those of the tables, and whose block 0 names the limits, holds a tree.
pub fn holds_tree<M: Medium>(tree: &InodeTree<M>)
    requires whole { IsWhole M.content M.size tree.now }
    requires name { M.content tree.now.store.medium 0 ≡ superblock tree.now.limits }
    ensures { HoldsTree tree.now.limits tree.now.store.area tree.now.store.inodes (M.content tree.now.store.medium) }
{
    let _tree = tree;
}
