//! The blocks that the trees of inodes use are claimed.

ghost use Rattle.std.specs.Prelude.{◌≡◌, ℕ, ◌+◌, ◌^◌, ◌<◌, ◌≤◌, Some, OnOk, length};
ghost use Rattle.outside.specs.Causes.{WriteHasCause};
ghost use Rattle.pointer_tree.specs.Changes.{Lies, Claims};
ghost use Rattle.inode_store.specs.Inodes.{inode_at, depth_of, top_of, IsWhole};
ghost use Rattle.inode_store.specs.Keeps.{all_uses};
ghost use Rattle.inode_store.specs.Store.{IsKept};
ghost use Rattle.inode_store.specs.declared.inode.Inode.{Inode};

use inode_store::{InodeStore, free_area};
use outside::{Medium, MediumErr};
use pointer_tree::claim_tree;
use std::alloc::Global;

/// Claims the blocks of one inode's tree.
fn claim_inode<M: Medium>(store: &mut InodeStore<M>, inode: u32) -> Result<(), MediumErr>
    requires lies { Lies store.old.area (M.size store.old.medium) store.old.map }
    requires on_medium { 1 + inode < M.size store.old.medium }
    requires small { M.size store.old.medium < 2 ^ 32 }
    requires whole { (x : Inode) → inode_at store.old.area (M.content store.old.medium) inode ≡ Some x →
        IsWhole store.old.area (M.content store.old.medium) x }
    ensures ok { OnOk result (Claims store.old.area
        (depth_of (inode_at store.old.area (M.content store.old.medium) inode))
        (top_of (inode_at store.old.area (M.content store.old.medium) inode))
        (M.content store.old.medium) store.old.map store.new.map) }
    ensures len { length store.new.map ≡ length store.old.map }
    ensures content { M.content store.new.medium ≡ M.content store.old.medium }
    ensures size { M.size store.new.medium ≡ M.size store.old.medium }
    ensures area { store.new.area ≡ store.old.area }
    ensures inodes { store.new.inodes ≡ store.old.inodes }
    ensures cause { WriteHasCause (M.faults store.old.medium) (M.faults store.new.medium) result }
{
    let Some(x) = store.load(inode)? else {
        return Ok(());
    };
    let medium = &mut store.medium;
    claim_tree(medium, &mut store.map, store.area, x.depth, x.top)?;
    Ok(())
}

/// Finds which blocks of a medium are free: those of its area that no inode's tree uses. It reads each inode, and of
/// its tree the nodes.
pub fn claim_inodes<M: Medium>(alloc: Global, store: &mut InodeStore<M>) -> Result<(), MediumErr>
    requires first { store.old.area.first ≡ 1 + store.old.inodes }
    requires ordered { store.old.area.first ≤ store.old.area.end }
    requires on_medium { store.old.area.end ≤ M.size store.old.medium }
    requires small { M.size store.old.medium < 2 ^ 32 }
    requires whole { (i : ℕ) (x : Inode) → i < store.old.inodes →
        inode_at store.old.area (M.content store.old.medium) i ≡ Some x →
        IsWhole store.old.area (M.content store.old.medium) x }
    requires once { (b : ℕ) → all_uses store.old.area (M.content store.old.medium) store.old.inodes b ≤ 1 }
    ensures kept { OnOk result (IsKept M.content M.size store.new) }
    ensures content { M.content store.new.medium ≡ M.content store.old.medium }
    ensures size { M.size store.new.medium ≡ M.size store.old.medium }
    ensures area { store.new.area ≡ store.old.area }
    ensures inodes { store.new.inodes ≡ store.old.inodes }
    ensures cause { WriteHasCause (M.faults store.old.medium) (M.faults store.new.medium) result }
{
    store.map = free_area(alloc, store.area)?;
    for inode in 0..store.inodes {
        claim_inode(store, inode)?;
    }
    Ok(())
}
