//! The inodes of a medium are entered in the tables, where directories have no names yet.

ghost use Rattle.std.specs.Prelude.{◌≡◌, ◌+◌, ◌<◌, OnOk, IfOk, length};
ghost use Rattle.outside.specs.Causes.{WriteHasCause};
ghost use Rattle.inode_tree.specs.Changes.{AreBare};
ghost use Rattle.inode_tree.specs.Kept.{tables_of};
ghost use Rattle.inode_tree.specs.Planned.{epoch_of};
ghost use Rattle.inode_mount.specs.Reading.{cut_bytes, files_in, AreEntered, AreNamed, IsEntering, IsReadable};

use inode_store::Inode;
use inode_tree::InodeTree;
use nfs2_types::Kind;
use outside::{Medium, MediumErr};

/// How many bytes count for an inode before its names are read.
fn bare_size(inode: &Inode) -> u32
    ensures { (bytes : _) → length bytes ≡ inode.now.size → result ≡ length (cut_bytes inode.now.kind 0 bytes) }
{
    match inode.kind {
        Kind::File | Kind::Link => inode.size,
        Kind::Dir => 0,
    }
}

/// Enters an inode, if it is used. It reads one block.
fn enter_inode<M: Medium>(tree: &mut InodeTree<M>, inode: u32) -> Result<(), MediumErr>
    requires readable { IsReadable M.content M.size tree.old }
    requires within { inode < tree.old.store.inodes }
    requires so_far { IsEntering tree.old.store.inodes (files_in M.content tree.old.store) inode
        (tables_of tree.old.tables) }
    ensures so_far { OnOk result (AreEntered tree.old.store.inodes (files_in M.content tree.old.store) (inode + 1)
        (tables_of tree.new.tables)) }
    ensures epoch { epoch_of tree.new.tables ≡ epoch_of tree.old.tables }
    ensures content { M.content tree.new.store.medium ≡ M.content tree.old.store.medium }
    ensures map { tree.new.store.map ≡ tree.old.store.map }
    ensures limits { tree.new.limits ≡ tree.old.limits }
    ensures area { tree.new.store.area ≡ tree.old.store.area }
    ensures inodes { tree.new.store.inodes ≡ tree.old.store.inodes }
    ensures size { M.size tree.new.store.medium ≡ M.size tree.old.store.medium }
    ensures cause { WriteHasCause (M.faults tree.old.store.medium) (M.faults tree.new.store.medium) result }
{
    let Some(x) = tree.store.get(inode)? else {
        return Ok(());
    };
    let size = bare_size(&x);
    tree.tables
        .enter(tree.alloc, inode, x.kind, u64::from(size));
    Ok(())
}

/// Enters all used inodes. It reads the block of each inode.
pub(crate) fn enter_inodes<M: Medium>(tree: &mut InodeTree<M>) -> Result<(), MediumErr>
    requires readable { IsReadable M.content M.size tree.old }
    requires bare { AreBare (tables_of tree.old.tables) tree.old.store.inodes }
    ensures entered { OnOk result (AreNamed tree.old.store.inodes (files_in M.content tree.old.store) 0 0
        (tables_of tree.new.tables)) }
    ensures epoch { epoch_of tree.new.tables ≡ epoch_of tree.old.tables }
    ensures content { M.content tree.new.store.medium ≡ M.content tree.old.store.medium }
    ensures map { tree.new.store.map ≡ tree.old.store.map }
    ensures limits { tree.new.limits ≡ tree.old.limits }
    ensures area { tree.new.store.area ≡ tree.old.store.area }
    ensures inodes { tree.new.store.inodes ≡ tree.old.store.inodes }
    ensures size { M.size tree.new.store.medium ≡ M.size tree.old.store.medium }
    ensures cause { WriteHasCause (M.faults tree.old.store.medium) (M.faults tree.new.store.medium) result }
{
    for inode in 0..tree.store.inodes {
        enter_inode(tree, inode)?;
    }
    Ok(())
}
