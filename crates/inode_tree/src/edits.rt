//! Nodes that change.

ghost use Rattle.std.specs.Prelude.{◌≡◌, ◌≢◌, ℕ, ◌+◌, ◌-◌, ◌<◌, ◌≤◌, max, Some, IsSome, IfOk, OnOk, take, length};
ghost use Rattle.nfs2_types.specs.Bytes.{resized, overwritten};
ghost use Rattle.nfs2_types.specs.declared.fattr.Kind.TheVariants.{File as AFile};
ghost use Rattle.outside.specs.Causes.{WriteHasCause};
ghost use Rattle.server_trait.specs.Tree.{edited, with_attr, with_bytes};
ghost use Rattle.inode_dirs.specs.Files.{File};
ghost use Rattle.inode_store.specs.Store.{file_in};
ghost use Rattle.inode_tree.specs.Kept.{tables_of};
ghost use Rattle.inode_tree.specs.Whole.{tree_in, IsWhole};

use crate::tree::InodeTree;
use outside::{Medium, MediumErr};

impl<M: Medium> InodeTree<M> {
    /// Sets the mode and the owners of a node.
    pub fn set_attr(&mut self, inode: u32, mode: u32, uid: u32, gid: u32) -> Result<(), MediumErr>
        requires whole { IsWhole M.content M.size self.old }
        requires within { inode < self.old.store.inodes }
        requires used { IsSome ((tables_of self.old.tables).kind inode) }
        ensures whole { OnOk result (IsWhole M.content M.size self.new) }
        ensures node { OnOk result (tree_in M.content self.new ≡ edited (tree_in M.content self.old)
            ((tables_of self.old.tables).handle inode) (with_attr mode uid gid)) }
        ensures first { OnOk result (M.content self.new.store.medium 0 ≡ M.content self.old.store.medium 0) }
        ensures limits { self.new.limits ≡ self.old.limits }
        ensures area { self.new.store.area ≡ self.old.store.area }
        ensures inodes { self.new.store.inodes ≡ self.old.store.inodes }
        ensures size { M.size self.new.store.medium ≡ M.size self.old.store.medium }
        ensures cause { WriteHasCause (M.faults self.old.store.medium) (M.faults self.new.store.medium) result }
    {
        self.store.set_attr(inode, mode, uid, gid)?;
        Ok(())
    }

    /// Puts bytes from the front of a piece over those of a file of this size or behind them, from a place that is not
    /// past their end, and answers how many.
    pub fn write(
        &mut self,
        inode: u32,
        size: u32,
        offset: u32,
        piece: &[u8],
    ) -> Result<u32, MediumErr>
        requires whole { IsWhole M.content M.size self.old }
        requires within { inode < self.old.store.inodes }
        requires used { (tables_of self.old.tables).kind inode ≡ Some AFile }
        requires size { (f : File) → file_in M.content self.old.store inode ≡ Some f → length f.bytes ≡ size }
        requires inside { offset ≤ size }
        requires some { 1 ≤ length piece.now }
        requires end { offset + length piece.now ≤ 8388608 }
        requires room { ((tables_of self.old.tables).counts.used - size) + max size (offset + length piece.now) ≤
            self.old.limits.bytes }
        ensures whole { OnOk result (IsWhole M.content M.size self.new) }
        ensures some { IfOk result (λ n. 1 ≤ n) }
        ensures most { IfOk result (λ n. n ≤ length piece.now) }
        ensures node { IfOk result (λ n. tree_in M.content self.new ≡ edited (tree_in M.content self.old)
            ((tables_of self.old.tables).handle inode) (with_bytes (overwritten offset (take n piece.now)))) }
        ensures first { OnOk result (M.content self.new.store.medium 0 ≡ M.content self.old.store.medium 0) }
        ensures limits { self.new.limits ≡ self.old.limits }
        ensures area { self.new.store.area ≡ self.old.store.area }
        ensures inodes { self.new.store.inodes ≡ self.old.store.inodes }
        ensures size { M.size self.new.store.medium ≡ M.size self.old.store.medium }
        ensures cause { WriteHasCause (M.faults self.old.store.medium) (M.faults self.new.store.medium) result }
    {
        let count = self.store.write(inode, offset, piece)?;
        let after = size.max(offset + count);
        self.tables.resize(u64::from(size), u64::from(after));
        Ok(count)
    }

    /// Cuts a file of this size, or fills it with zeros.
    pub fn set_size(&mut self, inode: u32, old: u32, size: u32) -> Result<(), MediumErr>
        requires whole { IsWhole M.content M.size self.old }
        requires within { inode < self.old.store.inodes }
        requires used { (tables_of self.old.tables).kind inode ≡ Some AFile }
        requires old { (f : File) → file_in M.content self.old.store inode ≡ Some f → length f.bytes ≡ old }
        requires end { size ≤ 8388608 }
        requires room { ((tables_of self.old.tables).counts.used - old) + size ≤ self.old.limits.bytes }
        ensures whole { OnOk result (IsWhole M.content M.size self.new) }
        ensures node { OnOk result (tree_in M.content self.new ≡ edited (tree_in M.content self.old)
            ((tables_of self.old.tables).handle inode) (with_bytes (resized size))) }
        ensures first { OnOk result (M.content self.new.store.medium 0 ≡ M.content self.old.store.medium 0) }
        ensures limits { self.new.limits ≡ self.old.limits }
        ensures area { self.new.store.area ≡ self.old.store.area }
        ensures inodes { self.new.store.inodes ≡ self.old.store.inodes }
        ensures size { M.size self.new.store.medium ≡ M.size self.old.store.medium }
        ensures cause { WriteHasCause (M.faults self.old.store.medium) (M.faults self.new.store.medium) result }
    {
        self.store.set_size(inode, size)?;
        self.tables.resize(u64::from(old), u64::from(size));
        Ok(())
    }
}
