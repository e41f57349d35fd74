//! Nodes that come and go.

ghost use Rattle.std.specs.Prelude.{◌≡◌, ◌≢◌, ℕ, ◌+◌, ◌<◌, ◌≤◌, [], None, Some, IsSome, IfOk, IfSome, OnOk, MatchOption, length};
ghost use Rattle.std.specs.FinMap.{len, empty};
ghost use Rattle.nfs2_types.specs.declared.fattr.Kind.TheVariants.{Dir};
ghost use Rattle.outside.specs.Causes.{WriteHasCause};
ghost use Rattle.server_trait.specs.Tree.{node_at, with_node, without_node, new_node};
ghost use Rattle.inode_dirs.specs.Files.{File};
ghost use Rattle.inode_store.specs.Files.{new_file};
ghost use Rattle.inode_store.specs.Store.{file_in};
ghost use Rattle.inode_tree.specs.Sound.{empty_of};
ghost use Rattle.inode_tree.specs.Changes.{Takes};
ghost use Rattle.inode_tree.specs.Kept.{tables_of};
ghost use Rattle.inode_tree.specs.Whole.{tree_in, IsWhole};

use crate::tree::InodeTree;
use nfs2_types::Kind;
use outside::{Medium, MediumErr};

impl<M: Medium> InodeTree<M> {
    /// Takes a free inode for a node of a kind, of mode, uid and gid 0 and without content, to which no name leads.
    /// `None` comes where no inode is free.
    pub fn take_node(&mut self, kind: Kind) -> Result<Option<u32>, MediumErr>
        requires { IsWhole M.content M.size self.old }
        ensures whole { OnOk result (IsWhole M.content M.size self.new) }
        ensures node { IfOk result (λ o. MatchOption o ((tree_in M.content self.new ≡ tree_in M.content self.old) ×
            (len (tree_in M.content self.old).nodes ≡ self.old.store.inodes))
            (λ i. (tree_in M.content self.new ≡ with_node (tree_in M.content self.old)
            ((tables_of self.new.tables).handle i) (new_node i (empty_of kind))) ×
            (node_at (tree_in M.content self.old) ((tables_of self.new.tables).handle i) ≡ None) ×
            Takes (tables_of self.old.tables) (tables_of self.new.tables) i kind 0)) }
        ensures inode { IfOk result (λ o. IfSome o (λ i. (i < self.old.store.inodes) ×
            ((tables_of self.old.tables).kind i ≡ None) ×
            (file_in M.content self.new.store i ≡ Some (new_file kind)))) }
        ensures first { OnOk result (M.content self.new.store.medium 0 ≡ M.content self.old.store.medium 0) }
        ensures limits { self.new.limits ≡ self.old.limits }
        ensures area { self.new.store.area ≡ self.old.store.area }
        ensures inodes { self.new.store.inodes ≡ self.old.store.inodes }
        ensures size { M.size self.new.store.medium ≡ M.size self.old.store.medium }
        ensures cause { WriteHasCause (M.faults self.old.store.medium) (M.faults self.new.store.medium) result }
    {
        let Some(inode) = self.tables.take(self.alloc, kind)? else {
            return Ok(None);
        };
        self.store.take(inode, kind)?;
        Ok(Some(inode))
    }

    /// Gives back a node of so many bytes, to which no name leads. A directory has no names.
    pub fn give_node(&mut self, inode: u32, size: u32) -> Result<(), MediumErr>
        requires whole { IsWhole M.content M.size self.old }
        requires within { inode < self.old.store.inodes }
        requires used { IsSome ((tables_of self.old.tables).kind inode) }
        requires bare { (f : File) → file_in M.content self.old.store inode ≡ Some f → f.kind ≡ Dir → f.bytes ≡ [] }
        requires unlinked { (tables_of self.old.tables).counts.links inode ≡ 0 }
        requires other { inode ≢ 0 }
        requires size { (f : File) → file_in M.content self.old.store inode ≡ Some f → length f.bytes ≡ size }
        ensures whole { OnOk result (IsWhole M.content M.size self.new) }
        ensures node { OnOk result (tree_in M.content self.new ≡
            without_node (tree_in M.content self.old) ((tables_of self.old.tables).handle inode)) }
        ensures first { OnOk result (M.content self.new.store.medium 0 ≡ M.content self.old.store.medium 0) }
        ensures limits { self.new.limits ≡ self.old.limits }
        ensures area { self.new.store.area ≡ self.old.store.area }
        ensures inodes { self.new.store.inodes ≡ self.old.store.inodes }
        ensures size { M.size self.new.store.medium ≡ M.size self.old.store.medium }
        ensures cause { WriteHasCause (M.faults self.old.store.medium) (M.faults self.new.store.medium) result }
    {
        self.store.give(inode)?;
        self.tables.give(inode, u64::from(size));
        Ok(())
    }
}
