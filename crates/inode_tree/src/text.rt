//! The text of a link.

ghost use Rattle.std.specs.Prelude.{◌≡◌, ℕ, ◌+◌, ◌<◌, ◌≤◌, [], List, Some, IsSome, OnOk, length};
ghost use Rattle.std.specs.Option.{option_map};
ghost use Rattle.block_alloc.specs.Free.{free_count};
ghost use Rattle.nfs2_types.specs.declared.fattr.Kind.TheVariants.{Link};
ghost use Rattle.outside.specs.Causes.{WriteHasCause};
ghost use Rattle.server_trait.specs.Tree.{edited};
ghost use Rattle.inode_dirs.specs.Files.{File};
ghost use Rattle.inode_store.specs.Files.{with_bytes};
ghost use Rattle.inode_store.specs.Keeps.{Becomes};
ghost use Rattle.inode_store.specs.Store.{file_in, IsKept};
ghost use Rattle.inode_tree.specs.Changes.{Resizes};
ghost use Rattle.inode_tree.specs.Sound.{with_text};
ghost use Rattle.inode_tree.specs.Kept.{tables_of};
ghost use Rattle.inode_tree.specs.Whole.{tree_in, IsWhole};

use crate::tree::InodeTree;
use inode_store::InodeStore;
use outside::{Medium, MediumErr};

/// Writes the bytes of an inode that has none.
fn put_text<M: Medium>(store: &mut InodeStore<M>, inode: u32, text: &[u8]) -> Result<(), MediumErr>
    requires kept { IsKept M.content M.size store.old }
    requires within { inode < store.old.inodes }
    requires used { IsSome (file_in M.content store.old inode) }
    requires empty { (f : File) → file_in M.content store.old inode ≡ Some f → f.bytes ≡ [] }
    requires some { 1 ≤ length text.now }
    requires few { length text.now ≤ 1024 }
    requires room { 14 ≤ free_count store.old.map }
    ensures file { OnOk result (Becomes store.new.area store.new.inodes (M.size store.new.medium) inode
        (option_map (with_bytes (λ _. text.now)) (file_in M.content store.old inode))
        (M.content store.old.medium) (M.content store.new.medium) store.new.map) }
    ensures area { store.new.area ≡ store.old.area }
    ensures inodes { store.new.inodes ≡ store.old.inodes }
    ensures size { M.size store.new.medium ≡ M.size store.old.medium }
    ensures cause { WriteHasCause (M.faults store.old.medium) (M.faults store.new.medium) result }
{
    let first = store.write(inode, 0, text)?;
    if first as usize == text.len() {
        return Ok(());
    }
    store.write(inode, first, &text[first as usize..])?;
    Ok(())
}

impl<M: Medium> InodeTree<M> {
    /// Gives a link without text its text.
    pub fn write_text(&mut self, inode: u32, text: &[u8]) -> Result<(), MediumErr>
        requires whole { IsWhole M.content M.size self.old }
        requires within { inode < self.old.store.inodes }
        requires used { (tables_of self.old.tables).kind inode ≡ Some Link }
        requires empty { (f : File) → file_in M.content self.old.store inode ≡ Some f → f.bytes ≡ [] }
        requires some { 1 ≤ length text.now }
        requires few { length text.now ≤ 1024 }
        requires room { (tables_of self.old.tables).counts.used + length text.now ≤ self.old.limits.bytes }
        ensures whole { OnOk result (IsWhole M.content M.size self.new) }
        ensures node { OnOk result (tree_in M.content self.new ≡ edited (tree_in M.content self.old)
            ((tables_of self.old.tables).handle inode) (with_text text.now)) }
        ensures rows { OnOk result
            (Resizes (tables_of self.old.tables) (tables_of self.new.tables) 0 (length text.now)) }
        ensures first { OnOk result (M.content self.new.store.medium 0 ≡ M.content self.old.store.medium 0) }
        ensures limits { self.new.limits ≡ self.old.limits }
        ensures area { self.new.store.area ≡ self.old.store.area }
        ensures inodes { self.new.store.inodes ≡ self.old.store.inodes }
        ensures size { M.size self.new.store.medium ≡ M.size self.old.store.medium }
        ensures cause { WriteHasCause (M.faults self.old.store.medium) (M.faults self.new.store.medium) result }
    {
        put_text(&mut self.store, inode, text)?;
        self.tables.resize(0, text.len() as u64);
        Ok(())
    }
}
