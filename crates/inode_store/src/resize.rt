//! The bytes of an inode are cut, or filled with zeros.

ghost use Rattle.std.specs.Prelude.{◌≡◌, ◌*◌, ◌%◌, ◌^◌, ◌<◌, ◌≤◌, IsSome, OnOk, IfOk, length};
ghost use Rattle.std.specs.Option.{option_map};
ghost use Rattle.block_alloc.specs.Free.{free_count};
ghost use Rattle.nfs2_types.specs.Bytes.{resized};
ghost use Rattle.outside.specs.Causes.{WriteHasCause};
ghost use Rattle.pointer_tree.specs.Changes.{Fits, Lies, Stands};
ghost use Rattle.inode_store.specs.Files.{with_bytes};
ghost use Rattle.inode_store.specs.Inodes.{inode_at, file_at, IsWhole};
ghost use Rattle.inode_store.specs.Keeps.{Keeps, Becomes};
ghost use Rattle.inode_store.specs.Written.{Rewrites};

use crate::inode::Inode;
use crate::store::InodeStore;
use outside::{Medium, MediumErr};
use pointer_tree::{cut_tree, deepen_tree};

impl<M: Medium> InodeStore<M> {
    /// Cuts the bytes of a used inode, or fills them with zeros up to the size.
    pub fn set_size(&mut self, inode: u32, size: u32) -> Result<(), MediumErr>
        requires kept { Keeps self.old.area self.old.inodes (M.content self.old.medium) (M.size self.old.medium)
            self.old.map }
        requires within { inode < self.old.inodes }
        requires used { IsSome (file_at self.old.area (M.content self.old.medium) inode) }
        requires end { size ≤ 512 * 128 ^ 3 }
        requires room { 10 ≤ free_count self.old.map }
        ensures file { OnOk result (Becomes self.new.area self.new.inodes (M.size self.new.medium) inode
            (option_map (with_bytes (resized size)) (file_at self.old.area (M.content self.old.medium) inode))
            (M.content self.old.medium) (M.content self.new.medium) self.new.map) }
        ensures area { self.new.area ≡ self.old.area }
        ensures inodes { self.new.inodes ≡ self.old.inodes }
        ensures size { M.size self.new.medium ≡ M.size self.old.medium }
        ensures cause { WriteHasCause (M.faults self.old.medium) (M.faults self.new.medium) result }
    {
        let x = self.used(inode)?;
        let y = self.resize(x, size)?;
        self.put_changed(inode, x, y)?;
        Ok(())
    }

    /// The inode with its bytes cut, or with zeros behind them.
    fn resize(&mut self, x: Inode, size: u32) -> Result<Inode, MediumErr>
        requires lies { Lies self.old.area (M.size self.old.medium) self.old.map }
        requires fits { Fits self.old.area (M.size self.old.medium) self.old.map }
        requires stands { Stands self.old.area x.depth x.top (M.content self.old.medium) self.old.map }
        requires whole { IsWhole self.old.area (M.content self.old.medium) x }
        requires end { size ≤ 512 * 128 ^ 3 }
        requires room { 10 ≤ free_count self.old.map }
        ensures ok { IfOk result (λ y. Rewrites self.old.area x (resized size) (M.content self.old.medium)
            self.old.map y (M.content self.new.medium) self.new.map) }
        ensures len { length self.new.map ≡ length self.old.map }
        ensures area { self.new.area ≡ self.old.area }
        ensures inodes { self.new.inodes ≡ self.old.inodes }
        ensures size { M.size self.new.medium ≡ M.size self.old.medium }
        ensures cause { WriteHasCause (M.faults self.old.medium) (M.faults self.new.medium) result }
    {
        if size <= x.size {
            let y = self.cut(x, size)?;
            return Ok(y);
        }
        let y = self.fill(x, size)?;
        Ok(y)
    }

    /// The inode with zeros behind its bytes: first to the end of their last block, then the rest.
    fn fill(&mut self, x: Inode, size: u32) -> Result<Inode, MediumErr>
        requires fits { Fits self.old.area (M.size self.old.medium) self.old.map }
        requires stands { Stands self.old.area x.depth x.top (M.content self.old.medium) self.old.map }
        requires whole { IsWhole self.old.area (M.content self.old.medium) x }
        requires more { x.size < size }
        requires end { size ≤ 512 * 128 ^ 3 }
        requires room { 10 ≤ free_count self.old.map }
        ensures ok { IfOk result (λ y. Rewrites self.old.area x (resized size) (M.content self.old.medium)
            self.old.map y (M.content self.new.medium) self.new.map) }
        ensures len { length self.new.map ≡ length self.old.map }
        ensures area { self.new.area ≡ self.old.area }
        ensures inodes { self.new.inodes ≡ self.old.inodes }
        ensures size { M.size self.new.medium ≡ M.size self.old.medium }
        ensures cause { WriteHasCause (M.faults self.old.medium) (M.faults self.new.medium) result }
    {
        let start = x.size % 512;
        if start == 0 {
            let whole = self.lengthen(x, size)?;
            return Ok(whole);
        }
        let count = (512 - start).min(size - x.size);
        let y = self.write_part(x, x.size, &[0; 512][..count as usize])?;
        if y.size == size {
            return Ok(y);
        }
        let z = self.lengthen(y, size)?;
        Ok(z)
    }

    /// The inode with its bytes cut, and the blocks behind them given back.
    fn cut(&mut self, x: Inode, size: u32) -> Result<Inode, MediumErr>
        requires lies { Lies self.old.area (M.size self.old.medium) self.old.map }
        requires stands { Stands self.old.area x.depth x.top (M.content self.old.medium) self.old.map }
        requires whole { IsWhole self.old.area (M.content self.old.medium) x }
        requires less { size ≤ x.size }
        ensures ok { IfOk result (λ y. Rewrites self.old.area x (resized size) (M.content self.old.medium)
            self.old.map y (M.content self.new.medium) self.new.map) }
        ensures len { length self.new.map ≡ length self.old.map }
        ensures area { self.new.area ≡ self.old.area }
        ensures inodes { self.new.inodes ≡ self.old.inodes }
        ensures size { M.size self.new.medium ≡ M.size self.old.medium }
        ensures cause { WriteHasCause (M.faults self.old.medium) (M.faults self.new.medium) result }
    {
        let keep = size.div_ceil(512);
        let medium = &mut self.medium;
        let top = cut_tree(medium, &mut self.map, self.area, x.depth, x.top, keep)?;
        Ok(Inode { size, top, ..x })
    }

    /// The inode with zeros behind its bytes, which end with a block. They take no blocks but those that make its tree
    /// deeper.
    fn lengthen(&mut self, x: Inode, size: u32) -> Result<Inode, MediumErr>
        requires fits { Fits self.old.area (M.size self.old.medium) self.old.map }
        requires stands { Stands self.old.area x.depth x.top (M.content self.old.medium) self.old.map }
        requires whole { IsWhole self.old.area (M.content self.old.medium) x }
        requires more { x.size < size }
        requires end { size ≤ 512 * 128 ^ 3 }
        requires block { x.size % 512 ≡ 0 }
        requires room { 3 ≤ free_count self.old.map }
        ensures ok { IfOk result (λ y. Rewrites self.old.area x (resized size) (M.content self.old.medium)
            self.old.map y (M.content self.new.medium) self.new.map) }
        ensures len { length self.new.map ≡ length self.old.map }
        ensures area { self.new.area ≡ self.old.area }
        ensures inodes { self.new.inodes ≡ self.old.inodes }
        ensures size { M.size self.new.medium ≡ M.size self.old.medium }
        ensures cause { WriteHasCause (M.faults self.old.medium) (M.faults self.new.medium) result }
    {
        let last = (size - 1) / 512;
        let medium = &mut self.medium;
        let (depth, top) = deepen_tree(medium, &mut self.map, self.area, x.depth, x.top, last)?;
        Ok(Inode {
            size,
            depth,
            top,
            ..x
        })
    }
}
