//! Bytes of an inode are written.

ghost use Rattle.std.specs.Prelude.{◌≡◌, ◌≢◌, ◌⊎◌, ℕ, ◌+◌, ◌-◌, ◌*◌, ◌%◌, ◌^◌, ◌<◌, ◌≤◌, max, min, Some, IsSome, OnOk, IfOk, take, length, slice_index};
ghost use Rattle.std.specs.Option.{option_map};
ghost use Rattle.block_alloc.specs.Free.{free_count};
ghost use Rattle.nfs2_types.specs.Bytes.{overwritten};
ghost use Rattle.outside.specs.Causes.{WriteHasCause};
ghost use Rattle.pointer_tree.specs.Changes.{IsTop, Fits, Stands};
ghost use Rattle.inode_dirs.specs.Files.{File};
ghost use Rattle.inode_store.specs.Files.{with_bytes};
ghost use Rattle.inode_store.specs.Inodes.{inode_at, file_at, IsWhole};
ghost use Rattle.inode_store.specs.Keeps.{Keeps, Becomes};
ghost use Rattle.inode_store.specs.Written.{Rewrites};

use crate::inode::Inode;
use crate::store::InodeStore;
use outside::{Block, Medium, MediumErr};
use pointer_tree::{deepen_tree, get_block, put_block};

/// Puts bytes over those of a block from a place on.
fn overwrite(block: &mut Block, start: usize, part: &[u8])
    requires { start + length part.now ≤ 512 }
    ensures here { (r : ℕ) → start ≤ r → r < start + length part.now →
        slice_index block.new r ≡ slice_index part.now (r - start) }
    ensures there { (r : ℕ) → (r < start) ⊎ (start + length part.now ≤ r) →
        slice_index block.new r ≡ slice_index block.old r }
{
    block[start..start + part.len()].copy_from_slice(part);
}

impl<M: Medium> InodeStore<M> {
    /// Puts bytes from the front of a piece over those of a used inode or behind them, from a place that is not past
    /// their end up to the end of a block, and answers how many. It writes no block that does not change.
    pub fn write(&mut self, inode: u32, offset: u32, piece: &[u8]) -> Result<u32, MediumErr>
        requires kept { Keeps self.old.area self.old.inodes (M.content self.old.medium) (M.size self.old.medium)
            self.old.map }
        requires within { inode < self.old.inodes }
        requires used { IsSome (file_at self.old.area (M.content self.old.medium) inode) }
        requires inside { (f : File) → file_at self.old.area (M.content self.old.medium) inode ≡ Some f →
            offset ≤ length f.bytes }
        requires some { 1 ≤ length piece.now }
        requires end { offset < 512 * 128 ^ 3 }
        requires room { 7 ≤ free_count self.old.map }
        ensures count { IfOk result (λ n. n ≡ min (length piece.now) (512 - offset % 512)) }
        ensures file { IfOk result (λ n. Becomes self.new.area self.new.inodes (M.size self.new.medium) inode
            (option_map (with_bytes (overwritten offset (take n piece.now)))
            (file_at self.old.area (M.content self.old.medium) inode))
            (M.content self.old.medium) (M.content self.new.medium) self.new.map) }
        ensures room { OnOk result (free_count self.old.map ≤ free_count self.new.map + 7) }
        ensures area { self.new.area ≡ self.old.area }
        ensures inodes { self.new.inodes ≡ self.old.inodes }
        ensures size { M.size self.new.medium ≡ M.size self.old.medium }
        ensures cause { WriteHasCause (M.faults self.old.medium) (M.faults self.new.medium) result }
    {
        let x = self.used(inode)?;
        let count = piece.len().min(512 - (offset % 512) as usize);
        let y = self.write_part(x, offset, &piece[..count])?;
        self.put_changed(inode, x, y)?;
        Ok(count as u32)
    }

    /// Writes the block of an inode, if it is not as it was.
    pub(crate) fn put_changed(&mut self, inode: u32, x: Inode, y: Inode) -> Result<(), MediumErr>
        requires on_medium { 1 + inode < M.size self.old.medium }
        requires fits { 1 + inode < 2 ^ 32 }
        requires was { inode_at self.old.area (M.content self.old.medium) inode ≡ Some x }
        requires top { IsTop self.old.area y.top }
        ensures here { OnOk result (inode_at self.old.area (M.content self.new.medium) inode ≡ Some y) }
        ensures others { (q : ℕ) → q ≢ 1 + inode →
            M.content self.new.medium q ≡ M.content self.old.medium q }
        ensures map { self.new.map ≡ self.old.map }
        ensures area { self.new.area ≡ self.old.area }
        ensures inodes { self.new.inodes ≡ self.old.inodes }
        ensures size { M.size self.new.medium ≡ M.size self.old.medium }
        ensures cause { WriteHasCause (M.faults self.old.medium) (M.faults self.new.medium) result }
    {
        if x == y {
            return Ok(());
        }
        self.put(inode, &y.to_block())?;
        Ok(())
    }

    /// Puts a part of one block over the bytes of an inode or behind them, and answers what the inode is then.
    pub(crate) fn write_part(
        &mut self,
        x: Inode,
        offset: u32,
        part: &[u8],
    ) -> Result<Inode, MediumErr>
        requires fits { Fits self.old.area (M.size self.old.medium) self.old.map }
        requires stands { Stands self.old.area x.depth x.top (M.content self.old.medium) self.old.map }
        requires whole { IsWhole self.old.area (M.content self.old.medium) x }
        requires inside { offset ≤ x.size }
        requires some { 1 ≤ length part.now }
        requires within { offset % 512 + length part.now ≤ 512 }
        requires place { offset < 512 * 128 ^ 3 }
        requires room { 7 ≤ free_count self.old.map }
        ensures ok { IfOk result (λ y. Rewrites self.old.area x (overwritten offset part.now)
            (M.content self.old.medium) self.old.map y (M.content self.new.medium) self.new.map) }
        ensures end { IfOk result (λ y. y.size ≡ max x.size (offset + length part.now)) }
        ensures len { length self.new.map ≡ length self.old.map }
        ensures room { free_count self.old.map ≤ free_count self.new.map + 7 }
        ensures fits { OnOk result (Fits self.new.area (M.size self.new.medium) self.new.map) }
        ensures area { self.new.area ≡ self.old.area }
        ensures inodes { self.new.inodes ≡ self.old.inodes }
        ensures size { M.size self.new.medium ≡ M.size self.old.medium }
        ensures cause { WriteHasCause (M.faults self.old.medium) (M.faults self.new.medium) result }
    {
        let index = offset / 512;
        let medium = &mut self.medium;
        let map = &mut self.map;
        let (depth, top) = deepen_tree(medium, map, self.area, x.depth, x.top, index)?;
        let mut block = get_block(medium, self.area, depth, top, index)?;
        overwrite(&mut block, (offset % 512) as usize, part);
        let top = put_block(medium, map, self.area, depth, top, index, &block)?;
        let end = offset + part.len() as u32;
        Ok(Inode {
            size: x.size.max(end),
            depth,
            top,
            ..x
        })
    }
}
