//! A medium is made to hold an empty root.

ghost use Rattle.std.specs.Prelude.{◌≡◌, ◌≢◌, ℕ, ◌+◌, ◌^◌, ◌<◌, ◌≤◌, None, Some, true, false, length, OnOk, IfOk};
ghost use Rattle.block_alloc.specs.Free.{is_free};
ghost use Rattle.nfs2_types.specs.declared.fattr.Kind.TheVariants.{Dir};
ghost use Rattle.outside.specs.Causes.{WriteHasCause};
ghost use Rattle.inode_store.specs.Files.{new_file};
ghost use Rattle.inode_store.specs.Inodes.{inode_at, file_at};
ghost use Rattle.inode_store.specs.Keeps.{Keeps};

use crate::inode::Inode;
use crate::store::InodeStore;
use block_alloc::BlockMap;
use nfs2_types::{Kind, NoMemory};
use outside::{Block, Medium, MediumErr};
use pointer_tree::Area;
use std::alloc::Global;

/// The map of an area of which all blocks are free.
pub fn free_area(alloc: Global, area: Area) -> Result<BlockMap, NoMemory>
    requires { area.first ≤ area.end }
    ensures size { IfOk result (λ map. length map ≡ area.end) }
    ensures low { IfOk result (λ map. (b : ℕ) → b < area.first → is_free map b ≡ false) }
    ensures all { IfOk result (λ map. (b : ℕ) → area.first ≤ b → b < area.end → is_free map b ≡ true) }
{
    let mut map = BlockMap::new(alloc, area.end)?;
    for block in 0..area.first {
        map.claim(block);
    }
    Ok(map)
}

impl<M: Medium> InodeStore<M> {
    /// Writes block 0, and makes inode 0 a directory without names and every other inode free, whatever the medium
    /// held.
    pub fn format(&mut self, alloc: Global, name: &Block) -> Result<(), MediumErr>
        requires root { 1 ≤ self.old.inodes }
        requires first { self.old.area.first ≡ 1 + self.old.inodes }
        requires ordered { self.old.area.first ≤ self.old.area.end }
        requires on_medium { self.old.area.end ≤ M.size self.old.medium }
        requires small { M.size self.old.medium < 2 ^ 32 }
        ensures kept { OnOk result (Keeps self.new.area self.new.inodes (M.content self.new.medium)
            (M.size self.new.medium) self.new.map) }
        ensures root { OnOk result (file_at self.new.area (M.content self.new.medium) 0 ≡ Some (new_file Dir)) }
        ensures others { OnOk result ((i : ℕ) → 1 ≤ i → i < self.new.inodes →
            file_at self.new.area (M.content self.new.medium) i ≡ None) }
        ensures name { OnOk result (M.content self.new.medium 0 ≡ name.now) }
        ensures area { self.new.area ≡ self.old.area }
        ensures inodes { self.new.inodes ≡ self.old.inodes }
        ensures size { M.size self.new.medium ≡ M.size self.old.medium }
        ensures cause { WriteHasCause (M.faults self.old.medium) (M.faults self.new.medium) result }
    {
        self.map = free_area(alloc, self.area)?;
        self.clear()?;
        let root = Inode {
            kind: Kind::Dir,
            mode: 0,
            uid: 0,
            gid: 0,
            size: 0,
            depth: 0,
            top: 0,
        };
        self.put(0, &root.to_block())?;
        self.medium.write(0, name)?;
        Ok(())
    }

    /// Makes every inode but the first free.
    fn clear(&mut self) -> Result<(), MediumErr>
        requires on_medium { 1 + self.old.inodes ≤ M.size self.old.medium }
        requires small { M.size self.old.medium < 2 ^ 32 }
        ensures free { OnOk result ((i : ℕ) → 1 ≤ i → i < self.old.inodes →
            inode_at self.old.area (M.content self.new.medium) i ≡ None) }
        ensures map { self.new.map ≡ self.old.map }
        ensures area { self.new.area ≡ self.old.area }
        ensures inodes { self.new.inodes ≡ self.old.inodes }
        ensures size { M.size self.new.medium ≡ M.size self.old.medium }
        ensures cause { WriteHasCause (M.faults self.old.medium) (M.faults self.new.medium) result }
    {
        for inode in 1..self.inodes {
            self.put(inode, &[0; 512])?;
        }
        Ok(())
    }
}
