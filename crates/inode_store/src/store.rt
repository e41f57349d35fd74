//! The inodes of a medium.

ghost use Rattle.std.specs.Prelude.{◌≡◌, ◌≢◌, ℕ, ◌+◌, ◌^◌, ◌<◌, None, Some, IsSome, OnOk, IfOk, take, drop};
ghost use Rattle.std.specs.Option.{option_map};
ghost use Rattle.outside.specs.Causes.{WriteHasCause};
ghost use Rattle.inode_store.specs.Files.{new_file, with_attr};
ghost use Rattle.inode_store.specs.Inodes.{inode_at, file_at};
ghost use Rattle.inode_store.specs.Keeps.{Keeps, Becomes};

use crate::inode::Inode;
use block_alloc::BlockMap;
use nfs2_types::Kind;
use outside::{Block, Medium, MediumErr};
use pointer_tree::{Area, cut_tree, read_bytes};
use std::alloc::Global;

/// A medium with so many inodes, the blocks of which trees are made, and which of these are free. After an error of a
/// call nothing is known of the inodes.
#[derive(Drop)]
pub struct InodeStore<M> {
    pub medium: M,
    pub map: BlockMap,
    pub area: Area,
    pub inodes: u32,
}

impl<M: Medium> InodeStore<M> {
    /// An inode, if it is used, whatever else the medium holds. It reads one block.
    pub fn load(&mut self, inode: u32) -> Result<Option<Inode>, MediumErr>
        requires on_medium { 1 + inode < M.size self.old.medium }
        requires fits { 1 + inode < 2 ^ 32 }
        ensures inode { IfOk result (λ x. x ≡ inode_at self.old.area (M.content self.old.medium) inode) }
        ensures content { M.content self.new.medium ≡ M.content self.old.medium }
        ensures size { M.size self.new.medium ≡ M.size self.old.medium }
        ensures map { self.new.map ≡ self.old.map }
        ensures area { self.new.area ≡ self.old.area }
        ensures inodes { self.new.inodes ≡ self.old.inodes }
        ensures cause { WriteHasCause (M.faults self.old.medium) (M.faults self.new.medium) result }
    {
        let mut block = [0; 512];
        self.medium.read(1 + inode, &mut block)?;
        Ok(Inode::from_block(&block, self.area))
    }

    /// An inode, if it is used. It reads one block.
    pub fn get(&mut self, inode: u32) -> Result<Option<Inode>, MediumErr>
        requires kept { Keeps self.old.area self.old.inodes (M.content self.old.medium) (M.size self.old.medium)
            self.old.map }
        requires within { inode < self.old.inodes }
        ensures inode { IfOk result (λ x. x ≡ inode_at self.old.area (M.content self.old.medium) inode) }
        ensures content { M.content self.new.medium ≡ M.content self.old.medium }
        ensures size { M.size self.new.medium ≡ M.size self.old.medium }
        ensures map { self.new.map ≡ self.old.map }
        ensures area { self.new.area ≡ self.old.area }
        ensures inodes { self.new.inodes ≡ self.old.inodes }
        ensures cause { WriteHasCause (M.faults self.old.medium) (M.faults self.new.medium) result }
    {
        self.load(inode)
    }

    /// An inode that is used. It reads one block.
    pub fn used(&mut self, inode: u32) -> Result<Inode, MediumErr>
        requires kept { Keeps self.old.area self.old.inodes (M.content self.old.medium) (M.size self.old.medium)
            self.old.map }
        requires within { inode < self.old.inodes }
        requires used { IsSome (file_at self.old.area (M.content self.old.medium) inode) }
        ensures inode { IfOk result (λ x. inode_at self.old.area (M.content self.old.medium) inode ≡ Some x) }
        ensures content { M.content self.new.medium ≡ M.content self.old.medium }
        ensures size { M.size self.new.medium ≡ M.size self.old.medium }
        ensures map { self.new.map ≡ self.old.map }
        ensures area { self.new.area ≡ self.old.area }
        ensures inodes { self.new.inodes ≡ self.old.inodes }
        ensures cause { WriteHasCause (M.faults self.old.medium) (M.faults self.new.medium) result }
    {
        match self.get(inode)? {
            Some(x) => Ok(x),
            None => unreachable!(),
        }
    }

    /// The bytes of a used inode from a place on, up to a count or the end.
    pub fn read(
        &mut self,
        alloc: Global,
        inode: u32,
        from: u32,
        count: u32,
    ) -> Result<Vec<u8>, MediumErr>
        requires kept { Keeps self.old.area self.old.inodes (M.content self.old.medium) (M.size self.old.medium)
            self.old.map }
        requires within { inode < self.old.inodes }
        requires used { IsSome (file_at self.old.area (M.content self.old.medium) inode) }
        ensures bytes { IfOk result (λ v. option_map (λ f. take count (drop from f.bytes))
            (file_at self.old.area (M.content self.old.medium) inode) ≡ Some v.items) }
        ensures content { M.content self.new.medium ≡ M.content self.old.medium }
        ensures size { M.size self.new.medium ≡ M.size self.old.medium }
        ensures map { self.new.map ≡ self.old.map }
        ensures area { self.new.area ≡ self.old.area }
        ensures inodes { self.new.inodes ≡ self.old.inodes }
        ensures cause { WriteHasCause (M.faults self.old.medium) (M.faults self.new.medium) result }
    {
        let x = self.used(inode)?;
        let first = from.min(x.size);
        let end = first + count.min(x.size - first);
        let medium = &mut self.medium;
        let bytes = read_bytes(alloc, medium, self.area, x.depth, x.top, first, end)?;
        Ok(bytes)
    }

    /// Writes the block of an inode.
    pub(crate) fn put(&mut self, inode: u32, block: &Block) -> Result<(), MediumErr>
        requires on_medium { 1 + inode < M.size self.old.medium }
        requires fits { 1 + inode < 2 ^ 32 }
        ensures here { OnOk result (M.content self.new.medium (1 + inode) ≡ block.now) }
        ensures others { (q : ℕ) → q ≢ 1 + inode →
            M.content self.new.medium q ≡ M.content self.old.medium q }
        ensures size { M.size self.new.medium ≡ M.size self.old.medium }
        ensures map { self.new.map ≡ self.old.map }
        ensures area { self.new.area ≡ self.old.area }
        ensures inodes { self.new.inodes ≡ self.old.inodes }
        ensures cause { WriteHasCause (M.faults self.old.medium) (M.faults self.new.medium) result }
    {
        self.medium.write(1 + inode, block)
    }

    /// Sets the mode and the owners of a used inode.
    pub fn set_attr(&mut self, inode: u32, mode: u32, uid: u32, gid: u32) -> Result<(), MediumErr>
        requires kept { Keeps self.old.area self.old.inodes (M.content self.old.medium) (M.size self.old.medium)
            self.old.map }
        requires within { inode < self.old.inodes }
        requires used { IsSome (file_at self.old.area (M.content self.old.medium) inode) }
        ensures file { OnOk result (Becomes self.new.area self.new.inodes (M.size self.new.medium) inode
            (option_map (with_attr mode uid gid) (file_at self.old.area (M.content self.old.medium) inode))
            (M.content self.old.medium) (M.content self.new.medium) self.new.map) }
        ensures area { self.new.area ≡ self.old.area }
        ensures inodes { self.new.inodes ≡ self.old.inodes }
        ensures size { M.size self.new.medium ≡ M.size self.old.medium }
        ensures cause { WriteHasCause (M.faults self.old.medium) (M.faults self.new.medium) result }
    {
        let old = self.used(inode)?;
        let new = Inode {
            mode,
            uid,
            gid,
            ..old
        };
        self.put(inode, &new.to_block())?;
        Ok(())
    }

    /// Makes a free inode a file, a directory or a link without bytes.
    pub fn take(&mut self, inode: u32, kind: Kind) -> Result<(), MediumErr>
        requires kept { Keeps self.old.area self.old.inodes (M.content self.old.medium) (M.size self.old.medium)
            self.old.map }
        requires within { inode < self.old.inodes }
        requires free { file_at self.old.area (M.content self.old.medium) inode ≡ None }
        ensures file { OnOk result (Becomes self.new.area self.new.inodes (M.size self.new.medium) inode
            (Some (new_file kind))
            (M.content self.old.medium) (M.content self.new.medium) self.new.map) }
        ensures area { self.new.area ≡ self.old.area }
        ensures inodes { self.new.inodes ≡ self.old.inodes }
        ensures size { M.size self.new.medium ≡ M.size self.old.medium }
        ensures cause { WriteHasCause (M.faults self.old.medium) (M.faults self.new.medium) result }
    {
        let new = Inode {
            kind,
            mode: 0,
            uid: 0,
            gid: 0,
            size: 0,
            depth: 0,
            top: 0,
        };
        self.put(inode, &new.to_block())?;
        Ok(())
    }

    /// Gives back a used inode and the blocks of its bytes.
    pub fn give(&mut self, inode: u32) -> Result<(), MediumErr>
        requires kept { Keeps self.old.area self.old.inodes (M.content self.old.medium) (M.size self.old.medium)
            self.old.map }
        requires within { inode < self.old.inodes }
        requires used { IsSome (file_at self.old.area (M.content self.old.medium) inode) }
        ensures file { OnOk result (Becomes self.new.area self.new.inodes (M.size self.new.medium) inode
            None
            (M.content self.old.medium) (M.content self.new.medium) self.new.map) }
        ensures area { self.new.area ≡ self.old.area }
        ensures inodes { self.new.inodes ≡ self.old.inodes }
        ensures size { M.size self.new.medium ≡ M.size self.old.medium }
        ensures cause { WriteHasCause (M.faults self.old.medium) (M.faults self.new.medium) result }
    {
        let old = self.used(inode)?;
        let medium = &mut self.medium;
        let _ = cut_tree(medium, &mut self.map, self.area, old.depth, old.top, 0)?;
        self.put(inode, &[0; 512])?;
        Ok(())
    }
}
