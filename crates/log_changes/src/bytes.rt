//! The bytes of files.

ghost use Rattle.std.specs.Prelude.{◌≡◌, ◌≤◌, ◌+◌, ◌-◌, Some, length, max, take, drop, option_map, IfOk, OnOk, IsSome, IsSomeAnd};
ghost use Rattle.server_trait.specs.Calls.{Wrote};
ghost use Rattle.nfs2_types.specs.Bytes.{resized};
ghost use Rattle.server_trait.specs.Tree.{bytes_at, edited, text_at, used, with_bytes};
ghost use Rattle.log_tree.specs.Held.{handle_of};
ghost use Rattle.log_changes.specs.Kept.{IsKept, Changes, log_tree};

use crate::tree::LogTree;
use log_files::{read_bytes, resize_bytes, write_bytes};
use log_records::NodeId;
use outside::{Medium, MediumErr};

impl<M: Medium> LogTree<M> {
    /// The bytes of a file from an offset up to the count or the end.
    pub fn read(&mut self, id: &NodeId, offset: u32, count: u32) -> Result<Vec<u8>, MediumErr>
        requires kept { IsKept M.content M.size self.old }
        requires file { IsSome (bytes_at (log_tree M.content M.size self.old) (handle_of id.now)) }
        ensures bytes { let all = bytes_at (log_tree M.content M.size self.old) (handle_of id.now) in
            IfOk result (λ bytes. option_map (λ b. take count (drop offset b)) all ≡ Some bytes.items) }
        ensures tree { log_tree M.content M.size self.new ≡ log_tree M.content M.size self.old }
        ensures kept { IsKept M.content M.size self.new }
        ensures changes { Changes M.size M.faults self.old self.new result }
    {
        let Some(info) = self.index.get(id) else {
            unreachable!();
        };
        let bytes = read_bytes(self.alloc, &mut self.store, id, info.size, offset, count)?;
        Ok(bytes)
    }

    /// The text of a link.
    pub fn read_text(&mut self, id: &NodeId) -> Result<Vec<u8>, MediumErr>
        requires kept { IsKept M.content M.size self.old }
        requires link { IsSome (text_at (log_tree M.content M.size self.old) (handle_of id.now)) }
        ensures text { let text = text_at (log_tree M.content M.size self.old) (handle_of id.now) in
            IfOk result (λ bytes. text ≡ Some bytes.items) }
        ensures tree { log_tree M.content M.size self.new ≡ log_tree M.content M.size self.old }
        ensures kept { IsKept M.content M.size self.new }
        ensures changes { Changes M.size M.faults self.old self.new result }
    {
        let Some(info) = self.index.get(id) else {
            unreachable!();
        };
        let text = read_bytes(self.alloc, &mut self.store, id, info.size, 0, info.size)?;
        Ok(text)
    }

    /// Puts bytes from the front of a piece, at least one, at an offset of a file that lies among its bytes or at their
    /// end, and answers how many.
    pub fn write(&mut self, id: &NodeId, offset: u32, piece: &[u8]) -> Result<u32, MediumErr>
        requires kept { IsKept M.content M.size self.old }
        requires among { IsSomeAnd (bytes_at (log_tree M.content M.size self.old) (handle_of id.now))
            (λ b. offset ≤ length b) }
        requires some { 1 ≤ length piece.now }
        requires end { offset + length piece.now ≤ 8388608 }
        requires room { let tree = log_tree M.content M.size self.old in
            IsSomeAnd (bytes_at tree (handle_of id.now))
            (λ b. (used tree - length b) + max (length b) (offset + length piece.now) ≤ self.old.limits.bytes) }
        ensures wrote { let tree = log_tree M.content M.size in
            IfOk result (λ count. Wrote (tree self.old) (handle_of id.now) offset piece.now count
            (Some (tree self.new))) }
        ensures kept { OnOk result (IsKept M.content M.size self.new) }
        ensures changes { Changes M.size M.faults self.old self.new result }
    {
        let Some(info) = self.index.get(id) else {
            unreachable!();
        };
        let count = write_bytes(self.alloc, &mut self.store, id, info.size, offset, piece)?;
        let size = info.size.max(offset + count);
        self.index.resize(id, size)?;
        Ok(count)
    }

    /// Cuts a file, or fills it with zeros.
    pub fn set_size(&mut self, id: &NodeId, size: u32) -> Result<(), MediumErr>
        requires kept { IsKept M.content M.size self.old }
        requires end { size ≤ 8388608 }
        requires room { let tree = log_tree M.content M.size self.old in
            IsSomeAnd (bytes_at tree (handle_of id.now))
            (λ b. (used tree - length b) + size ≤ self.old.limits.bytes) }
        ensures sized { let tree = log_tree M.content M.size in
            OnOk result (tree self.new ≡ edited (tree self.old) (handle_of id.now) (with_bytes (resized size))) }
        ensures kept { OnOk result (IsKept M.content M.size self.new) }
        ensures changes { Changes M.size M.faults self.old self.new result }
    {
        let Some(info) = self.index.get(id) else {
            unreachable!();
        };
        resize_bytes(self.alloc, &mut self.store, id, info.size, size)?;
        self.index.resize(id, size)?;
        Ok(())
    }
}
