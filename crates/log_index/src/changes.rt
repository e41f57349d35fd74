//! How the memory follows the tree.

ghost use Rattle.std.specs.Prelude.{◌≡◌, ◌+◌, ◌<◌, ◌≤◌, ◌^◌, IsSome, OnOk};
ghost use Rattle.std.specs.FinMap.{get};
ghost use Rattle.log_index.specs.Changes.{AddsNode, DropsNode, AddsName, DropsName, SetsNode, ResizesNode};

use crate::index::LogIndex;
use crate::info::NodeInfo;
use log_records::NodeId;
use nfs2_types::NoMemory;
use server_trait::NAME_BYTES;

impl LogIndex {
    ghost use Rattle.log_index.specs.Memory.{memory_of};

    /// A node is put, which uses so many bytes and has no names. Errors: NoMemory, also where a number would be too
    /// large.
    pub fn add_node(&mut self, id: &NodeId, info: NodeInfo, bytes: u32) -> Result<(), NoMemory>
        ensures { OnOk result (AddsNode (memory_of self.old) id.now info bytes (memory_of self.new)) }
    {
        let Some(used) = self.used.checked_add(u64::from(bytes)) else {
            return Err(NoMemory);
        };
        let Some(above) = u64::from_be_bytes(*id).checked_add(1) else {
            return Err(NoMemory);
        };
        let Some(count) = self.count.checked_add(1) else {
            return Err(NoMemory);
        };
        self.set(id, info)?;
        self.count = count;
        self.used = used;
        self.next = self.next.max(above);
        Ok(())
    }

    /// A node of so many bytes, to which no name leads and which has none, is gone.
    pub fn drop_node(&mut self, id: &NodeId, bytes: u32)
        ensures { DropsNode (memory_of self.old) id.now bytes (memory_of self.new) }
    {
        self.forget(id);
        self.count = self.count.saturating_sub(1);
        self.used = self.used.saturating_sub(u64::from(bytes));
    }

    /// A directory gets a name that leads to a node. Errors: NoMemory, also where a number would be too large.
    pub fn add_name(&mut self, dir: &NodeId, child: &NodeId) -> Result<(), NoMemory>
        requires dir { IsSome (get (memory_of self.old).nodes dir.now) }
        requires child { IsSome (get (memory_of self.old).nodes child.now) }
        ensures { OnOk result (AddsName (memory_of self.old) dir.now child.now (memory_of self.new)) }
    {
        let Some(used) = self.used.checked_add(NAME_BYTES) else {
            return Err(NoMemory);
        };
        let Some(info) = self.get(child) else {
            return Err(NoMemory);
        };
        let Some(led) = info.led(dir) else {
            return Err(NoMemory);
        };
        self.set(child, led)?;
        let Some(within) = self.get(dir) else {
            return Err(NoMemory);
        };
        let Some(wider) = within.with_name(info.kind) else {
            return Err(NoMemory);
        };
        self.set(dir, wider)?;
        self.used = used;
        Ok(())
    }

    /// A directory loses a name that led to a node. Errors: NoMemory.
    pub fn drop_name(&mut self, dir: &NodeId, child: &NodeId) -> Result<(), NoMemory>
        requires dir { IsSome (get (memory_of self.old).nodes dir.now) }
        requires child { IsSome (get (memory_of self.old).nodes child.now) }
        ensures { OnOk result (DropsName (memory_of self.old) dir.now child.now (memory_of self.new)) }
    {
        let Some(info) = self.get(child) else {
            return Err(NoMemory);
        };
        self.set(child, info.unled())?;
        let Some(within) = self.get(dir) else {
            return Err(NoMemory);
        };
        self.set(dir, within.without_name(info.kind))?;
        self.used = self.used.saturating_sub(NAME_BYTES);
        Ok(())
    }

    /// A node has other attributes. Errors: NoMemory.
    pub fn set_attr(&mut self, id: &NodeId, mode: u32, uid: u32, gid: u32) -> Result<(), NoMemory>
        requires { IsSome (get (memory_of self.old).nodes id.now) }
        ensures { OnOk result (SetsNode (memory_of self.old) id.now mode uid gid (memory_of self.new)) }
    {
        let Some(info) = self.get(id) else {
            return Err(NoMemory);
        };
        let changed = NodeInfo {
            mode,
            uid,
            gid,
            ..info
        };
        self.set(id, changed)?;
        Ok(())
    }

    /// A file has so many bytes now. Errors: NoMemory, also where a number would be too large.
    pub fn resize(&mut self, id: &NodeId, size: u32) -> Result<(), NoMemory>
        requires { IsSome (get (memory_of self.old).nodes id.now) }
        ensures { OnOk result (ResizesNode (memory_of self.old) id.now size (memory_of self.new)) }
    {
        let Some(info) = self.get(id) else {
            return Err(NoMemory);
        };
        let less = self.used.saturating_sub(u64::from(info.size));
        let Some(used) = less.checked_add(u64::from(size)) else {
            return Err(NoMemory);
        };
        self.set(id, NodeInfo { size, ..info })?;
        self.used = used;
        Ok(())
    }
}
