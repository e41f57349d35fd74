//! The memory.

ghost use Rattle.std.specs.Prelude.{◌≡◌, OnOk};
ghost use Rattle.std.specs.FinMap.{get, insert, remove};

use crate::info::NodeInfo;
use log_records::NodeId;
use nfs2_types::NoMemory;
use std::alloc::Global;
use std::collections::BTreeMap;

/// What is kept of each node, the bytes in use, and the number that the next node may have.
#[derive(Drop)]
pub struct LogIndex {
    pub(crate) nodes: BTreeMap<NodeId, NodeInfo>,
    pub(crate) count: u64,
    pub(crate) used: u64,
    pub(crate) next: u64,
}

impl LogIndex {
    ghost use Rattle.log_index.specs.Memory.{memory_of, none_kept};

    /// Nothing is kept. It takes no memory.
    pub fn new(alloc: Global) -> LogIndex
        ensures { memory_of result ≡ none_kept }
    {
        LogIndex {
            nodes: BTreeMap::new(alloc),
            count: 0,
            used: 0,
            next: 0,
        }
    }

    /// What is kept of a node.
    pub fn get(&self, id: &NodeId) -> Option<NodeInfo>
        ensures { result ≡ get (memory_of self.now).nodes id.now }
    {
        self.nodes.get(id).copied()
    }

    /// How many nodes there are.
    pub fn count(&self) -> u64
        ensures { result ≡ (memory_of self.now).count }
    {
        self.count
    }

    /// The bytes in use: those of files and links, and `NAME_BYTES` for each name.
    pub fn used(&self) -> u64
        ensures { result ≡ (memory_of self.now).used }
    {
        self.used
    }

    /// A number that is above those of all nodes.
    pub fn next(&self) -> u64
        ensures { result ≡ (memory_of self.now).next }
    {
        self.next
    }

    /// Keeps this of a node.
    pub(crate) fn set(&mut self, id: &NodeId, info: NodeInfo) -> Result<(), NoMemory>
        ensures nodes { OnOk result ((memory_of self.new).nodes ≡ insert (memory_of self.old).nodes id.now info) }
        ensures count { self.new.count ≡ self.old.count }
        ensures used { self.new.used ≡ self.old.used }
        ensures next { self.new.next ≡ self.old.next }
    {
        self.nodes.insert(*id, info)?;
        Ok(())
    }

    /// Keeps a node no longer.
    pub(crate) fn forget(&mut self, id: &NodeId)
        ensures nodes { (memory_of self.new).nodes ≡ remove (memory_of self.old).nodes id.now }
        ensures count { self.new.count ≡ self.old.count }
        ensures used { self.new.used ≡ self.old.used }
        ensures next { self.new.next ≡ self.old.next }
    {
        self.nodes.remove(id);
    }
}
