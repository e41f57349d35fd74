//! The nodes, in a slab.

ghost use Rattle.std.specs.Prelude.{◌≡◌, ◌+◌, ◌≤◌, IfOk, OnOk, IsSome, option_copied, length};
ghost use Rattle.std.specs.FinMap.{get, insert, remove, empty, len};
ghost use Rattle.path_server.specs.Bytes.{bytes_under, rewritten};
ghost use Rattle.path_store.specs.Tables.{ArePlaced};
ghost use Rattle.std.proofs.Props.{props};
ghost use Rattle.path_server.specs.declared.nodes.NodeSlot.{NodeSlot};

use crate::contents::rewrite;
use crate::node::{PathNode, handle_of};
use nfs2_types::{Handle, NoMemory};
use path_store::place_of;
use slab::Slab;
use std::alloc::Global;

/// A node with its handle, and the bytes of a file or the text of a link.
#[derive(Drop)]
pub struct NodeSlot {
    handle: Handle,
    node: PathNode,
    bytes: Vec<u8>,
}

/// The nodes, each at the place that its handle carries. A handle that was given before has another serial number than
/// the node that is there.
#[derive(Drop)]
pub struct NodeSlab {
    slots: Slab<NodeSlot>,
    ghost placed: { ArePlaced (λ (s : NodeSlot). s.handle) slots.slots } by { Prim.hlevel props },
}

impl NodeSlab {
    ghost use Rattle.path_server.specs.Slots.{nodes_in, bytes_in, slots_in, Comes};

    /// No nodes. It takes no memory.
    pub fn new(alloc: Global) -> NodeSlab
        ensures nodes { nodes_in result ≡ empty }
        ensures bytes { bytes_in result ≡ empty }
    {
        NodeSlab {
            slots: Slab::new(alloc),
        }
    }

    /// How many nodes there are.
    pub fn len(&self) -> usize
        ensures { result ≡ len (nodes_in self.now) }
    {
        self.slots.len()
    }

    /// The slot of a handle.
    fn slot(&self, node: &Handle) -> Option<&NodeSlot>
        ensures { option_copied result ≡ get (slots_in self.now) node.now }
    {
        let Some(slot) = self.slots.get(place_of(node)) else {
            return None;
        };
        if slot.handle != *node {
            return None;
        }
        Some(slot)
    }

    /// What is kept of a node.
    pub fn get(&self, node: &Handle) -> Option<PathNode>
        ensures { result ≡ get (nodes_in self.now) node.now }
    {
        match self.slot(node) {
            Some(slot) => Some(slot.node),
            None => None,
        }
    }

    /// The bytes of a file or the text of a link.
    pub fn bytes(&self, node: &Handle) -> &[u8]
        ensures { result.now ≡ bytes_under (bytes_in self.now) node.now }
    {
        match self.slot(node) {
            Some(slot) => slot.bytes.as_slice(),
            None => &[],
        }
    }

    /// Puts a node in, and gives its handle, which has this serial number. Errors: NoMemory.
    pub fn insert(
        &mut self,
        serial: u64,
        node: PathNode,
        bytes: Vec<u8>,
    ) -> Result<Handle, NoMemory>
        ensures { IfOk result (λ h. Comes self.old serial node bytes.items h self.new) }
    {
        let handle = handle_of(serial, self.slots.vacant_key());
        let slot = NodeSlot {
            handle,
            node,
            bytes,
        };
        let Ok(_) = self.slots.insert(slot) else {
            return Err(NoMemory);
        };
        Ok(handle)
    }

    /// Keeps something else of a node.
    pub fn set(&mut self, handle: &Handle, node: PathNode)
        requires { IsSome (get (nodes_in self.old) handle.now) }
        ensures nodes { nodes_in self.new ≡ insert (nodes_in self.old) handle.now node }
        ensures bytes { bytes_in self.new ≡ bytes_in self.old }
    {
        let Some(slot) = self.slots.get_mut(place_of(handle)) else {
            unreachable!();
        };
        slot.node = node;
    }

    /// Gives the bytes of a node another size, and puts a piece at an offset. Errors: NoMemory.
    pub fn rewrite(
        &mut self,
        handle: &Handle,
        size: usize,
        offset: usize,
        piece: &[u8],
    ) -> Result<(), NoMemory>
        requires there { IsSome (get (nodes_in self.old) handle.now) }
        requires end { offset + length piece.now ≤ size }
        ensures nodes { OnOk result (nodes_in self.new ≡ nodes_in self.old) }
        ensures bytes { OnOk result (bytes_in self.new ≡ insert (bytes_in self.old) handle.now
            (rewritten size offset piece.now (bytes_under (bytes_in self.old) handle.now))) }
    {
        let Some(slot) = self.slots.get_mut(place_of(handle)) else {
            unreachable!();
        };
        rewrite(&mut slot.bytes, size, offset, piece)?;
        Ok(())
    }

    /// Takes a node out, with its bytes.
    pub fn remove(&mut self, handle: &Handle)
        requires { IsSome (get (nodes_in self.old) handle.now) }
        ensures nodes { nodes_in self.new ≡ remove (nodes_in self.old) handle.now }
        ensures bytes { bytes_in self.new ≡ remove (bytes_in self.old) handle.now }
    {
        let _ = self.slots.try_remove(place_of(handle));
    }
}
