//! Nodes.

ghost use Rattle.std.specs.Prelude.{◌≡◌, IfOk, OnOk};
ghost use Rattle.server_trait.specs.Tree.{without_node};
ghost use Rattle.log_records.specs.declared.node.NodeRecord.{NodeRecord};
ghost use Rattle.log_tree.specs.Held.{handle_of};
ghost use Rattle.log_records.specs.Layout as layout;
ghost use Rattle.log_records.specs.Layout.{node_in};
ghost use Rattle.log_store.specs.Store.{IsStore, HasRoom, KeepsOthers, NodeIs, Puts, Drops, PutsNode, Reads, Writes, live_in, tree_in};

use crate::store::LogStore;
use log_records::{NodeId, NodeRecord, gone_record, node_key, node_record, read_node};
use nfs2_types::Kind;
use outside::{Medium, MediumErr};

impl<M: Medium> LogStore<M> {
    /// What is kept of a node.
    pub fn node(&mut self, id: &NodeId) -> Result<Option<NodeRecord>, MediumErr>
        requires { IsStore M.content M.size self.old }
        ensures found { IfOk result (NodeIs (live_in M.content M.size self.old) id.now) }
        ensures reads { Reads M.content M.size M.faults self.old self.new result }
    {
        let key = node_key(self.alloc, id)?;
        match self.find(&key)? {
            Some(block) => Ok(Some(read_node(&block))),
            None => Ok(None),
        }
    }

    /// Keeps this of a node. What it contains stays.
    pub fn put_node(
        &mut self,
        id: &NodeId,
        kind: Kind,
        mode: u32,
        uid: u32,
        gid: u32,
    ) -> Result<(), MediumErr>
        requires store { IsStore M.content M.size self.old }
        requires room { HasRoom M.content M.size self.old }
        ensures puts { let node : NodeRecord = record { kind = kind; mode = mode; uid = uid; gid = gid } in
            let live = live_in M.content M.size in
            OnOk result (PutsNode (live self.old) id.now node (live self.new)) }
        ensures here { let node : NodeRecord = record { kind = kind; mode = mode; uid = uid; gid = gid } in
            let live = live_in M.content M.size in
            OnOk result (Puts node_in (live self.old) (layout.node_key id.now) node (live self.new)) }
        ensures others { let live = live_in M.content M.size in
            OnOk result (KeepsOthers (live self.old) (layout.node_key id.now) (live self.new)) }
        ensures writes { Writes M.content M.size M.faults self.old self.new result }
    {
        let node = NodeRecord {
            kind,
            mode,
            uid,
            gid,
        };
        self.put(&node_record(id, &node))?;
        Ok(())
    }

    /// Keeps a node no longer.
    pub fn drop_node(&mut self, id: &NodeId) -> Result<(), MediumErr>
        requires store { IsStore M.content M.size self.old }
        requires room { HasRoom M.content M.size self.old }
        ensures gone { let tree = tree_in M.content M.size in
            OnOk result (tree self.new ≡ without_node (tree self.old) (handle_of id.now)) }
        ensures none { let live = live_in M.content M.size in
            OnOk result (Drops (live self.old) (layout.node_key id.now) (live self.new)) }
        ensures others { let live = live_in M.content M.size in
            OnOk result (KeepsOthers (live self.old) (layout.node_key id.now) (live self.new)) }
        ensures writes { Writes M.content M.size M.faults self.old self.new result }
    {
        let key = node_key(self.alloc, id)?;
        self.put(&gone_record(&key))?;
        Ok(())
    }
}
