//! Attributes.

ghost use Rattle.std.specs.Prelude.{◌≡◌, IsSome, OnOk};
ghost use Rattle.server_trait.specs.Tree.{edited, node_at, with_attr};
ghost use Rattle.log_tree.specs.Held.{handle_of};
ghost use Rattle.log_changes.specs.Kept.{IsKept, Changes, log_tree};

use crate::tree::LogTree;
use log_records::NodeId;
use outside::{Medium, MediumErr};

impl<M: Medium> LogTree<M> {
    /// Gives a node other attributes.
    pub fn set_attr(&mut self, id: &NodeId, mode: u32, uid: u32, gid: u32) -> Result<(), MediumErr>
        requires kept { IsKept M.content M.size self.old }
        requires there { IsSome (node_at (log_tree M.content M.size self.old) (handle_of id.now)) }
        ensures set { let tree = log_tree M.content M.size in
            OnOk result (tree self.new ≡ edited (tree self.old) (handle_of id.now) (with_attr mode uid gid)) }
        ensures kept { OnOk result (IsKept M.content M.size self.new) }
        ensures changes { Changes M.size M.faults self.old self.new result }
    {
        let Some(info) = self.index.get(id) else {
            unreachable!();
        };
        self.store.put_node(id, info.kind, mode, uid, gid)?;
        self.index.set_attr(id, mode, uid, gid)?;
        Ok(())
    }
}
