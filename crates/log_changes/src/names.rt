//! Names that come and go.

ghost use Rattle.std.specs.Prelude.{◌≡◌, ◌≤◌, ◌+◌, Some, length, option_map, IfOk, IsSome, OnOk};
ghost use Rattle.server_trait.specs.Step.{LacksName};
ghost use Rattle.server_trait.specs.Tree.{named, names_at, node_at, target, unnamed, used};
ghost use Rattle.log_tree.specs.Held.{handle_of};
ghost use Rattle.log_changes.specs.Kept.{IsKept, IsKeptBut, Changes, log_tree};
ghost use Rattle.log_changes.specs.Made.{IsFreeDir};

use crate::tree::LogTree;
use log_records::NodeId;
use outside::{Medium, MediumErr};

impl<M: Medium> LogTree<M> {
    /// The node to which a name of a directory leads.
    pub fn lookup(&mut self, dir: &NodeId, name: &[u8]) -> Result<Option<NodeId>, MediumErr>
        requires kept { IsKept M.content M.size self.old }
        requires dir { IsSome (names_at (log_tree M.content M.size self.old) (handle_of dir.now)) }
        requires short { length name.now ≤ 255 }
        ensures found { let tree = log_tree M.content M.size self.old in
            IfOk result (λ child. option_map handle_of child ≡ target tree (handle_of dir.now) name.now) }
        ensures tree { log_tree M.content M.size self.new ≡ log_tree M.content M.size self.old }
        ensures kept { IsKept M.content M.size self.new }
        ensures changes { Changes M.size M.faults self.old self.new result }
    {
        let child = self.store.lookup(dir, name)?;
        Ok(child)
    }

    /// Gives a directory a new name that leads to a node.
    pub fn add_name(&mut self, dir: &NodeId, name: &[u8], child: &NodeId) -> Result<(), MediumErr>
        requires kept { IsKeptBut M.content M.size (handle_of child.now) self.old }
        requires short { length name.now ≤ 255 }
        requires new { LacksName (log_tree M.content M.size self.old) (handle_of dir.now) name.now }
        requires there { IsSome (node_at (log_tree M.content M.size self.old) (handle_of child.now)) }
        requires free { IsFreeDir (log_tree M.content M.size self.old) child.now }
        requires room { used (log_tree M.content M.size self.old) + 512 ≤ self.old.limits.bytes }
        ensures named { let tree = log_tree M.content M.size in
            let leads = named (tree self.old) (handle_of dir.now) name.now (handle_of child.now) in
            OnOk result (tree self.new ≡ leads) }
        ensures kept { OnOk result (IsKept M.content M.size self.new) }
        ensures changes { Changes M.size M.faults self.old self.new result }
    {
        self.store.put_name(dir, name, child)?;
        self.index.add_name(dir, child)?;
        Ok(())
    }

    /// Takes out a name of a directory, which leads to a node.
    pub fn drop_name(&mut self, dir: &NodeId, name: &[u8], child: &NodeId) -> Result<(), MediumErr>
        requires kept { IsKept M.content M.size self.old }
        requires short { length name.now ≤ 255 }
        requires leads { let tree = log_tree M.content M.size self.old in
            target tree (handle_of dir.now) name.now ≡ Some (handle_of child.now) }
        ensures unnamed { let tree = log_tree M.content M.size in
            OnOk result (tree self.new ≡ unnamed (tree self.old) (handle_of dir.now) name.now) }
        ensures kept { OnOk result (IsKeptBut M.content M.size (handle_of child.now) self.new) }
        ensures changes { Changes M.size M.faults self.old self.new result }
    {
        self.store.drop_name(dir, name)?;
        self.index.drop_name(dir, child)?;
        Ok(())
    }
}
