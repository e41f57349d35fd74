//! Changes of more than one step.

ghost use Rattle.std.specs.Prelude.{◌≡◌, ◌≤◌, ◌+◌, Some, length, IfOk, IsSome, OnOk};
ghost use Rattle.std.specs.FinMap.{len};
ghost use Rattle.server_trait.specs.Calls.{Made};
ghost use Rattle.server_trait.specs.Step.{LacksName};
ghost use Rattle.server_trait.specs.Tree.{let_go, named, names_at, target, unnamed, used};
ghost use Rattle.log_tree.specs.Held.{handle_of, root_id};
ghost use Rattle.log_changes.specs.Kept.{IsKept, Changes, log_tree};
ghost use Rattle.log_changes.specs.Made.{HasText, IsBareDir, is_last, made_content};

use crate::tree::LogTree;
use log_index::NodeInfo;
use log_records::NodeId;
use nfs2_types::Kind;
use outside::{Medium, MediumErr};

/// Whether a node with a name has no other.
fn is_last(info: &NodeInfo) -> bool
    ensures { result ≡ is_last info.now }
{
    match info.kind {
        Kind::Dir => true,
        Kind::File | Kind::Link => info.links == 1,
    }
}

impl<M: Medium> LogTree<M> {
    /// Makes a node of mode, uid and gid 0 under a new name: a file without bytes, a directory without names, or a link
    /// with a text.
    pub fn make(
        &mut self,
        dir: &NodeId,
        name: &[u8],
        kind: Kind,
        text: &[u8],
    ) -> Result<NodeId, MediumErr>
        requires kept { IsKept M.content M.size self.old }
        requires short { length name.now ≤ 255 }
        requires new { LacksName (log_tree M.content M.size self.old) (handle_of dir.now) name.now }
        requires plain { HasText kind text.now }
        requires text { length text.now ≤ 1024 }
        requires nodes { len (log_tree M.content M.size self.old).nodes + 1 ≤ self.old.limits.nodes }
        requires room { used (log_tree M.content M.size self.old) + (512 + length text.now) ≤ self.old.limits.bytes }
        ensures made { let tree = log_tree M.content M.size in
            IfOk result (λ id. Made (tree self.old) (handle_of dir.now) name.now (made_content kind text.now)
            (handle_of id) (Some (tree self.new))) }
        ensures kept { OnOk result (IsKept M.content M.size self.new) }
        ensures changes { Changes M.size M.faults self.old self.new result }
    {
        let id = self.add_node(kind, text)?;
        self.add_name(dir, name, &id)?;
        Ok(id)
    }

    /// Takes out a name of a directory, and with its last name the node to which it leads, which is no directory with
    /// names.
    pub fn take_out(&mut self, dir: &NodeId, name: &[u8], child: &NodeId) -> Result<(), MediumErr>
        requires kept { IsKept M.content M.size self.old }
        requires short { length name.now ≤ 255 }
        requires leads { let tree = log_tree M.content M.size self.old in
            target tree (handle_of dir.now) name.now ≡ Some (handle_of child.now) }
        requires bare { IsBareDir (log_tree M.content M.size self.old) (handle_of child.now) }
        ensures removed { let tree = log_tree M.content M.size in
            OnOk result (tree self.new ≡ let_go (unnamed (tree self.old) (handle_of dir.now) name.now)
            (handle_of child.now)) }
        ensures kept { OnOk result (IsKept M.content M.size self.new) }
        ensures changes { Changes M.size M.faults self.old self.new result }
    {
        let Some(info) = self.index.get(child) else {
            unreachable!();
        };
        self.drop_name(dir, name, child)?;
        if !is_last(&info) {
            return Ok(());
        }
        self.drop_node(child)?;
        Ok(())
    }

    /// Moves a name of a directory to a new name of another.
    pub fn move_name(
        &mut self,
        from: &NodeId,
        name: &[u8],
        to: &NodeId,
        to_name: &[u8],
        child: &NodeId,
    ) -> Result<(), MediumErr>
        requires kept { IsKept M.content M.size self.old }
        requires short { length name.now ≤ 255 }
        requires to_short { length to_name.now ≤ 255 }
        requires leads { let tree = log_tree M.content M.size self.old in
            target tree (handle_of from.now) name.now ≡ Some (handle_of child.now) }
        requires new { LacksName (log_tree M.content M.size self.old) (handle_of to.now) to_name.now }
        ensures moved { let tree = log_tree M.content M.size in
            OnOk result (tree self.new ≡ named (unnamed (tree self.old) (handle_of from.now) name.now)
            (handle_of to.now) to_name.now (handle_of child.now)) }
        ensures kept { OnOk result (IsKept M.content M.size self.new) }
        ensures changes { Changes M.size M.faults self.old self.new result }
    {
        self.drop_name(from, name, child)?;
        self.add_name(to, to_name, child)?;
        Ok(())
    }
}
