//! Nodes that come and go.

ghost use Rattle.std.specs.Prelude.{◌≡◌, ◌≢◌, ◌≤◌, ◌+◌, length, IfOk, IsSome, OnOk};
ghost use Rattle.std.specs.FinMap.{len};
ghost use Rattle.std.specs.Int.{from_be_bytes, w64};
ghost use Rattle.server_trait.specs.Calls.{IsNewNumber};
ghost use Rattle.server_trait.specs.Tree.{links, node_at, used, without_node};
ghost use Rattle.log_tree.specs.Held.{handle_of, root_id};
ghost use Rattle.log_index.specs.Memory.{Matches};
ghost use Rattle.log_changes.specs.Kept.{IsKept, IsKeptBut, Changes, log_tree};
ghost use Rattle.log_changes.specs.Made.{HasText, IsBareDir, NodeMade, bytes_kept};

use crate::text::put_text;
use crate::tree::LogTree;
use crate::wipe::ROOT;
use log_files::resize_bytes;
use log_index::NodeInfo;
use log_records::NodeId;
use nfs2_types::Kind;
use outside::{Medium, MediumErr};

/// The bytes of a file or of a link's text, or none.
fn bytes_kept(info: &NodeInfo) -> u32
    ensures { result ≡ bytes_kept info.now }
{
    match info.kind {
        Kind::Dir => 0,
        Kind::File | Kind::Link => info.size,
    }
}

impl<M: Medium> LogTree<M> {
    /// What is kept of a node.
    pub fn info(&self, id: &NodeId) -> Option<NodeInfo>
        requires { IsKept M.content M.size self.now }
        ensures { let tree = log_tree M.content M.size self.now in
            Matches tree (handle_of id.now) (node_at tree (handle_of id.now)) result }
    {
        self.index.get(id)
    }

    /// An id that no node has.
    fn fresh_id(&self) -> NodeId
        requires { IsKept M.content M.size self.now }
        ensures long { length result ≡ 8 }
        ensures absent { node_at (log_tree M.content M.size self.now) (handle_of result) ≡ None }
        ensures number { IsNewNumber (log_tree M.content M.size self.now) (from_be_bytes w64 result) }
    {
        self.index.next().to_be_bytes()
    }

    /// Puts a node of mode, uid and gid 0 to which no name leads: a file without bytes, a directory without names, or a
    /// link with a text.
    pub fn add_node(&mut self, kind: Kind, text: &[u8]) -> Result<NodeId, MediumErr>
        requires kept { IsKept M.content M.size self.old }
        requires plain { HasText kind text.now }
        requires text { length text.now ≤ 1024 }
        requires nodes { len (log_tree M.content M.size self.old).nodes + 1 ≤ self.old.limits.nodes }
        requires room { used (log_tree M.content M.size self.old) + length text.now ≤ self.old.limits.bytes }
        ensures made { let tree = log_tree M.content M.size in
            IfOk result (λ id. NodeMade kind text.now (tree self.old) id (tree self.new)) }
        ensures kept { IfOk result (λ id. IsKeptBut M.content M.size (handle_of id) self.new) }
        ensures changes { Changes M.size M.faults self.old self.new result }
    {
        let id = self.fresh_id();
        put_text(self.alloc, &mut self.store, &id, text)?;
        self.store.put_node(&id, kind, 0, 0, 0)?;
        let size = text.len() as u32;
        let info = NodeInfo {
            kind,
            mode: 0,
            uid: 0,
            gid: 0,
            size,
            links: 0,
            parent: ROOT,
        };
        self.index.add_node(&id, info, size)?;
        Ok(id)
    }

    /// Takes out a node without names, to which no name leads: first its bytes, the last ones first.
    pub fn drop_node(&mut self, id: &NodeId) -> Result<(), MediumErr>
        requires kept { IsKeptBut M.content M.size (handle_of id.now) self.old }
        requires there { IsSome (node_at (log_tree M.content M.size self.old) (handle_of id.now)) }
        requires unlinked { links (log_tree M.content M.size self.old) (handle_of id.now) ≡ 0 }
        requires bare { IsBareDir (log_tree M.content M.size self.old) (handle_of id.now) }
        requires apart { id.now ≢ root_id }
        ensures gone { let tree = log_tree M.content M.size in
            OnOk result (tree self.new ≡ without_node (tree self.old) (handle_of id.now)) }
        ensures kept { OnOk result (IsKept M.content M.size self.new) }
        ensures changes { Changes M.size M.faults self.old self.new result }
    {
        let Some(info) = self.index.get(id) else {
            unreachable!();
        };
        let bytes = bytes_kept(&info);
        resize_bytes(self.alloc, &mut self.store, id, bytes, 0)?;
        self.store.drop_node(id)?;
        self.index.drop_node(id, bytes);
        Ok(())
    }
}
