//! An empty root.

ghost use Rattle.std.specs.Prelude.{◌≡◌, Some, OnOk};
ghost use Rattle.server_trait.specs.Calls.{IsFresh};
ghost use Rattle.log_held.specs.Room.{IsLarge};
ghost use Rattle.log_changes.specs.Kept.{IsKept, Changes, log_medium, log_tree};

use crate::tree::LogTree;
use log_index::{LogIndex, NodeInfo};
use log_records::NodeId;
use nfs2_types::Kind;
use outside::{Medium, MediumErr};

/// The id of the root.
pub const ROOT: NodeId = [0, 0, 0, 0, 0, 0, 0, 1];

impl<M: Medium> LogTree<M> {
    /// Makes an empty root, whatever the medium holds.
    pub fn wipe(&mut self) -> Result<(), MediumErr>
        requires large { IsLarge self.old.limits (M.size (log_medium self.old)) }
        ensures fresh { OnOk result (IsFresh (Some (log_tree M.content M.size self.new))) }
        ensures kept { OnOk result (IsKept M.content M.size self.new) }
        ensures changes { Changes M.size M.faults self.old self.new result }
    {
        self.store.clear()?;
        self.store.put_node(&ROOT, Kind::Dir, 0, 0, 0)?;
        let info = NodeInfo {
            kind: Kind::Dir,
            mode: 0,
            uid: 0,
            gid: 0,
            size: 0,
            links: 0,
            parent: ROOT,
        };
        self.index = LogIndex::new(self.alloc);
        self.index.add_node(&ROOT, info, 0)?;
        Ok(())
    }
}
