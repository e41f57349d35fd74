//! Which directories lie below which.

ghost use Rattle.std.specs.Prelude.{IsSome, MatchBool};
ghost use Rattle.server_trait.specs.Step.{IsAtOrBelow};
ghost use Rattle.server_trait.specs.Tree.{names_at, node_at};
ghost use Rattle.log_tree.specs.Held.{handle_of};
ghost use Rattle.log_changes.specs.Kept.{IsKept, log_tree};

use log_changes::{LogTree, ROOT};
use log_records::NodeId;
use outside::Medium;

/// Whether a directory is another node or lies below it: a walk from it upward, to the root, or round a circle of
/// directories until it has made as many steps as there are nodes.
pub(crate) fn is_below<M: Medium>(tree: &LogTree<M>, top: &NodeId, start: &NodeId) -> bool
    requires kept { IsKept M.content M.size tree.now }
    requires top { IsSome (node_at (log_tree M.content M.size tree.now) (handle_of top.now)) }
    requires start { IsSome (names_at (log_tree M.content M.size tree.now) (handle_of start.now)) }
    ensures { let t = log_tree M.content M.size tree.now in
        let below = IsAtOrBelow t (handle_of top.now) (handle_of start.now) in
        MatchBool result below (¬ below) }
{
    let mut now = *start;
    for _step in 0..tree.index.count() {
        if now == *top {
            return true;
        }
        if now == ROOT {
            return false;
        }
        let Some(info) = tree.index.get(&now) else {
            unreachable!();
        };
        now = info.parent;
    }
    false
}
