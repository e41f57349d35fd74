//! What has room within the limits.

ghost use Rattle.std.specs.Prelude.{◌+◌, ◌-◌, ◌≤◌, ◌<◌, MatchBool};
ghost use Rattle.std.specs.FinMap.{len};
ghost use Rattle.server_trait.specs.Tree.{used};
ghost use Rattle.log_changes.specs.Kept.{IsKept, log_tree};

use log_changes::LogTree;
use outside::Medium;

/// Whether bytes have room in the place of others.
pub(crate) fn has_bytes<M: Medium>(tree: &LogTree<M>, less: u64, more: u64) -> bool
    requires { IsKept M.content M.size tree.now }
    ensures { let t = log_tree M.content M.size tree.now in
        MatchBool result ((used t - less) + more ≤ tree.now.limits.bytes)
        (tree.now.limits.bytes < (used t - less) + more) }
{
    let used = tree.index.used().saturating_sub(less);
    more <= tree.limits.bytes.saturating_sub(used)
}

/// Whether one node more has room.
pub(crate) fn has_node<M: Medium>(tree: &LogTree<M>) -> bool
    requires { IsKept M.content M.size tree.now }
    ensures { let t = log_tree M.content M.size tree.now in
        MatchBool result (len t.nodes + 1 ≤ tree.now.limits.nodes) (tree.now.limits.nodes < len t.nodes + 1) }
{
    tree.index.count() < u64::from(tree.limits.nodes)
}
