//! Reading.

ghost use Rattle.std.specs.Prelude.{◌≡◌, Some, IsSome, OnOk};
ghost use Rattle.log_tree.specs.Held.{held};
ghost use Rattle.log_held.specs.Room.{IsLarge};
ghost use Rattle.log_changes.specs.Kept.{IsKept, Changes, log_medium, log_tree};

use crate::names::tell_names;
use crate::nodes::tell_nodes;
use log_changes::LogTree;
use log_index::LogIndex;
use outside::{Medium, MediumErr};

/// Reads what the medium holds: the log, and the memory beside it. The handles stay.
pub fn read_log<M: Medium>(tree: &mut LogTree<M>) -> Result<(), MediumErr>
    requires held { IsSome (held (M.content (log_medium tree.old)) (M.size (log_medium tree.old)) tree.old.limits) }
    requires large { IsLarge tree.old.limits (M.size (log_medium tree.old)) }
    ensures kept { OnOk result (IsKept M.content M.size tree.new) }
    ensures tree { let m = log_medium tree.new in
        OnOk result (held (M.content m) (M.size m) tree.new.limits ≡ Some (log_tree M.content M.size tree.new)) }
    ensures content { M.content (log_medium tree.new) ≡ M.content (log_medium tree.old) }
    ensures changes { Changes M.size M.faults tree.old tree.new result }
{
    tree.store.replay()?;
    tree.index = LogIndex::new(tree.alloc);
    tell_nodes(&mut tree.store, &mut tree.index)?;
    tell_names(&mut tree.store, &mut tree.index)?;
    Ok(())
}
