//! A tree that is made anew, or read again.

ghost use Rattle.std.specs.Prelude.{◌≡◌, Bool, IfErr, IsSome};
ghost use Rattle.server_trait.specs.Calls.{Reboot, Wipe};
ghost use Rattle.server_trait.specs.Step.{Counts, IsBroken};
ghost use Rattle.log_tree.specs.Held.{held};
ghost use Rattle.log_held.specs.Room.{IsLarge};
ghost use Rattle.log_changes.specs.Kept.{IsKept, log_medium};
ghost use Rattle.log_calls.specs.Answers.{stands};
ghost use Rattle.log_calls.specs.State.{Does, Stays, server_of};

use crate::answers::answered;
use log_changes::LogTree;
use log_mount::read_log;
use outside::Medium;
use server_trait::SrvErr;

/// Starts anew with what the medium holds. The handles stay.
pub fn reboot<M: Medium>(tree: &mut LogTree<M>) -> Result<(), SrvErr>
    requires { IsKept M.content M.size tree.old }
    ensures { Does M.content M.size M.faults (λ a. Reboot a) tree.old result tree.new }
{
    answered(read_log(tree))
}

/// Makes an empty root, whatever the medium holds.
pub fn wipe<M: Medium>(tree: &mut LogTree<M>) -> Result<(), SrvErr>
    requires { IsLarge tree.old.limits (M.size (log_medium tree.old)) }
    ensures wiped { let server = server_of M.content M.size M.faults in
        (up : Bool) → Wipe (server up tree.old) result (server (stands result) tree.new) }
    ensures stays { Stays M.content M.size M.faults (stands result) tree.old tree.new }
{
    answered(tree.wipe())
}

/// Reads the tree that the medium holds.
pub fn mount<M: Medium>(tree: &mut LogTree<M>) -> Result<(), SrvErr>
    requires held { let m = log_medium tree.old in IsSome (held (M.content m) (M.size m) tree.old.limits) }
    requires large { IsLarge tree.old.limits (M.size (log_medium tree.old)) }
    ensures content { M.content (log_medium tree.new) ≡ M.content (log_medium tree.old) }
    ensures stays { Stays M.content M.size M.faults (stands result) tree.old tree.new }
    ensures faults { Counts (M.faults (log_medium tree.old)) (M.faults (log_medium tree.new)) result }
    ensures err { IfErr result IsBroken }
{
    answered(read_log(tree))
}
