//! A server begins over a medium, and gives it back.

ghost use Rattle.std.specs.Prelude.{◌≡◌, false, None, IsSome, OnErr, OnOk};
ghost use Rattle.server_trait.specs.Step.{Counts};
ghost use Rattle.log_held.specs.Room.{IsLarge};
ghost use Rattle.log_server.specs.Served.{held_on, state_of};

use crate::server::LogServer;
use log_calls::{has_tree, mount};
use log_changes::LogTree;
use outside::Medium;
use server_trait::{ServerLimits, SrvErr};
use std::alloc::Global;

impl<M: Medium + Drop> LogServer<M> {
    /// A server over a medium on which it makes no call. It takes no memory, and has no tree until a `wipe` or a
    /// `mount` answers Ok.
    pub fn new(alloc: Global, medium: M, limits: ServerLimits) -> LogServer<M>
        requires { IsLarge limits (M.size medium) }
        ensures { result ≡ record { up = false; limits = limits; medium = medium } }
    {
        LogServer {
            tree: LogTree::new(alloc, medium, limits),
            up: false,
        }
    }

    /// Reads the tree that the medium holds, whatever the server had before. Errors: none but Fault and NoMemory.
    pub fn mount(&mut self) -> Result<(), SrvErr>
        requires { IsSome (held_on M.content M.size self.old) }
        ensures tree { OnOk result ((state_of M.content M.size M.faults self.new).tree ≡
            held_on M.content M.size self.old) }
        ensures none { OnErr result ((state_of M.content M.size M.faults self.new).tree ≡ None) }
        ensures content { M.content self.new.medium ≡ M.content self.old.medium }
        ensures size { M.size self.new.medium ≡ M.size self.old.medium }
        ensures limits { self.new.limits ≡ self.old.limits }
        ensures faults { Counts (M.faults self.old.medium) (M.faults self.new.medium) result }
    {
        let answer = mount(&mut self.tree);
        self.up = has_tree(&answer);
        answer
    }

    /// The medium as it is. Where the server had a tree, the medium holds it.
    pub fn into_medium(self) -> M
        ensures medium { result ≡ self.medium }
        ensures large { IsLarge self.limits (M.size result) }
    {
        let LogServer { tree, up: _ } = self;
        tree.into_medium()
    }
}
