//! A server begins over a medium, and gives it back.

ghost use Rattle.std.specs.Prelude.{◌≡◌, ◌^◌, ◌<◌, ◌≤◌, None, Some, IfOk, OnOk, OnErr};
ghost use Rattle.server_trait.specs.Tree.{Tree};
ghost use Rattle.server_trait.specs.Step.{Counts};
ghost use Rattle.inode_tree.specs.Planned.{blocks_for};
ghost use Rattle.inode_server.specs.Served.{Holds, handles_of, medium_of, tree_held};

use crate::answers::has_tree;
use crate::life::read_tree;
use crate::server::InodeServer;
use inode_tree::InodeTree;
use nfs2_types::NoMemory;
use outside::Medium;
use server_trait::{FileServer, ServerLimits, SrvErr};
use std::alloc::Global;

impl<M: Medium + Drop> InodeServer<M> {
    /// A server over a medium on which it makes no call. It has no tree until a `wipe` or a `mount` answers Ok.
    pub fn new(alloc: Global, medium: M, limits: ServerLimits) -> Result<InodeServer<M>, NoMemory>
        requires room { blocks_for limits ≤ M.size medium }
        requires small { M.size medium < 2 ^ 32 }
        requires limited { limits.bytes ≤ 1073741824 }
        // No call was made: of a medium that any call may have changed, nobody could say this.
        ensures medium { IfOk result (λ s. medium_of s ≡ medium) }
        ensures limits { IfOk result (λ s. (⟦<InodeServer<M> as FileServer>⟧.state s).limits ≡ limits) }
        ensures tree { IfOk result (λ s. (⟦<InodeServer<M> as FileServer>⟧.state s).tree ≡ None) }
        ensures faults { IfOk result (λ s. (⟦<InodeServer<M> as FileServer>⟧.state s).faults ≡ M.faults medium) }
    {
        let tree = InodeTree::new(alloc, medium, limits)?;
        Ok(InodeServer { tree, up: false })
    }

    /// Reads the tree that the medium holds, whatever the server had before. It changes nothing on the medium.
    pub fn mount(&mut self) -> Result<(), SrvErr>
        requires { Holds (⟦<InodeServer<M> as FileServer>⟧.state self.old).limits (M.content (medium_of self.old)) }
        ensures tree { OnOk result ((⟦<InodeServer<M> as FileServer>⟧.state self.new).tree ≡
            Some (tree_held (handles_of self.new) (⟦<InodeServer<M> as FileServer>⟧.state self.old).limits
            (M.content (medium_of self.old)))) }
        ensures none { OnErr result ((⟦<InodeServer<M> as FileServer>⟧.state self.new).tree ≡ None) }
        ensures medium { M.content (medium_of self.new) ≡ M.content (medium_of self.old) }
        ensures limits { (⟦<InodeServer<M> as FileServer>⟧.state self.new).limits ≡
            (⟦<InodeServer<M> as FileServer>⟧.state self.old).limits }
        ensures faults { Counts (⟦<InodeServer<M> as FileServer>⟧.state self.old).faults
            (⟦<InodeServer<M> as FileServer>⟧.state self.new).faults result }
    {
        let answer = read_tree(&mut self.tree);
        self.up = has_tree(&answer);
        answer
    }

    /// Its medium, to look at.
    pub fn medium(&self) -> &M
        ensures { result.now ≡ medium_of self.now }
    {
        &self.tree.store.medium
    }

    /// The medium as it is. Where the server had a tree, the medium holds it by its blocks alone.
    pub fn into_medium(self) -> M
        ensures medium { result ≡ medium_of self }
        ensures room { blocks_for (⟦<InodeServer<M> as FileServer>⟧.state self).limits ≤ M.size result }
        ensures small { M.size result < 2 ^ 32 }
        ensures limited { (⟦<InodeServer<M> as FileServer>⟧.state self).limits.bytes ≤ 1073741824 }
        ensures holds { (t : Tree) → (⟦<InodeServer<M> as FileServer>⟧.state self).tree ≡ Some t →
            Holds (⟦<InodeServer<M> as FileServer>⟧.state self).limits (M.content result) ×
            (t ≡ tree_held (handles_of self) (⟦<InodeServer<M> as FileServer>⟧.state self).limits (M.content result)) }
    {
        let InodeServer { tree, up: _ } = self;
        tree.into_medium()
    }
}
