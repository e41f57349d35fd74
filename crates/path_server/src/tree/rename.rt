//! A name that moves.

ghost use Rattle.std.specs.Prelude.{◌≡◌, ◌↔◌, ◌++◌, true, false, OnOk, OnErr, Ok, Some, None, IsSomeAnd, IsTrue};
ghost use Rattle.std.specs.FinMap.{get};
ghost use Rattle.nfs2_types.specs.Names.{is_name};
ghost use Rattle.nfs2_types.specs.declared.fattr.Kind.TheVariants.{Dir};
ghost use Rattle.path_store.specs.Stored.{IsAtOrBelow};
ghost use Rattle.server_trait.specs.Tree.{named, unnamed};
ghost use Rattle.server_trait.specs.Calls.{Rename};
ghost use Rattle.path_server.specs.Kept.{IsFoundDir, the_tree};
ghost use Rattle.path_server.specs.Movable.{CanMove};

use super::PathTree;
use crate::node::PathNode;
use nfs2_types::{Handle, Kind, NoMemory};
use server_trait::SrvErr;

impl PathTree {
    ghost use Rattle.path_server.specs.State.{kept_by, state_of};

    /// Whether what moves is a directory that is the other or has it below itself.
    fn moves_below(&self, moved: &Handle, kind: Kind, to: &Handle) -> bool
        requires held { self.now.held ≡ true }
        requires moved { IsSomeAnd (get (kept_by self.now).nodes moved.now) (λ p. p.kind ≡ kind) }
        requires to { IsSomeAnd (get (kept_by self.now).nodes to.now) (λ p. p.kind ≡ Dir) }
        ensures { IsTrue result ↔ ((kind ≡ Dir) × IsAtOrBelow (kept_by self.now).paths moved.now to.now) }
    {
        kind == Kind::Dir && self.names.is_below(moved, to)
    }

    /// Moves a name of one directory to a new name of another, or of the same. Without memory there is no tree.
    fn move_name(
        &mut self,
        from: &Handle,
        within: PathNode,
        name: &[u8],
        to: &Handle,
        to_name: &[u8],
        moved: &Handle,
        kind: Kind,
    ) -> Result<(), NoMemory>
        requires held { self.old.held ≡ true }
        requires from { IsFoundDir (kept_by self.old).nodes from.now (Ok within) }
        requires name { is_name name.now ≡ true }
        requires to_name { is_name to_name.now ≡ true }
        requires can { CanMove (kept_by self.old) from.now name.now to.now to_name.now moved.now kind }
        ensures ok { OnOk result ((state_of self.new).tree ≡ Some (named
            (unnamed (the_tree (kept_by self.old)) from.now name.now) to.now to_name.now moved.now)) }
        ensures err { OnErr result (self.new.held ≡ false) }
        ensures limits { self.new.limits ≡ self.old.limits }
    {
        self.held = false;
        self.names.rename(from, name, to, to_name, moved)?;
        self.nodes.set(from, within.without_name(kind));
        // The directory as it is by now: both may be one.
        let Some(into) = self.nodes.get(to) else {
            unreachable!();
        };
        self.nodes.set(to, into.with_name(kind));
        self.held = true;
        Ok(())
    }

    /// Moves a name to a new name, unless a directory would lie below itself. Errors: Subtree, NoMemory.
    pub(super) fn move_to(
        &mut self,
        from: &Handle,
        within: PathNode,
        name: &[u8],
        to: &Handle,
        to_name: &[u8],
        moved: &Handle,
    ) -> Result<(), SrvErr>
        requires held { self.old.held ≡ true }
        requires from { IsFoundDir (kept_by self.old).nodes from.now (Ok within) }
        requires to { IsSomeAnd (get (kept_by self.old).nodes to.now) (λ p. p.kind ≡ Dir) }
        requires name { is_name name.now ≡ true }
        requires to_name { is_name to_name.now ≡ true }
        requires leads { get (kept_by self.old).paths (from.now ++ name.now) ≡ Some moved.now }
        requires new_name { get (kept_by self.old).paths (to.now ++ to_name.now) ≡ None }
        ensures { Rename (state_of self.old) from.now name.now to.now to_name.now result (state_of self.new) }
    {
        let Some(node) = self.nodes.get(moved) else {
            unreachable!();
        };
        if self.moves_below(moved, node.kind, to) {
            return Err(SrvErr::Subtree);
        }
        match self.move_name(from, within, name, to, to_name, moved, node.kind) {
            Ok(()) => Ok(()),
            Err(_) => Err(SrvErr::NoMemory),
        }
    }
}
