//! Names that nodes get and lose.

ghost use Rattle.std.specs.Prelude.{◌≡◌, ◌≤◌, ◌+◌, ◌++◌, true, false, OnOk, OnErr, Ok, Some, None};
ghost use Rattle.std.specs.FinMap.{get, empty};
ghost use Rattle.nfs2_types.specs.Names.{is_name};
ghost use Rattle.nfs2_types.specs.declared.fattr.Kind.TheVariants.{Dir};
ghost use Rattle.server_trait.specs.Tree.{named, used_by};
ghost use Rattle.server_trait.specs.Calls.{Link, Remove, Removed, Rmdir};
ghost use Rattle.path_server.specs.Bytes.{bytes_under, content_of};
ghost use Rattle.path_server.specs.Kept.{IsFoundDir, IsFoundLeaf, the_tree};

use super::PathTree;
use crate::node::PathNode;
use nfs2_types::{Handle, Kind, NoMemory};
use server_trait::SrvErr;

impl PathTree {
    ghost use Rattle.path_server.specs.State.{kept_by, state_of};

    /// What is kept of a file or a link. Errors: Stale, WrongKind.
    pub(super) fn find_leaf(&self, node: &Handle) -> Result<PathNode, SrvErr>
        ensures { IsFoundLeaf (kept_by self.now).nodes node.now result }
    {
        match self.nodes.get(node) {
            Some(kept) if kept.kind == Kind::Dir => Err(SrvErr::WrongKind),
            Some(kept) => Ok(kept),
            None => Err(SrvErr::Stale),
        }
    }

    /// The bytes that a node without names uses.
    fn bytes_alone(&self, node: &Handle, kind: Kind) -> u64
        ensures { result ≡ used_by
            (content_of kind (bytes_under (kept_by self.now).contents node.now) empty) }
    {
        match kind {
            Kind::Dir => 0,
            Kind::File | Kind::Link => self.nodes.bytes(node).len() as u64,
        }
    }

    /// Makes a new name lead to a file or a link, where there is room. Without memory there is no tree.
    fn add_name(
        &mut self,
        node: &Handle,
        kept: PathNode,
        dir: &Handle,
        within: PathNode,
        name: &[u8],
    ) -> Result<(), NoMemory>
        requires held { self.old.held ≡ true }
        requires node { IsFoundLeaf (kept_by self.old).nodes node.now (Ok kept) }
        requires dir { IsFoundDir (kept_by self.old).nodes dir.now (Ok within) }
        requires name { is_name name.now ≡ true }
        requires new_name { get self.old.names.names (dir.now ++ name.now) ≡ None }
        requires room { self.old.bytes + 512 ≤ self.old.limits.bytes }
        ensures ok { OnOk result ((state_of self.new).tree
            ≡ Some (named (the_tree (kept_by self.old)) dir.now name.now node.now)) }
        ensures err { OnErr result (self.new.held ≡ false) }
        ensures limits { self.new.limits ≡ self.old.limits }
    {
        self.held = false;
        self.names.add(dir, name, node)?;
        self.nodes.set(dir, within.with_name(kept.kind));
        self.nodes.set(node, kept.linked());
        self.bytes += 512;
        self.held = true;
        Ok(())
    }

    /// Makes a new name lead to a file or a link. Errors: Full, NoMemory.
    pub(super) fn link_new(
        &mut self,
        node: &Handle,
        kept: PathNode,
        dir: &Handle,
        within: PathNode,
        name: &[u8],
    ) -> Result<(), SrvErr>
        requires held { self.old.held ≡ true }
        requires node { IsFoundLeaf (kept_by self.old).nodes node.now (Ok kept) }
        requires dir { IsFoundDir (kept_by self.old).nodes dir.now (Ok within) }
        requires name { is_name name.now ≡ true }
        requires new_name { get self.old.names.names (dir.now ++ name.now) ≡ None }
        ensures { Link (state_of self.old) node.now dir.now name.now result (state_of self.new) }
    {
        if self.bytes + 512 > self.limits.bytes {
            return Err(SrvErr::Full);
        }
        match self.add_name(node, kept, dir, within, name) {
            Ok(()) => Ok(()),
            Err(_) => Err(SrvErr::NoMemory),
        }
    }

    /// Takes out a name of a file or a link that has others. Without memory there is no tree.
    fn drop_name(
        &mut self,
        dir: &Handle,
        within: PathNode,
        name: &[u8],
        node: &Handle,
        kept: PathNode,
    ) -> Result<(), NoMemory>
        requires held { self.old.held ≡ true }
        requires dir { IsFoundDir (kept_by self.old).nodes dir.now (Ok within) }
        requires name { is_name name.now ≡ true }
        requires leads { get self.old.names.names (dir.now ++ name.now) ≡ Some node.now }
        requires node { IsFoundLeaf (kept_by self.old).nodes node.now (Ok kept) }
        requires more { 2 ≤ kept.links }
        ensures ok { OnOk result (Removed (the_tree (kept_by self.old)) dir.now name.now
            (state_of self.new).tree) }
        ensures err { OnErr result (self.new.held ≡ false) }
        ensures limits { self.new.limits ≡ self.old.limits }
    {
        self.held = false;
        self.names.remove(dir, name, node)?;
        self.nodes.set(dir, within.without_name(kept.kind));
        self.nodes.set(node, kept.unlinked());
        self.bytes -= 512;
        self.held = true;
        Ok(())
    }

    /// Takes out the last name of a node without names, and the node. Without memory there is no tree.
    fn drop_node(
        &mut self,
        dir: &Handle,
        within: PathNode,
        name: &[u8],
        node: &Handle,
        kept: PathNode,
    ) -> Result<(), NoMemory>
        requires held { self.old.held ≡ true }
        requires dir { IsFoundDir (kept_by self.old).nodes dir.now (Ok within) }
        requires name { is_name name.now ≡ true }
        requires leads { get self.old.names.names (dir.now ++ name.now) ≡ Some node.now }
        requires node { get (kept_by self.old).nodes node.now ≡ Some kept }
        requires last { kept.links ≤ 1 }
        requires bare { kept.kind ≡ Dir → kept.names ≡ 0 }
        ensures ok { OnOk result (Removed (the_tree (kept_by self.old)) dir.now name.now
            (state_of self.new).tree) }
        ensures err { OnErr result (self.new.held ≡ false) }
        ensures limits { self.new.limits ≡ self.old.limits }
    {
        self.held = false;
        let bytes = self.bytes_alone(node, kept.kind);
        self.names.remove(dir, name, node)?;
        self.nodes.set(dir, within.without_name(kept.kind));
        self.nodes.remove(node);
        self.bytes -= 512 + bytes;
        self.held = true;
        Ok(())
    }

    /// Takes out a name of a file or a link, which goes with its last name. Without memory there is no tree.
    fn drop_link(
        &mut self,
        dir: &Handle,
        within: PathNode,
        name: &[u8],
        node: &Handle,
        kept: PathNode,
    ) -> Result<(), NoMemory>
        requires held { self.old.held ≡ true }
        requires dir { IsFoundDir (kept_by self.old).nodes dir.now (Ok within) }
        requires name { is_name name.now ≡ true }
        requires leads { get self.old.names.names (dir.now ++ name.now) ≡ Some node.now }
        requires node { IsFoundLeaf (kept_by self.old).nodes node.now (Ok kept) }
        ensures ok { OnOk result (Removed (the_tree (kept_by self.old)) dir.now name.now
            (state_of self.new).tree) }
        ensures err { OnErr result (self.new.held ≡ false) }
        ensures limits { self.new.limits ≡ self.old.limits }
    {
        if kept.links > 1 {
            self.drop_name(dir, within, name, node, kept)
        } else {
            self.drop_node(dir, within, name, node, kept)
        }
    }

    /// Takes out a name that leads to a node. Errors: WrongKind for a directory, NoMemory.
    pub(super) fn remove_at(
        &mut self,
        dir: &Handle,
        within: PathNode,
        name: &[u8],
        node: &Handle,
    ) -> Result<(), SrvErr>
        requires held { self.old.held ≡ true }
        requires dir { IsFoundDir (kept_by self.old).nodes dir.now (Ok within) }
        requires name { is_name name.now ≡ true }
        requires leads { get self.old.names.names (dir.now ++ name.now) ≡ Some node.now }
        ensures { Remove (state_of self.old) dir.now name.now result (state_of self.new) }
    {
        let kept = self.find_leaf(node)?;
        match self.drop_link(dir, within, name, node, kept) {
            Ok(()) => Ok(()),
            Err(_) => Err(SrvErr::NoMemory),
        }
    }

    /// Takes out a name that leads to a node. Errors: NotDir where that is no directory, NotEmpty, NoMemory.
    pub(super) fn rmdir_at(
        &mut self,
        dir: &Handle,
        within: PathNode,
        name: &[u8],
        node: &Handle,
    ) -> Result<(), SrvErr>
        requires held { self.old.held ≡ true }
        requires dir { IsFoundDir (kept_by self.old).nodes dir.now (Ok within) }
        requires name { is_name name.now ≡ true }
        requires leads { get self.old.names.names (dir.now ++ name.now) ≡ Some node.now }
        ensures { Rmdir (state_of self.old) dir.now name.now result (state_of self.new) }
    {
        let kept = self.find_dir(node)?;
        if kept.names > 0 {
            return Err(SrvErr::NotEmpty);
        }
        match self.drop_node(dir, within, name, node, kept) {
            Ok(()) => Ok(()),
            Err(_) => Err(SrvErr::NoMemory),
        }
    }
}
