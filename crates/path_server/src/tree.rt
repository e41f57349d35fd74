//! The tree that a server holds.

ghost use Rattle.std.specs.Prelude.{◌≡◌, ◌≤◌, ◌+◌, ◌-◌, ◌++◌, ◌<◌, true, false, IfOk, OnOk, OnErr, Some, None, IsSomeAnd, length};
ghost use Rattle.std.proofs.Props.{props};
ghost use Rattle.std.specs.FinMap.{get, len, empty};
ghost use Rattle.nfs2_types.specs.Names.{is_name};
ghost use Rattle.nfs2_types.specs.declared.fattr.Kind.TheVariants.{File, Dir};
ghost use Rattle.server_trait.specs.Tree.{used_by, size_of, links_of, edited, with_bytes};
ghost use Rattle.server_trait.specs.Step.{HasTree};
ghost use Rattle.server_trait.specs.Calls.{IsFresh, Made, Make};
ghost use Rattle.path_server.specs.Bytes.{bytes_under, content_of, rewritten};
ghost use Rattle.path_server.specs.Kept.{IsFound, IsFoundDir, full_node, kept_as, the_tree};
ghost use Rattle.path_server.specs.Sound.{IsSound, IsStored, AddsNode};
ghost use Rattle.path_server.specs.Slots.{nodes_in, bytes_in};
ghost use Rattle.path_store.specs.Stored.{IsDir, IsUnnamed};
ghost use Rattle.path_store.specs.Tables.{HasRoom};

use crate::node::PathNode;
use crate::nodes::NodeSlab;
use nfs2_types::{Handle, Kind, NoMemory};
use path_store::PathStore;
use server_trait::{ServerLimits, SrvErr};
use std::alloc::Global;

mod calls;
mod names;
mod rename;

/// A tree in memory, under handles that are serial numbers. It never answers Fault, and Full only where the tree would
/// pass its limits.
#[derive(Drop)]
pub struct PathTree {
    alloc: Global,
    limits: ServerLimits,
    held: bool,
    root: Handle,
    next: u64,
    bytes: u64,
    nodes: NodeSlab,
    names: PathStore,
    ghost limited: { limits.bytes ≤ 1073741824 },
    ghost sound: { held ≡ true
        → IsSound limits next bytes
        (kept_as root (nodes_in nodes) (bytes_in nodes) names.names) } by { Prim.hlevel props },
    ghost stored: { held ≡ true
        → IsStored (nodes_in nodes) names } by { Prim.hlevel props },
}

impl PathTree {
    ghost use Rattle.path_server.specs.State.{kept_by, state_of};

    /// A server with an empty root. Errors: NoMemory.
    pub fn new(alloc: Global, limits: ServerLimits) -> Result<PathTree, NoMemory>
        requires { limits.bytes ≤ 1073741824 }
        ensures fresh { IfOk result (λ s. IsFresh (state_of s).tree) }
        ensures limits { IfOk result (λ s. (state_of s).limits ≡ limits) }
        ensures faults { IfOk result (λ s. (state_of s).faults ≡ 0) }
    {
        let root = [0; 32];
        let names = PathStore::new(alloc, &root)?;
        let mut tree = PathTree {
            alloc,
            limits,
            held: false,
            root,
            next: 0,
            bytes: 0,
            nodes: NodeSlab::new(alloc),
            names,
        };
        tree.start()?;
        Ok(tree)
    }

    /// Starts afresh with an empty root. Without memory there is no tree.
    fn start(&mut self) -> Result<(), NoMemory>
        ensures ok { OnOk result (IsFresh (state_of self.new).tree) }
        ensures err { OnErr result (self.new.held ≡ false) }
        ensures limits { self.new.limits ≡ self.old.limits }
    {
        self.held = false;
        // A server never lasts until its serial numbers are spent; then it would answer NoMemory.
        let Some(next) = self.next.checked_add(1) else {
            return Err(NoMemory);
        };
        self.nodes = NodeSlab::new(self.alloc);
        let root = PathNode::new(Kind::Dir, self.next, 0);
        self.root = self.nodes.insert(self.next, root, Vec::new(self.alloc))?;
        self.names = PathStore::new(self.alloc, &self.root)?;
        self.next = next;
        self.bytes = 0;
        self.held = true;
        Ok(())
    }

    /// What is kept of a node of this kind. Errors: Stale, WrongKind.
    fn find(&self, node: &Handle, kind: Kind) -> Result<PathNode, SrvErr>
        ensures { IsFound (kept_by self.now).nodes node.now kind result }
    {
        match self.nodes.get(node) {
            Some(kept) if kept.kind == kind => Ok(kept),
            Some(_) => Err(SrvErr::WrongKind),
            None => Err(SrvErr::Stale),
        }
    }

    /// What is kept of a directory. Errors: Stale, NotDir.
    fn find_dir(&self, dir: &Handle) -> Result<PathNode, SrvErr>
        ensures { IsFoundDir (kept_by self.now).nodes dir.now result }
    {
        match self.nodes.get(dir) {
            Some(kept) if kept.kind == Kind::Dir => Ok(kept),
            Some(_) => Err(SrvErr::NotDir),
            None => Err(SrvErr::Stale),
        }
    }

    /// Makes a node of a new name, where there is room. Without memory there is no tree.
    fn add_node(
        &mut self,
        dir: &Handle,
        kept: PathNode,
        name: &[u8],
        kind: Kind,
        bytes: &[u8],
    ) -> Result<Handle, NoMemory>
        requires held { self.old.held ≡ true }
        requires kept { get (kept_by self.old).nodes dir.now ≡ Some kept }
        requires is_dir { kept.kind ≡ Dir }
        requires name { is_name name.now ≡ true }
        requires new_name { get self.old.names.names (dir.now ++ name.now) ≡ None }
        requires nodes { len (kept_by self.old).nodes < self.old.limits.nodes }
        requires bytes { used_by (content_of kind bytes.now empty) ≡ length bytes.now }
        requires room { self.old.bytes + (512 + length bytes.now) ≤ self.old.limits.bytes }
        ensures ok { IfOk result (λ h. Made (the_tree (kept_by self.old)) dir.now name.now
            (content_of kind bytes.now empty) h (state_of self.new).tree) }
        ensures err { OnErr result (self.new.held ≡ false) }
        ensures limits { self.new.limits ≡ self.old.limits }
    {
        self.held = false;
        // A server never lasts until its serial numbers are spent; then it would answer NoMemory.
        let Some(next) = self.next.checked_add(1) else {
            return Err(NoMemory);
        };
        let copy = Vec::from_slice(self.alloc, bytes)?;
        let node = PathNode::new(kind, self.next, 1);
        let handle = self.nodes.insert(self.next, node, copy)?;
        add_new(&mut self.names, dir, name, &handle, kind)?;
        self.nodes.set(dir, kept.with_name(kind));
        self.next = next;
        self.bytes += 512 + bytes.len() as u64;
        self.held = true;
        Ok(handle)
    }

    /// Makes a node of a kind with these bytes. Errors: Stale, NotDir, Exists, Full, NoMemory.
    fn make(
        &mut self,
        dir: &Handle,
        name: &[u8],
        kind: Kind,
        bytes: &[u8],
    ) -> Result<Handle, SrvErr>
        requires tree { HasTree (state_of self.old) }
        requires name { is_name name.now ≡ true }
        requires bytes { used_by (content_of kind bytes.now empty) ≡ length bytes.now }
        requires few { length bytes.now ≤ 1024 }
        ensures { Make (content_of kind bytes.now empty) (length bytes.now)
            (state_of self.old) dir.now name.now result (state_of self.new) }
    {
        let kept = self.find_dir(dir)?;
        match self.names.get(dir, name) {
            Ok(None) => self.make_new(dir, kept, name, kind, bytes),
            Ok(Some(_)) => Err(SrvErr::Exists),
            Err(_) => {
                self.held = false;
                Err(SrvErr::NoMemory)
            }
        }
    }

    /// Makes a node of a new name, of a kind with these bytes. Errors: Full, NoMemory.
    fn make_new(
        &mut self,
        dir: &Handle,
        kept: PathNode,
        name: &[u8],
        kind: Kind,
        bytes: &[u8],
    ) -> Result<Handle, SrvErr>
        requires held { self.old.held ≡ true }
        requires kept { get (kept_by self.old).nodes dir.now ≡ Some kept }
        requires is_dir { kept.kind ≡ Dir }
        requires name { is_name name.now ≡ true }
        requires new_name { get self.old.names.names (dir.now ++ name.now) ≡ None }
        requires bytes { used_by (content_of kind bytes.now empty) ≡ length bytes.now }
        requires few { length bytes.now ≤ 1024 }
        ensures { Make (content_of kind bytes.now empty) (length bytes.now)
            (state_of self.old) dir.now name.now result (state_of self.new) }
    {
        let more = 512 + bytes.len() as u64;
        if self.nodes.len() >= self.limits.nodes as usize || self.bytes + more > self.limits.bytes {
            return Err(SrvErr::Full);
        }
        match self.add_node(dir, kept, name, kind, bytes) {
            Ok(handle) => Ok(handle),
            Err(_) => Err(SrvErr::NoMemory),
        }
    }

    /// Gives a file another size and puts a piece at an offset, where there is room. Without memory there is no tree.
    fn change(
        &mut self,
        file: &Handle,
        size: usize,
        offset: usize,
        piece: &[u8],
    ) -> Result<(), NoMemory>
        requires held { self.old.held ≡ true }
        requires file { IsSomeAnd (get (kept_by self.old).nodes file.now) (λ p. p.kind ≡ File) }
        requires end { offset + length piece.now ≤ size }
        requires room { (self.old.bytes - length (bytes_under (kept_by self.old).contents file.now)) + size
            ≤ self.old.limits.bytes }
        ensures ok { OnOk result ((state_of self.new).tree
            ≡ Some (edited (the_tree (kept_by self.old)) file.now (with_bytes (rewritten size offset piece.now)))) }
        ensures err { OnErr result (self.new.held ≡ false) }
        ensures limits { self.new.limits ≡ self.old.limits }
    {
        self.held = false;
        let len = self.nodes.bytes(file).len();
        self.nodes.rewrite(file, size, offset, piece)?;
        self.bytes = self.bytes - len as u64 + size as u64;
        self.held = true;
        Ok(())
    }

    /// The size and the links of a node.
    fn size_and_links(&self, node: &Handle, kept: PathNode) -> (u32, u32)
        requires held { self.now.held ≡ true }
        requires kept { get (kept_by self.now).nodes node.now ≡ Some kept }
        ensures size { result.0 ≡ size_of
            (full_node (kept_by self.now).contents self.now.names.names node.now kept).content }
        ensures links { result.1 ≡ links_of (the_tree (kept_by self.now)) node.now
            (full_node (kept_by self.now).contents self.now.names.names node.now kept).content }
    {
        match kept.kind {
            Kind::Dir => (kept.names, kept.subdirs),
            Kind::File | Kind::Link => (self.nodes.bytes(node).len() as u32, kept.links),
        }
    }
}

/// Makes a new name of a directory lead to a new node of a kind.
fn add_new(
    names: &mut PathStore,
    dir: &Handle,
    name: &[u8],
    to: &Handle,
    kind: Kind,
) -> Result<(), NoMemory>
    requires whole { names.old.whole ≡ true }
    requires dir { IsDir names.old dir.now }
    requires name { is_name name.now ≡ true }
    requires new_name { get names.old.names (dir.now ++ name.now) ≡ None }
    requires no_dir { get names.old.dirs to.now ≡ None }
    requires unnamed { IsUnnamed names.old to.now }
    requires room { HasRoom names.old.dirs to.now }
    ensures added { OnOk result (AddsNode kind names.old dir.now name.now to.now names.new) }
{
    match kind {
        Kind::Dir => names.add_dir(dir, name, to),
        Kind::File | Kind::Link => names.add(dir, name, to),
    }
}
