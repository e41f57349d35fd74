//! The server: a tree under handles that are others after each start.

ghost use Rattle.std.specs.Prelude.{◌≡◌, ◌≤◌, IfOk, OnOk};
ghost use Rattle.server_trait.specs.Calls.{IsFresh, Reboot};
ghost use Rattle.path_server.specs.Shown.{NoneStays, shown_at};

use crate::node::shown;
use crate::rows::show_rows;
use crate::tree::PathTree;
use nfs2_types::{Handle, NoMemory};
use server_trait::{FileServer, Listed, NodeAttr, ServerLimits, SrvErr};
use std::alloc::Global;

/// A server that keeps its tree in memory. Handles are serial numbers behind the number of starts. It never answers
/// Fault, and Full only where the tree would pass its limits.
#[derive(Drop)]
pub struct PathServer {
    tree: PathTree,
    starts: u64,
}

impl PathServer {
    /// A server with an empty root. Errors: NoMemory.
    pub fn new(alloc: Global, limits: ServerLimits) -> Result<PathServer, NoMemory>
        requires { limits.bytes ≤ 1073741824 }
        ensures fresh { IfOk result (λ s. IsFresh (⟦<PathServer as FileServer>⟧.state s).tree) }
        ensures limits { IfOk result (λ s. (⟦<PathServer as FileServer>⟧.state s).limits ≡ limits) }
        ensures faults { IfOk result (λ s. (⟦<PathServer as FileServer>⟧.state s).faults ≡ 0) }
    {
        let tree = PathTree::new(alloc, limits)?;
        Ok(PathServer { tree, starts: 0 })
    }

    /// The handle inside of one that is shown, and the other way.
    fn shown(&self, handle: &Handle) -> Handle
        ensures { result ≡ shown_at self.now.starts handle.now }
    {
        shown(self.starts, handle)
    }
}

impl FileServer for PathServer {
    ghost use Rattle.path_server.specs.Started.{shown_by};

    ghost state = { shown_by };

    fn limits(&self) -> ServerLimits {
        self.tree.limits()
    }

    fn root(&self) -> Handle {
        let root = self.tree.root();
        self.shown(&root)
    }

    fn attr(&mut self, node: &Handle) -> Result<NodeAttr, SrvErr> {
        let node = self.shown(node);
        self.tree.attr(&node)
    }

    fn set_attr(&mut self, node: &Handle, mode: u32, uid: u32, gid: u32) -> Result<(), SrvErr> {
        let node = self.shown(node);
        self.tree.set_attr(&node, mode, uid, gid)
    }

    fn read(&mut self, file: &Handle, offset: u32, count: u32) -> Result<Vec<u8>, SrvErr> {
        let file = self.shown(file);
        self.tree.read(&file, offset, count)
    }

    fn read_link(&mut self, link: &Handle) -> Result<Vec<u8>, SrvErr> {
        let link = self.shown(link);
        self.tree.read_link(&link)
    }

    fn write(&mut self, file: &Handle, offset: u32, piece: &[u8]) -> Result<u32, SrvErr> {
        let file = self.shown(file);
        self.tree.write(&file, offset, piece)
    }

    fn set_size(&mut self, file: &Handle, size: u32) -> Result<(), SrvErr> {
        let file = self.shown(file);
        self.tree.set_size(&file, size)
    }

    fn lookup(&mut self, dir: &Handle, name: &[u8]) -> Result<Handle, SrvErr> {
        let dir = self.shown(dir);
        match self.tree.lookup(&dir, name) {
            Ok(node) => Ok(self.shown(&node)),
            Err(e) => Err(e),
        }
    }

    fn list(&mut self, dir: &Handle) -> Result<Vec<Listed>, SrvErr> {
        let dir = self.shown(dir);
        match self.tree.list(&dir) {
            Ok(mut rows) => {
                show_rows(self.starts, &mut rows);
                Ok(rows)
            }
            Err(e) => Err(e),
        }
    }

    fn create(&mut self, dir: &Handle, name: &[u8]) -> Result<Handle, SrvErr> {
        let dir = self.shown(dir);
        match self.tree.create(&dir, name) {
            Ok(node) => Ok(self.shown(&node)),
            Err(e) => Err(e),
        }
    }

    fn mkdir(&mut self, dir: &Handle, name: &[u8]) -> Result<Handle, SrvErr> {
        let dir = self.shown(dir);
        match self.tree.mkdir(&dir, name) {
            Ok(node) => Ok(self.shown(&node)),
            Err(e) => Err(e),
        }
    }

    fn symlink(&mut self, dir: &Handle, name: &[u8], text: &[u8]) -> Result<Handle, SrvErr> {
        let dir = self.shown(dir);
        match self.tree.symlink(&dir, name, text) {
            Ok(node) => Ok(self.shown(&node)),
            Err(e) => Err(e),
        }
    }

    fn link(&mut self, node: &Handle, dir: &Handle, name: &[u8]) -> Result<(), SrvErr> {
        let node = self.shown(node);
        let dir = self.shown(dir);
        self.tree.link(&node, &dir, name)
    }

    fn remove(&mut self, dir: &Handle, name: &[u8]) -> Result<(), SrvErr> {
        let dir = self.shown(dir);
        self.tree.remove(&dir, name)
    }

    fn rmdir(&mut self, dir: &Handle, name: &[u8]) -> Result<(), SrvErr> {
        let dir = self.shown(dir);
        self.tree.rmdir(&dir, name)
    }

    fn rename(
        &mut self,
        from: &Handle,
        name: &[u8],
        to: &Handle,
        to_name: &[u8],
    ) -> Result<(), SrvErr> {
        let from = self.shown(from);
        let to = self.shown(to);
        self.tree.rename(&from, name, &to, to_name)
    }

    fn reboot(&mut self) -> Result<(), SrvErr>
        ensures rebooted { Reboot (shown_by self.old) result (shown_by self.new) }
        ensures stale { OnOk result (NoneStays (shown_by self.old).tree (shown_by self.new).tree) }
    {
        // A server never lasts until its starts are spent; then it would answer NoMemory.
        let Some(starts) = self.starts.checked_add(1) else {
            self.tree.give_up();
            return Err(SrvErr::NoMemory);
        };
        self.starts = starts;
        Ok(())
    }

    fn wipe(&mut self) -> Result<(), SrvErr> {
        self.tree.wipe()
    }
}
