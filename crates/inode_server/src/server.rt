//! The server.

ghost use Rattle.std.specs.Prelude.{OnOk};
ghost use Rattle.server_trait.specs.Step.{HasTree};
ghost use Rattle.server_trait.specs.Calls.{Reboot};
ghost use Rattle.inode_server.specs.Ready.{IsReady};

use crate::answers::has_tree;
use crate::{asking, life, making, removing, renaming, writing};
use inode_tree::InodeTree;
use nfs2_types::{Handle, Kind};
use outside::Medium;
use server_trait::{FileServer, Listed, NodeAttr, ServerLimits, SrvErr};

/// A file server whose tree is on a medium of inodes.
#[derive(Drop)]
pub struct InodeServer<M: Medium> {
    pub(crate) tree: InodeTree<M>,
    pub(crate) up: bool,
    ghost ready: { ∥ IsReady M.content M.size up tree ∥₁ },
}

impl<M: Medium + Drop> FileServer for InodeServer<M> {
    ghost use Rattle.inode_server.specs.State.{NoneStays, server_of};

    ghost state = { λ s. server_of M.content M.faults s.up s.tree };

    fn limits(&self) -> ServerLimits {
        self.tree.limits
    }

    fn root(&self) -> Handle {
        self.tree.tables.handle(0)
    }

    fn attr(&mut self, node: &Handle) -> Result<NodeAttr, SrvErr> {
        let answer = asking::attr(&mut self.tree, node);
        self.up = has_tree(&answer);
        answer
    }

    fn set_attr(&mut self, node: &Handle, mode: u32, uid: u32, gid: u32) -> Result<(), SrvErr> {
        let answer = writing::set_attr(&mut self.tree, node, mode, uid, gid);
        self.up = has_tree(&answer);
        answer
    }

    fn read(&mut self, file: &Handle, offset: u32, count: u32) -> Result<Vec<u8>, SrvErr> {
        let answer = asking::read(&mut self.tree, file, offset, count);
        self.up = has_tree(&answer);
        answer
    }

    fn read_link(&mut self, link: &Handle) -> Result<Vec<u8>, SrvErr> {
        let answer = asking::read_link(&mut self.tree, link);
        self.up = has_tree(&answer);
        answer
    }

    fn write(&mut self, file: &Handle, offset: u32, piece: &[u8]) -> Result<u32, SrvErr> {
        let answer = writing::write(&mut self.tree, file, offset, piece);
        self.up = has_tree(&answer);
        answer
    }

    fn set_size(&mut self, file: &Handle, size: u32) -> Result<(), SrvErr> {
        let answer = writing::set_size(&mut self.tree, file, size);
        self.up = has_tree(&answer);
        answer
    }

    fn lookup(&mut self, dir: &Handle, name: &[u8]) -> Result<Handle, SrvErr> {
        let answer = asking::lookup(&mut self.tree, dir, name);
        self.up = has_tree(&answer);
        answer
    }

    fn list(&mut self, dir: &Handle) -> Result<Vec<Listed>, SrvErr> {
        let answer = asking::list(&mut self.tree, dir);
        self.up = has_tree(&answer);
        answer
    }

    fn create(&mut self, dir: &Handle, name: &[u8]) -> Result<Handle, SrvErr> {
        let answer = making::make(&mut self.tree, dir, name, Kind::File, b"");
        self.up = has_tree(&answer);
        answer
    }

    fn mkdir(&mut self, dir: &Handle, name: &[u8]) -> Result<Handle, SrvErr> {
        let answer = making::make(&mut self.tree, dir, name, Kind::Dir, b"");
        self.up = has_tree(&answer);
        answer
    }

    fn symlink(&mut self, dir: &Handle, name: &[u8], text: &[u8]) -> Result<Handle, SrvErr> {
        let answer = making::make(&mut self.tree, dir, name, Kind::Link, text);
        self.up = has_tree(&answer);
        answer
    }

    fn link(&mut self, node: &Handle, dir: &Handle, name: &[u8]) -> Result<(), SrvErr> {
        let answer = removing::link(&mut self.tree, node, dir, name);
        self.up = has_tree(&answer);
        answer
    }

    fn remove(&mut self, dir: &Handle, name: &[u8]) -> Result<(), SrvErr> {
        let answer = removing::remove(&mut self.tree, dir, name);
        self.up = has_tree(&answer);
        answer
    }

    fn rmdir(&mut self, dir: &Handle, name: &[u8]) -> Result<(), SrvErr> {
        let answer = removing::rmdir(&mut self.tree, dir, name);
        self.up = has_tree(&answer);
        answer
    }

    fn rename(
        &mut self,
        from: &Handle,
        name: &[u8],
        to: &Handle,
        to_name: &[u8],
    ) -> Result<(), SrvErr> {
        let answer = renaming::rename(&mut self.tree, from, name, to, to_name);
        self.up = has_tree(&answer);
        answer
    }

    fn reboot(&mut self) -> Result<(), SrvErr>
        requires { HasTree (server_of M.content M.faults self.old.up self.old.tree) }
        ensures rebooted { Reboot (server_of M.content M.faults self.old.up self.old.tree) result
            (server_of M.content M.faults self.new.up self.new.tree) }
        ensures stale { OnOk result (NoneStays (server_of M.content M.faults self.old.up self.old.tree).tree
            (server_of M.content M.faults self.new.up self.new.tree).tree) }
    {
        let answer = life::reboot(&mut self.tree);
        self.up = has_tree(&answer);
        answer
    }

    fn wipe(&mut self) -> Result<(), SrvErr> {
        let answer = life::wipe(&mut self.tree);
        self.up = has_tree(&answer);
        answer
    }
}
