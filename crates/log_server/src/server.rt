//! The server.

ghost use Rattle.std.specs.Prelude.{◌≡◌};

use log_calls::{handle_of, has_tree};
use log_changes::{LogTree, ROOT};
use nfs2_types::{Handle, Kind};
use outside::Medium;
use server_trait::{FileServer, Listed, NodeAttr, ServerLimits, SrvErr};
use std::marker::Model;

/// A file server whose tree is on a medium with a log.
#[derive(Drop)]
pub struct LogServer<M: Medium> {
    pub(crate) tree: LogTree<M>,
    pub(crate) up: bool,
}

impl<M: Medium> Model for LogServer<M> {
    ghost use Rattle.log_changes.specs.Kept.{log_medium};
    ghost use Rattle.log_server.specs.Ready.{IsReady};
    ghost use Rattle.log_server.specs.Served.{Served};

    ghost Value = { Served M };

    ghost view = { λ s. record { up = s.up; limits = s.tree.limits; medium = log_medium s.tree } };

    ghost invariant = { λ s. IsReady M.content M.size s.up s.tree };
}

impl<M: Medium + Drop> FileServer for LogServer<M> {
    ghost use Rattle.log_server.specs.Served.{state_of};

    ghost state = { state_of M.content M.size M.faults };

    fn limits(&self) -> ServerLimits {
        self.tree.limits
    }

    fn root(&self) -> Handle {
        handle_of(&ROOT)
    }

    fn attr(&mut self, node: &Handle) -> Result<NodeAttr, SrvErr> {
        let answer = log_calls::attr(&mut self.tree, node);
        self.up = has_tree(&answer);
        answer
    }

    fn set_attr(&mut self, node: &Handle, mode: u32, uid: u32, gid: u32) -> Result<(), SrvErr> {
        let answer = log_calls::set_attr(&mut self.tree, node, mode, uid, gid);
        self.up = has_tree(&answer);
        answer
    }

    fn read(&mut self, file: &Handle, offset: u32, count: u32) -> Result<Vec<u8>, SrvErr> {
        let answer = log_calls::read(&mut self.tree, file, offset, count);
        self.up = has_tree(&answer);
        answer
    }

    fn read_link(&mut self, link: &Handle) -> Result<Vec<u8>, SrvErr> {
        let answer = log_calls::read_link(&mut self.tree, link);
        self.up = has_tree(&answer);
        answer
    }

    fn write(&mut self, file: &Handle, offset: u32, piece: &[u8]) -> Result<u32, SrvErr> {
        let answer = log_calls::write(&mut self.tree, file, offset, piece);
        self.up = has_tree(&answer);
        answer
    }

    fn set_size(&mut self, file: &Handle, size: u32) -> Result<(), SrvErr> {
        let answer = log_calls::set_size(&mut self.tree, file, size);
        self.up = has_tree(&answer);
        answer
    }

    fn lookup(&mut self, dir: &Handle, name: &[u8]) -> Result<Handle, SrvErr> {
        let answer = log_calls::lookup(&mut self.tree, dir, name);
        self.up = has_tree(&answer);
        answer
    }

    fn list(&mut self, dir: &Handle) -> Result<Vec<Listed>, SrvErr> {
        let answer = log_calls::list(&mut self.tree, dir);
        self.up = has_tree(&answer);
        answer
    }

    fn create(&mut self, dir: &Handle, name: &[u8]) -> Result<Handle, SrvErr> {
        let answer = log_calls::make(&mut self.tree, dir, name, Kind::File, b"");
        self.up = has_tree(&answer);
        answer
    }

    fn mkdir(&mut self, dir: &Handle, name: &[u8]) -> Result<Handle, SrvErr> {
        let answer = log_calls::make(&mut self.tree, dir, name, Kind::Dir, b"");
        self.up = has_tree(&answer);
        answer
    }

    fn symlink(&mut self, dir: &Handle, name: &[u8], text: &[u8]) -> Result<Handle, SrvErr> {
        let answer = log_calls::make(&mut self.tree, dir, name, Kind::Link, text);
        self.up = has_tree(&answer);
        answer
    }

    fn link(&mut self, node: &Handle, dir: &Handle, name: &[u8]) -> Result<(), SrvErr> {
        let answer = log_calls::link(&mut self.tree, node, dir, name);
        self.up = has_tree(&answer);
        answer
    }

    fn remove(&mut self, dir: &Handle, name: &[u8]) -> Result<(), SrvErr> {
        let answer = log_calls::remove(&mut self.tree, dir, name);
        self.up = has_tree(&answer);
        answer
    }

    fn rmdir(&mut self, dir: &Handle, name: &[u8]) -> Result<(), SrvErr> {
        let answer = log_calls::rmdir(&mut self.tree, dir, name);
        self.up = has_tree(&answer);
        answer
    }

    fn rename(
        &mut self,
        from: &Handle,
        name: &[u8],
        to: &Handle,
        to_name: &[u8],
    ) -> Result<(), SrvErr> {
        let answer = log_calls::rename(&mut self.tree, from, name, to, to_name);
        self.up = has_tree(&answer);
        answer
    }

    fn reboot(&mut self) -> Result<(), SrvErr> {
        let answer = log_calls::reboot(&mut self.tree);
        self.up = has_tree(&answer);
        answer
    }

    fn wipe(&mut self) -> Result<(), SrvErr> {
        let answer = log_calls::wipe(&mut self.tree);
        self.up = has_tree(&answer);
        answer
    }
}
