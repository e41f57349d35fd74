//! The server.

ghost use Rattle.std.specs.Prelude.{◌≡◌};

use nfs2_types::{Handle, Kind};
use server_trait::{FileServer, Listed, NodeAttr, ServerLimits, SrvErr};

/// A server over another: it takes one byte of each piece that is written, refuses to write past the end of a file, and
/// lists the names of a directory backwards.
#[derive(Drop)]
pub struct Reluctant<S> {
    inner: S,
}

impl<S: FileServer> Reluctant<S> {
    /// The server over this one, with its tree, its limits and its count of faults.
    pub fn new(inner: S) -> Self
        ensures { ⟦<Reluctant<S> as FileServer>⟧.state result ≡ S.state inner }
    {
        Reluctant { inner }
    }
}

impl<S: FileServer> FileServer for Reluctant<S> {
    ghost state = { λ s. S.state s.inner };

    fn limits(&self) -> ServerLimits {
        self.inner.limits()
    }

    fn root(&self) -> Handle {
        self.inner.root()
    }

    fn attr(&mut self, node: &Handle) -> Result<NodeAttr, SrvErr> {
        self.inner.attr(node)
    }

    fn set_attr(&mut self, node: &Handle, mode: u32, uid: u32, gid: u32) -> Result<(), SrvErr> {
        self.inner.set_attr(node, mode, uid, gid)
    }

    fn read(&mut self, file: &Handle, offset: u32, count: u32) -> Result<Vec<u8>, SrvErr> {
        self.inner.read(file, offset, count)
    }

    fn read_link(&mut self, link: &Handle) -> Result<Vec<u8>, SrvErr> {
        self.inner.read_link(link)
    }

    fn write(&mut self, file: &Handle, offset: u32, piece: &[u8]) -> Result<u32, SrvErr> {
        let attr = self.inner.attr(file)?;
        if attr.kind == Kind::File && offset > attr.size {
            return Err(SrvErr::Refused);
        }
        self.inner.write(file, offset, &piece[..1])
    }

    fn set_size(&mut self, file: &Handle, size: u32) -> Result<(), SrvErr> {
        self.inner.set_size(file, size)
    }

    fn lookup(&mut self, dir: &Handle, name: &[u8]) -> Result<Handle, SrvErr> {
        self.inner.lookup(dir, name)
    }

    fn list(&mut self, dir: &Handle) -> Result<Vec<Listed>, SrvErr> {
        let mut rows = self.inner.list(dir)?;
        rows.reverse();
        Ok(rows)
    }

    fn create(&mut self, dir: &Handle, name: &[u8]) -> Result<Handle, SrvErr> {
        self.inner.create(dir, name)
    }

    fn mkdir(&mut self, dir: &Handle, name: &[u8]) -> Result<Handle, SrvErr> {
        self.inner.mkdir(dir, name)
    }

    fn symlink(&mut self, dir: &Handle, name: &[u8], text: &[u8]) -> Result<Handle, SrvErr> {
        self.inner.symlink(dir, name, text)
    }

    fn link(&mut self, node: &Handle, dir: &Handle, name: &[u8]) -> Result<(), SrvErr> {
        self.inner.link(node, dir, name)
    }

    fn remove(&mut self, dir: &Handle, name: &[u8]) -> Result<(), SrvErr> {
        self.inner.remove(dir, name)
    }

    fn rmdir(&mut self, dir: &Handle, name: &[u8]) -> Result<(), SrvErr> {
        self.inner.rmdir(dir, name)
    }

    fn rename(
        &mut self,
        from: &Handle,
        name: &[u8],
        to: &Handle,
        to_name: &[u8],
    ) -> Result<(), SrvErr> {
        self.inner.rename(from, name, to, to_name)
    }

    fn reboot(&mut self) -> Result<(), SrvErr> {
        self.inner.reboot()
    }

    fn wipe(&mut self) -> Result<(), SrvErr> {
        self.inner.wipe()
    }
}
