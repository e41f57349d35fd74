//! The server.

ghost use Rattle.std.specs.Prelude.{◌≡◌, false};
ghost use Rattle.flaky_server.specs.Flaking.{flaking};

use crate::fail::{Fail, SrvCall};
use crate::plan::Plan;
use nfs2_types::Handle;
use server_trait::{FileServer, Listed, NodeAttr, ServerLimits, SrvErr};

/// A server over another that fails at chosen calls. A failed call does not reach the other server; from then on there
/// is no tree until a `wipe` answers Ok.
#[derive(Drop)]
pub struct Flaky<S> {
    inner: S,
    plan: Plan,
}

impl<S: FileServer> Flaky<S> {
    /// The server over this one, with its tree and its limits, which has not failed yet.
    pub fn new(inner: S, fails: Vec<Fail>) -> Self
        ensures { ⟦<Flaky<S> as FileServer>⟧.state result ≡ flaking (S.state inner) false 0 }
    {
        Flaky {
            inner,
            plan: Plan::new(fails),
        }
    }
}

impl<S: FileServer> FileServer for Flaky<S> {
    ghost state = { λ s. flaking (S.state s.inner) s.plan.down s.plan.faults };

    fn limits(&self) -> ServerLimits {
        self.inner.limits()
    }

    fn root(&self) -> Handle {
        self.inner.root()
    }

    fn attr(&mut self, node: &Handle) -> Result<NodeAttr, SrvErr> {
        self.plan.begin(SrvCall::Attr)?;
        let answer = self.inner.attr(node);
        self.plan.note(answer)
    }

    fn set_attr(&mut self, node: &Handle, mode: u32, uid: u32, gid: u32) -> Result<(), SrvErr> {
        self.plan.begin(SrvCall::SetAttr)?;
        let answer = self.inner.set_attr(node, mode, uid, gid);
        self.plan.note(answer)
    }

    fn read(&mut self, file: &Handle, offset: u32, count: u32) -> Result<Vec<u8>, SrvErr> {
        self.plan.begin(SrvCall::Read)?;
        let answer = self.inner.read(file, offset, count);
        self.plan.note(answer)
    }

    fn read_link(&mut self, link: &Handle) -> Result<Vec<u8>, SrvErr> {
        self.plan.begin(SrvCall::ReadLink)?;
        let answer = self.inner.read_link(link);
        self.plan.note(answer)
    }

    fn write(&mut self, file: &Handle, offset: u32, piece: &[u8]) -> Result<u32, SrvErr> {
        self.plan.begin(SrvCall::Write)?;
        let answer = self.inner.write(file, offset, piece);
        self.plan.note(answer)
    }

    fn set_size(&mut self, file: &Handle, size: u32) -> Result<(), SrvErr> {
        self.plan.begin(SrvCall::SetSize)?;
        let answer = self.inner.set_size(file, size);
        self.plan.note(answer)
    }

    fn lookup(&mut self, dir: &Handle, name: &[u8]) -> Result<Handle, SrvErr> {
        self.plan.begin(SrvCall::Lookup)?;
        let answer = self.inner.lookup(dir, name);
        self.plan.note(answer)
    }

    fn list(&mut self, dir: &Handle) -> Result<Vec<Listed>, SrvErr> {
        self.plan.begin(SrvCall::List)?;
        let answer = self.inner.list(dir);
        self.plan.note(answer)
    }

    fn create(&mut self, dir: &Handle, name: &[u8]) -> Result<Handle, SrvErr> {
        self.plan.begin(SrvCall::Create)?;
        let answer = self.inner.create(dir, name);
        self.plan.note(answer)
    }

    fn mkdir(&mut self, dir: &Handle, name: &[u8]) -> Result<Handle, SrvErr> {
        self.plan.begin(SrvCall::Mkdir)?;
        let answer = self.inner.mkdir(dir, name);
        self.plan.note(answer)
    }

    fn symlink(&mut self, dir: &Handle, name: &[u8], text: &[u8]) -> Result<Handle, SrvErr> {
        self.plan.begin(SrvCall::Symlink)?;
        let answer = self.inner.symlink(dir, name, text);
        self.plan.note(answer)
    }

    fn link(&mut self, node: &Handle, dir: &Handle, name: &[u8]) -> Result<(), SrvErr> {
        self.plan.begin(SrvCall::Link)?;
        let answer = self.inner.link(node, dir, name);
        self.plan.note(answer)
    }

    fn remove(&mut self, dir: &Handle, name: &[u8]) -> Result<(), SrvErr> {
        self.plan.begin(SrvCall::Remove)?;
        let answer = self.inner.remove(dir, name);
        self.plan.note(answer)
    }

    fn rmdir(&mut self, dir: &Handle, name: &[u8]) -> Result<(), SrvErr> {
        self.plan.begin(SrvCall::Rmdir)?;
        let answer = self.inner.rmdir(dir, name);
        self.plan.note(answer)
    }

    fn rename(
        &mut self,
        from: &Handle,
        name: &[u8],
        to: &Handle,
        to_name: &[u8],
    ) -> Result<(), SrvErr> {
        self.plan.begin(SrvCall::Rename)?;
        let answer = self.inner.rename(from, name, to, to_name);
        self.plan.note(answer)
    }

    fn reboot(&mut self) -> Result<(), SrvErr> {
        self.plan.begin(SrvCall::Reboot)?;
        let answer = self.inner.reboot();
        self.plan.note(answer)
    }

    fn wipe(&mut self) -> Result<(), SrvErr> {
        self.plan.begin(SrvCall::Wipe)?;
        self.plan.down = false;
        let answer = self.inner.wipe();
        self.plan.note(answer)
    }
}
