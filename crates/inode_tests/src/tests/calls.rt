//! Calls on a server that has a tree, which has one still where they answer Ok.

ghost use Rattle.std.specs.Prelude.{◌≡◌, true, OnOk};
ghost use Rattle.nfs2_types.specs.Names.{is_name};
ghost use Rattle.server_trait.specs.Step.{HasTree};

use nfs2_types::{Handle, NoMemory, is_bad, is_dot};
use server_trait::{FileServer, NodeAttr, SrvErr};
use std::alloc::{AllocError, AllocFailed};

/// Why a test ends early.
#[derive(Debug, Drop)]
pub enum Fail {
    Server(SrvErr),
    NoMemory,
    Unfit,
}

impl From<SrvErr> for Fail {
    fn from(error: SrvErr) -> Fail {
        Fail::Server(error)
    }
}

impl From<NoMemory> for Fail {
    fn from(_: NoMemory) -> Fail {
        Fail::NoMemory
    }
}

impl From<AllocError> for Fail {
    fn from(_: AllocError) -> Fail {
        Fail::NoMemory
    }
}

impl<T: Drop> From<AllocFailed<T>> for Fail {
    fn from(_: AllocFailed<T>) -> Fail {
        Fail::NoMemory
    }
}

/// Whether a name is one that a server takes.
fn fits(name: &[u8]) -> Result<(), Fail>
    ensures { OnOk result (is_name name.now ≡ true) }
{
    if is_bad(name) || is_dot(name) || name.len() > 255 {
        return Err(Fail::Unfit);
    }
    Ok(())
}

/// Makes a directory.
pub fn mkdir<S: FileServer>(server: &mut S, dir: &Handle, name: &[u8]) -> Result<Handle, Fail>
    requires { HasTree (S.state server.old) }
    ensures { OnOk result (HasTree (S.state server.new)) }
{
    fits(name)?;
    let made = server.mkdir(dir, name)?;
    Ok(made)
}

/// Makes a file.
pub fn create<S: FileServer>(server: &mut S, dir: &Handle, name: &[u8]) -> Result<Handle, Fail>
    requires { HasTree (S.state server.old) }
    ensures { OnOk result (HasTree (S.state server.new)) }
{
    fits(name)?;
    let made = server.create(dir, name)?;
    Ok(made)
}

/// Makes a link with a text.
pub fn symlink<S: FileServer>(
    server: &mut S,
    dir: &Handle,
    name: &[u8],
    text: &[u8],
) -> Result<Handle, Fail>
    requires { HasTree (S.state server.old) }
    ensures { OnOk result (HasTree (S.state server.new)) }
{
    fits(name)?;
    if text.len() > 1024 {
        return Err(Fail::Unfit);
    }
    let made = server.symlink(dir, name, text)?;
    Ok(made)
}

/// Gives a node one name more.
pub fn link<S: FileServer>(
    server: &mut S,
    node: &Handle,
    dir: &Handle,
    name: &[u8],
) -> Result<(), Fail>
    requires { HasTree (S.state server.old) }
    ensures { OnOk result (HasTree (S.state server.new)) }
{
    fits(name)?;
    server.link(node, dir, name)?;
    Ok(())
}

/// Takes a name out.
pub fn remove<S: FileServer>(server: &mut S, dir: &Handle, name: &[u8]) -> Result<(), Fail>
    requires { HasTree (S.state server.old) }
    ensures { OnOk result (HasTree (S.state server.new)) }
{
    fits(name)?;
    server.remove(dir, name)?;
    Ok(())
}

/// Takes an empty directory out.
pub fn rmdir<S: FileServer>(server: &mut S, dir: &Handle, name: &[u8]) -> Result<(), Fail>
    requires { HasTree (S.state server.old) }
    ensures { OnOk result (HasTree (S.state server.new)) }
{
    fits(name)?;
    server.rmdir(dir, name)?;
    Ok(())
}

/// Moves a name.
pub fn rename<S: FileServer>(
    server: &mut S,
    from: &Handle,
    name: &[u8],
    to: &Handle,
    to_name: &[u8],
) -> Result<(), Fail>
    requires { HasTree (S.state server.old) }
    ensures { OnOk result (HasTree (S.state server.new)) }
{
    fits(name)?;
    fits(to_name)?;
    server.rename(from, name, to, to_name)?;
    Ok(())
}

/// Where a name leads.
pub fn lookup<S: FileServer>(server: &mut S, dir: &Handle, name: &[u8]) -> Result<Handle, Fail>
    requires { HasTree (S.state server.old) }
    ensures { OnOk result (HasTree (S.state server.new)) }
{
    fits(name)?;
    let found = server.lookup(dir, name)?;
    Ok(found)
}

/// The attributes of a node.
pub fn attr<S: FileServer>(server: &mut S, node: &Handle) -> Result<NodeAttr, Fail>
    requires { HasTree (S.state server.old) }
    ensures { OnOk result (HasTree (S.state server.new)) }
{
    let attr = server.attr(node)?;
    Ok(attr)
}

/// Whether a handle leads nowhere.
pub fn is_stale<S: FileServer>(server: &mut S, node: &Handle) -> Result<bool, Fail>
    requires { HasTree (S.state server.old) }
    ensures { OnOk result (HasTree (S.state server.new)) }
{
    match server.attr(node) {
        Ok(_) => Ok(false),
        Err(SrvErr::Stale) => Ok(true),
        Err(e) => Err(e.into()),
    }
}

/// How many names a directory has.
pub fn count_names<S: FileServer>(server: &mut S, dir: &Handle) -> Result<usize, Fail>
    requires { HasTree (S.state server.old) }
    ensures { OnOk result (HasTree (S.state server.new)) }
{
    let rows = server.list(dir)?;
    Ok(rows.len())
}

/// Puts bytes into a file, and answers how many it took.
pub fn write<S: FileServer>(
    server: &mut S,
    file: &Handle,
    offset: u32,
    piece: &[u8],
) -> Result<u32, Fail>
    requires { HasTree (S.state server.old) }
    ensures { OnOk result (HasTree (S.state server.new)) }
{
    if piece.is_empty() || u64::from(offset) + piece.len() as u64 > 8_388_608 {
        return Err(Fail::Unfit);
    }
    let count = server.write(file, offset, piece)?;
    Ok(count)
}

/// Cuts a file, or fills it with zeros.
pub fn set_size<S: FileServer>(server: &mut S, file: &Handle, size: u32) -> Result<(), Fail>
    requires { HasTree (S.state server.old) }
    ensures { OnOk result (HasTree (S.state server.new)) }
{
    if size > 8_388_608 {
        return Err(Fail::Unfit);
    }
    server.set_size(file, size)?;
    Ok(())
}

/// Gives a node a mode.
pub fn set_attr<S: FileServer>(server: &mut S, node: &Handle, mode: u32) -> Result<(), Fail>
    requires { HasTree (S.state server.old) }
    ensures { OnOk result (HasTree (S.state server.new)) }
{
    server.set_attr(node, mode, 1, 2)?;
    Ok(())
}

/// The bytes of a file.
pub fn read<S: FileServer>(
    server: &mut S,
    file: &Handle,
    offset: u32,
    count: u32,
) -> Result<Vec<u8>, Fail>
    requires { HasTree (S.state server.old) }
    ensures { OnOk result (HasTree (S.state server.new)) }
{
    let bytes = server.read(file, offset, count)?;
    Ok(bytes)
}

/// The text of a link.
pub fn read_link<S: FileServer>(server: &mut S, link: &Handle) -> Result<Vec<u8>, Fail>
    requires { HasTree (S.state server.old) }
    ensures { OnOk result (HasTree (S.state server.new)) }
{
    let text = server.read_link(link)?;
    Ok(text)
}

/// Starts a server anew.
pub fn reboot<S: FileServer>(server: &mut S) -> Result<(), Fail>
    requires { HasTree (S.state server.old) }
    ensures { OnOk result (HasTree (S.state server.new)) }
{
    server.reboot()?;
    Ok(())
}

/// Makes an empty root.
pub fn wipe<S: FileServer>(server: &mut S) -> Result<(), Fail>
    ensures { OnOk result (HasTree (S.state server.new)) }
{
    server.wipe()?;
    Ok(())
}
