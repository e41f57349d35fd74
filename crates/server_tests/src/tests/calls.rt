//! Calls on a boxed server, each with its answer or with the name of its error.

ghost use Rattle.std.specs.Prelude.{◌≡◌, ◌≤◌, ◌+◌, true, OnOk, length};
ghost use Rattle.server_trait.specs.Step.{HasTree};

use nfs2_types::{Handle, is_bad, is_dot};
use server_trait::{FileServer, Listed, NodeAttr, Srv, SrvErr};
use std::test::Fail;

/// What a call answers, or why it does not.
pub type Answer<T> = Result<T, &'static str>;

/// The handle of a new directory.
pub fn made(server: &mut Srv, dir: &Handle, name: &[u8]) -> Result<Answer<Handle>, Fail>
    requires { HasTree (⟦<Srv as FileServer>⟧.state server.old) }
    ensures { OnOk result (HasTree (⟦<Srv as FileServer>⟧.state server.new)) }
{
    if is_bad(name) || is_dot(name) || name.len() > 255 {
        return Err("name".into());
    }
    match server.mkdir(dir, name) {
        Ok(handle) => Ok(Ok(handle)),
        Err(SrvErr::Stale) => Ok(Err("stale")),
        Err(SrvErr::NotDir) => Ok(Err("no directory")),
        Err(SrvErr::Exists) => Ok(Err("exists")),
        Err(SrvErr::Full) => Ok(Err("full")),
        Err(_) => Err("mkdir".into()),
    }
}

/// The handle of a new file.
pub fn created(server: &mut Srv, dir: &Handle, name: &[u8]) -> Result<Answer<Handle>, Fail>
    requires { HasTree (⟦<Srv as FileServer>⟧.state server.old) }
    ensures { OnOk result (HasTree (⟦<Srv as FileServer>⟧.state server.new)) }
{
    if is_bad(name) || is_dot(name) || name.len() > 255 {
        return Err("name".into());
    }
    match server.create(dir, name) {
        Ok(handle) => Ok(Ok(handle)),
        Err(SrvErr::Stale) => Ok(Err("stale")),
        Err(SrvErr::NotDir) => Ok(Err("no directory")),
        Err(SrvErr::Exists) => Ok(Err("exists")),
        Err(SrvErr::Full) => Ok(Err("full")),
        Err(_) => Err("create".into()),
    }
}

/// The handle of a new link.
pub fn linked(
    server: &mut Srv,
    dir: &Handle,
    name: &[u8],
    text: &[u8],
) -> Result<Answer<Handle>, Fail>
    requires { HasTree (⟦<Srv as FileServer>⟧.state server.old) }
    ensures { OnOk result (HasTree (⟦<Srv as FileServer>⟧.state server.new)) }
{
    if is_bad(name) || is_dot(name) || name.len() > 255 || text.len() > 1024 {
        return Err("name".into());
    }
    match server.symlink(dir, name, text) {
        Ok(handle) => Ok(Ok(handle)),
        Err(SrvErr::Stale) => Ok(Err("stale")),
        Err(SrvErr::NotDir) => Ok(Err("no directory")),
        Err(SrvErr::Exists) => Ok(Err("exists")),
        Err(SrvErr::Full) => Ok(Err("full")),
        Err(_) => Err("symlink".into()),
    }
}

/// Where a name leads.
pub fn found(server: &mut Srv, dir: &Handle, name: &[u8]) -> Result<Answer<Handle>, Fail>
    requires { HasTree (⟦<Srv as FileServer>⟧.state server.old) }
    ensures { OnOk result (HasTree (⟦<Srv as FileServer>⟧.state server.new)) }
{
    if is_bad(name) || is_dot(name) || name.len() > 255 {
        return Err("name".into());
    }
    match server.lookup(dir, name) {
        Ok(handle) => Ok(Ok(handle)),
        Err(SrvErr::Stale) => Ok(Err("stale")),
        Err(SrvErr::NotDir) => Ok(Err("no directory")),
        Err(SrvErr::NoEnt) => Ok(Err("no entry")),
        Err(_) => Err("lookup".into()),
    }
}

/// The names of a directory.
pub fn listed(server: &mut Srv, dir: &Handle) -> Result<Answer<Vec<Listed>>, Fail>
    requires { HasTree (⟦<Srv as FileServer>⟧.state server.old) }
    ensures { OnOk result (HasTree (⟦<Srv as FileServer>⟧.state server.new)) }
{
    match server.list(dir) {
        Ok(rows) => Ok(Ok(rows)),
        Err(SrvErr::Stale) => Ok(Err("stale")),
        Err(SrvErr::NotDir) => Ok(Err("no directory")),
        Err(_) => Err("list".into()),
    }
}

/// Gives a node one name more.
pub fn named(server: &mut Srv, node: &Handle, dir: &Handle, name: &[u8]) -> Result<Answer<()>, Fail>
    requires { HasTree (⟦<Srv as FileServer>⟧.state server.old) }
    ensures { OnOk result (HasTree (⟦<Srv as FileServer>⟧.state server.new)) }
{
    if is_bad(name) || is_dot(name) || name.len() > 255 {
        return Err("name".into());
    }
    match server.link(node, dir, name) {
        Ok(()) => Ok(Ok(())),
        Err(SrvErr::Stale) => Ok(Err("stale")),
        Err(SrvErr::NotDir) => Ok(Err("no directory")),
        Err(SrvErr::WrongKind) => Ok(Err("other kind")),
        Err(SrvErr::Exists) => Ok(Err("exists")),
        Err(SrvErr::Full) => Ok(Err("full")),
        Err(_) => Err("link".into()),
    }
}

/// Takes out a name of a file or a link.
pub fn unnamed(server: &mut Srv, dir: &Handle, name: &[u8]) -> Result<Answer<()>, Fail>
    requires { HasTree (⟦<Srv as FileServer>⟧.state server.old) }
    ensures { OnOk result (HasTree (⟦<Srv as FileServer>⟧.state server.new)) }
{
    if is_bad(name) || is_dot(name) || name.len() > 255 {
        return Err("name".into());
    }
    match server.remove(dir, name) {
        Ok(()) => Ok(Ok(())),
        Err(SrvErr::Stale) => Ok(Err("stale")),
        Err(SrvErr::NotDir) => Ok(Err("no directory")),
        Err(SrvErr::NoEnt) => Ok(Err("no entry")),
        Err(SrvErr::WrongKind) => Ok(Err("other kind")),
        Err(_) => Err("remove".into()),
    }
}

/// Takes out the name of a directory.
pub fn emptied(server: &mut Srv, dir: &Handle, name: &[u8]) -> Result<Answer<()>, Fail>
    requires { HasTree (⟦<Srv as FileServer>⟧.state server.old) }
    ensures { OnOk result (HasTree (⟦<Srv as FileServer>⟧.state server.new)) }
{
    if is_bad(name) || is_dot(name) || name.len() > 255 {
        return Err("name".into());
    }
    match server.rmdir(dir, name) {
        Ok(()) => Ok(Ok(())),
        Err(SrvErr::Stale) => Ok(Err("stale")),
        Err(SrvErr::NotDir) => Ok(Err("no directory")),
        Err(SrvErr::NoEnt) => Ok(Err("no entry")),
        Err(SrvErr::NotEmpty) => Ok(Err("not empty")),
        Err(_) => Err("rmdir".into()),
    }
}

/// How much of a piece was written.
pub fn wrote(
    server: &mut Srv,
    file: &Handle,
    offset: u32,
    piece: &[u8],
) -> Result<Answer<u32>, Fail>
    requires { HasTree (⟦<Srv as FileServer>⟧.state server.old) }
    ensures { OnOk result (HasTree (⟦<Srv as FileServer>⟧.state server.new)) }
{
    if piece.is_empty() || piece.len() > 100 || offset > 100 {
        return Err("piece".into());
    }
    match server.write(file, offset, piece) {
        Ok(count) => Ok(Ok(count)),
        Err(SrvErr::Stale) => Ok(Err("stale")),
        Err(SrvErr::WrongKind) => Ok(Err("other kind")),
        Err(SrvErr::Full) => Ok(Err("full")),
        Err(_) => Err("write".into()),
    }
}

/// Gives a file a size.
pub fn sized(server: &mut Srv, file: &Handle, size: u32) -> Result<Answer<()>, Fail>
    requires { HasTree (⟦<Srv as FileServer>⟧.state server.old) }
    ensures { OnOk result (HasTree (⟦<Srv as FileServer>⟧.state server.new)) }
{
    if size > 100 {
        return Err("size".into());
    }
    match server.set_size(file, size) {
        Ok(()) => Ok(Ok(())),
        Err(SrvErr::Stale) => Ok(Err("stale")),
        Err(SrvErr::WrongKind) => Ok(Err("other kind")),
        Err(SrvErr::Full) => Ok(Err("full")),
        Err(_) => Err("set_size".into()),
    }
}

/// The bytes of a file from an offset on.
pub fn bytes_at(
    server: &mut Srv,
    file: &Handle,
    offset: u32,
    count: u32,
) -> Result<Answer<Vec<u8>>, Fail>
    requires { HasTree (⟦<Srv as FileServer>⟧.state server.old) }
    ensures { OnOk result (HasTree (⟦<Srv as FileServer>⟧.state server.new)) }
{
    match server.read(file, offset, count) {
        Ok(bytes) => Ok(Ok(bytes)),
        Err(SrvErr::Stale) => Ok(Err("stale")),
        Err(SrvErr::WrongKind) => Ok(Err("other kind")),
        Err(_) => Err("read".into()),
    }
}

/// The text of a link.
pub fn text_of(server: &mut Srv, link: &Handle) -> Result<Answer<Vec<u8>>, Fail>
    requires { HasTree (⟦<Srv as FileServer>⟧.state server.old) }
    ensures { OnOk result (HasTree (⟦<Srv as FileServer>⟧.state server.new)) }
{
    match server.read_link(link) {
        Ok(text) => Ok(Ok(text)),
        Err(SrvErr::Stale) => Ok(Err("stale")),
        Err(SrvErr::WrongKind) => Ok(Err("other kind")),
        Err(_) => Err("read_link".into()),
    }
}

/// Sets the mode and the owners of a node.
pub fn attr_set(
    server: &mut Srv,
    node: &Handle,
    mode: u32,
    uid: u32,
    gid: u32,
) -> Result<Answer<()>, Fail>
    requires { HasTree (⟦<Srv as FileServer>⟧.state server.old) }
    ensures { OnOk result (HasTree (⟦<Srv as FileServer>⟧.state server.new)) }
{
    match server.set_attr(node, mode, uid, gid) {
        Ok(()) => Ok(Ok(())),
        Err(SrvErr::Stale) => Ok(Err("stale")),
        Err(_) => Err("set_attr".into()),
    }
}

/// The attributes of a node.
pub fn attr_of(server: &mut Srv, node: &Handle) -> Result<Answer<NodeAttr>, Fail>
    requires { HasTree (⟦<Srv as FileServer>⟧.state server.old) }
    ensures { OnOk result (HasTree (⟦<Srv as FileServer>⟧.state server.new)) }
{
    match server.attr(node) {
        Ok(attr) => Ok(Ok(attr)),
        Err(SrvErr::Stale) => Ok(Err("stale")),
        Err(_) => Err("attr".into()),
    }
}

/// Moves a name of a directory to a name of another.
pub fn renamed(
    server: &mut Srv,
    from: &Handle,
    name: &[u8],
    to: &Handle,
    to_name: &[u8],
) -> Result<Answer<()>, Fail>
    requires { HasTree (⟦<Srv as FileServer>⟧.state server.old) }
    ensures { OnOk result (HasTree (⟦<Srv as FileServer>⟧.state server.new)) }
{
    if is_bad(name) || is_dot(name) || name.len() > 255 {
        return Err("name".into());
    }
    if is_bad(to_name) || is_dot(to_name) || to_name.len() > 255 {
        return Err("to_name".into());
    }
    match server.rename(from, name, to, to_name) {
        Ok(()) => Ok(Ok(())),
        Err(SrvErr::Stale) => Ok(Err("stale")),
        Err(SrvErr::NotDir) => Ok(Err("no directory")),
        Err(SrvErr::NoEnt) => Ok(Err("no entry")),
        Err(SrvErr::Subtree) => Ok(Err("below itself")),
        Err(SrvErr::Refused) => Ok(Err("refused")),
        Err(_) => Err("rename".into()),
    }
}
