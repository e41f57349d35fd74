//! A new node at a server.

ghost use Rattle.std.specs.Prelude.{◌≡◌, ◌≤◌, List, [], Some, true, length, replicate, IsSomeAnd, IfOk};
ghost use Rattle.nfs2_types.specs.Names.{is_name};
ghost use Rattle.server_trait.specs.Tree.{Tree, BytesOf, TextOf};
ghost use Rattle.server_trait.specs.Step.{LacksName};
ghost use Rattle.server_trait.specs.Calls.{Made};
ghost use Rattle.conf_map.specs.Notice.{Watched};
ghost use Rattle.node_changes.specs.News.{HasRoomFor, IsBegun, IsMade, node_with};
ghost use Rattle.node_changes.specs.Objects.{new_of, byte_count, content_of, IsSmall};

use crate::object::NewObject;
use abs_model::Attr;
use conf_map::{attr_of, broken, make_node_dir};
use nfs2_types::Handle;
use server_trait::{FileServer, Srv, WrapErr};

/// A new node: its handle, and its number.
#[derive(Clone, Copy, Debug)]
pub struct NewNode {
    pub handle: Handle,
    pub number: u64,
}

/// Makes a file without bytes under a new name.
fn create_file(server: &mut Srv, dir: &Handle, name: &[u8]) -> Result<Handle, WrapErr>
    requires lacks { IsSomeAnd (state server.old).tree (λ t. LacksName t dir.now name.now) }
    requires name { is_name name.now ≡ true }
    requires room { HasRoomFor (state server.old) 0 }
    ensures made { IfOk result (λ h. (t : Tree) → (state server.old).tree ≡ Some t →
        Made t dir.now name.now (BytesOf []) h (state server.new).tree) }
    ensures watched { Watched (state server.old) (state server.new) result }
{
    match server.create(dir, name) {
        Ok(handle) => Ok(handle),
        Err(error) => Err(broken(error)),
    }
}

/// Makes a file of zeros under a new name.
fn make_file(server: &mut Srv, dir: &Handle, name: &[u8], size: u32) -> Result<Handle, WrapErr>
    requires lacks { IsSomeAnd (state server.old).tree (λ t. LacksName t dir.now name.now) }
    requires name { is_name name.now ≡ true }
    requires size { size ≤ 1048576 }
    requires room { HasRoomFor (state server.old) size }
    ensures begun { IfOk result (λ h. (t : Tree) → (state server.old).tree ≡ Some t →
        IsBegun t dir.now name.now h (BytesOf (replicate size 0)) (state server.new).tree) }
    ensures watched { Watched (state server.old) (state server.new) result }
{
    let handle = create_file(server, dir, name)?;
    if size > 0 {
        match server.set_size(&handle, size) {
            Ok(()) => {}
            Err(error) => return Err(broken(error)),
        }
    }
    Ok(handle)
}

/// Makes a link with its text under a new name.
fn make_link(server: &mut Srv, dir: &Handle, name: &[u8], text: &[u8]) -> Result<Handle, WrapErr>
    requires lacks { IsSomeAnd (state server.old).tree (λ t. LacksName t dir.now name.now) }
    requires name { is_name name.now ≡ true }
    requires text { length text.now ≤ 1024 }
    requires room { HasRoomFor (state server.old) (length text.now) }
    ensures made { IfOk result (λ h. (t : Tree) → (state server.old).tree ≡ Some t →
        Made t dir.now name.now (TextOf text.now) h (state server.new).tree) }
    ensures watched { Watched (state server.old) (state server.new) result }
{
    match server.symlink(dir, name, text) {
        Ok(handle) => Ok(handle),
        Err(error) => Err(broken(error)),
    }
}

/// Makes an object without mode and owners under a new name.
fn begin_node(
    server: &mut Srv,
    dir: &Handle,
    name: &[u8],
    new: &NewObject,
) -> Result<Handle, WrapErr>
    requires lacks { IsSomeAnd (state server.old).tree (λ t. LacksName t dir.now name.now) }
    requires name { is_name name.now ≡ true }
    requires small { IsSmall (new_of new.now) }
    requires room { HasRoomFor (state server.old) (byte_count (new_of new.now)) }
    ensures begun { IfOk result (λ h. (t : Tree) → (state server.old).tree ≡ Some t →
        IsBegun t dir.now name.now h (content_of (new_of new.now)) (state server.new).tree) }
    ensures watched { Watched (state server.old) (state server.new) result }
{
    match *new {
        NewObject::Dir => make_node_dir(server, dir, name),
        NewObject::File { size } => make_file(server, dir, name, size),
        NewObject::Link { text } => make_link(server, dir, name, text),
    }
}

/// Makes an object with a mode and owners under a new name.
pub fn make_node(
    server: &mut Srv,
    dir: &Handle,
    name: &[u8],
    new: &NewObject,
    attr: &Attr,
) -> Result<NewNode, WrapErr>
    requires lacks { IsSomeAnd (state server.old).tree (λ t. LacksName t dir.now name.now) }
    requires name { is_name name.now ≡ true }
    requires small { IsSmall (new_of new.now) }
    requires room { HasRoomFor (state server.old) (byte_count (new_of new.now)) }
    ensures made { IfOk result (λ node. (t : Tree) → (state server.old).tree ≡ Some t →
        IsSomeAnd (state server.new).tree (IsMade t dir.now name.now node.handle
        (node_with node.number attr.now (content_of (new_of new.now))))) }
    ensures watched { Watched (state server.old) (state server.new) result }
{
    let handle = begin_node(server, dir, name, new)?;
    match server.set_attr(&handle, attr.mode, attr.uid, attr.gid) {
        Ok(()) => {}
        Err(error) => return Err(broken(error)),
    }
    let told = attr_of(server, &handle)?;
    Ok(NewNode {
        handle,
        number: told.number,
    })
}
