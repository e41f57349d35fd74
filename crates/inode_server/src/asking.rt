//! Calls that ask.

ghost use Rattle.std.specs.Prelude.{◌≡◌, ◌<◌, true};
ghost use Rattle.nfs2_types.specs.Names.{is_name};
ghost use Rattle.server_trait.specs.Calls.{Attr, Read, ReadLink, Lookup, ListNames};
ghost use Rattle.inode_tree.specs.Kept.{tables_of};
ghost use Rattle.inode_tree.specs.Whole.{IsWhole};
ghost use Rattle.inode_server.specs.Found.{attr_told};
ghost use Rattle.inode_server.specs.State.{Does};

use crate::answers::srv_error;
use crate::find::{find_dir, find_file, find_link};
use crate::rows::rows_of;
use inode_store::Inode;
use inode_tree::{InodeTables, InodeTree};
use nfs2_types::{Handle, Kind, Time};
use outside::Medium;
use server_trait::{Listed, NodeAttr, SrvErr};

/// What is told of an inode.
fn attr_of(tables: &InodeTables, inode: u32, found: Inode) -> NodeAttr
    requires { inode < (tables_of tables.now).counts.inodes }
    ensures { result ≡ attr_told (tables_of tables.now) inode found }
{
    let (size, links) = match found.kind {
        Kind::Dir => (found.size / 288, tables.subdirs(inode)),
        Kind::File | Kind::Link => (found.size, tables.links(inode)),
    };
    NodeAttr {
        kind: found.kind,
        number: u64::from(inode),
        mode: found.mode,
        uid: found.uid,
        gid: found.gid,
        size,
        links,
        time: Time { secs: 0, micros: 0 },
    }
}

/// The attributes of a node. Errors: Stale.
pub(crate) fn attr<M: Medium>(tree: &mut InodeTree<M>, node: &Handle) -> Result<NodeAttr, SrvErr>
    requires { IsWhole M.content M.size tree.old }
    ensures { Does M.content M.size M.faults (λ a. Attr a node.now) tree.old result tree.new }
{
    let Some((inode, _)) = tree.tables.find(node) else {
        return Err(SrvErr::Stale);
    };
    match tree.inode(inode) {
        Ok(found) => Ok(attr_of(&tree.tables, inode, found)),
        Err(e) => Err(srv_error(e)),
    }
}

/// The bytes of a file from an offset up to the count or the end. Errors: Stale, WrongKind.
pub(crate) fn read<M: Medium>(
    tree: &mut InodeTree<M>,
    file: &Handle,
    offset: u32,
    count: u32,
) -> Result<Vec<u8>, SrvErr>
    requires { IsWhole M.content M.size tree.old }
    ensures { Does M.content M.size M.faults (λ a. Read a file.now offset count) tree.old result tree.new }
{
    let inode = find_file(tree, file)?;
    match tree.read(inode, offset, count) {
        Ok(bytes) => Ok(bytes),
        Err(e) => Err(srv_error(e)),
    }
}

/// The text of a link. Errors: Stale, WrongKind.
pub(crate) fn read_link<M: Medium>(
    tree: &mut InodeTree<M>,
    link: &Handle,
) -> Result<Vec<u8>, SrvErr>
    requires { IsWhole M.content M.size tree.old }
    ensures { Does M.content M.size M.faults (λ a. ReadLink a link.now) tree.old result tree.new }
{
    let inode = find_link(tree, link)?;
    match tree.read(inode, 0, u32::MAX) {
        Ok(text) => Ok(text),
        Err(e) => Err(srv_error(e)),
    }
}

/// The handle to which a name leads. Errors: Stale, NotDir, NoEnt.
pub(crate) fn lookup<M: Medium>(
    tree: &mut InodeTree<M>,
    dir: &Handle,
    name: &[u8],
) -> Result<Handle, SrvErr>
    requires { IsWhole M.content M.size tree.old }
    ensures { Does M.content M.size M.faults (λ a. Lookup a dir.now name.now) tree.old result tree.new }
{
    let within = find_dir(tree, dir)?;
    match tree.tables.place(within, name) {
        Some(place) => Ok(tree.tables.handle(place.inode)),
        None => Err(SrvErr::NoEnt),
    }
}

/// The names of a directory, each once, in any order. Errors: Stale, NotDir.
pub(crate) fn list<M: Medium>(tree: &mut InodeTree<M>, dir: &Handle) -> Result<Vec<Listed>, SrvErr>
    requires { IsWhole M.content M.size tree.old }
    ensures { Does M.content M.size M.faults (λ a. ListNames a dir.now) tree.old result tree.new }
{
    let within = find_dir(tree, dir)?;
    let bytes = match tree.read(within, 0, u32::MAX) {
        Ok(bytes) => bytes,
        Err(e) => return Err(srv_error(e)),
    };
    match rows_of(tree.alloc, &tree.tables, &bytes) {
        Ok(rows) => Ok(rows),
        Err(_) => Err(SrvErr::NoMemory),
    }
}
