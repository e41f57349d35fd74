//! Calls that change a node.

ghost use Rattle.std.specs.Prelude.{◌≡◌, ◌≤◌, ◌+◌, Some, length};
ghost use Rattle.nfs2_types.specs.declared.fattr.Kind.TheVariants.{File};
ghost use Rattle.server_trait.specs.Calls.{SetAttr, Write, SetSize};
ghost use Rattle.inode_dirs.specs.Files.{File as AFile};
ghost use Rattle.inode_store.specs.Store.{file_in};
ghost use Rattle.inode_tree.specs.Kept.{tables_of};
ghost use Rattle.inode_tree.specs.Whole.{IsWhole};
ghost use Rattle.inode_server.specs.Found.{IsFound};
ghost use Rattle.inode_server.specs.State.{Does};

use crate::answers::srv_error;
use crate::find::find_file;
use inode_tree::InodeTree;
use nfs2_types::Handle;
use outside::Medium;
use server_trait::SrvErr;

/// Sets the mode and the owners of a node. Errors: Stale.
pub(crate) fn set_attr<M: Medium>(
    tree: &mut InodeTree<M>,
    node: &Handle,
    mode: u32,
    uid: u32,
    gid: u32,
) -> Result<(), SrvErr>
    requires { IsWhole M.content M.size tree.old }
    ensures { Does M.content M.size M.faults (λ a. SetAttr a node.now mode uid gid) tree.old result tree.new }
{
    let Some((inode, _)) = tree.tables.find(node) else {
        return Err(SrvErr::Stale);
    };
    match tree.set_attr(inode, mode, uid, gid) {
        Ok(()) => Ok(()),
        Err(e) => Err(srv_error(e)),
    }
}

/// Puts bytes from the front of a piece, at least one, at an offset of a file of this size. Errors: Refused, Full.
fn write_at<M: Medium>(
    tree: &mut InodeTree<M>,
    file: &Handle,
    inode: u32,
    size: u32,
    offset: u32,
    piece: &[u8],
) -> Result<u32, SrvErr>
    requires whole { IsWhole M.content M.size tree.old }
    requires file { IsFound (tables_of tree.old.tables) file.now File inode }
    requires size { (f : AFile) → file_in M.content tree.old.store inode ≡ Some f → length f.bytes ≡ size }
    requires some { 1 ≤ length piece.now }
    requires end { offset + length piece.now ≤ 8388608 }
    ensures { Does M.content M.size M.faults (λ a. Write a file.now offset piece.now) tree.old result tree.new }
{
    if offset > size {
        return Err(SrvErr::Refused);
    }
    let after = u64::from(size).max(u64::from(offset) + piece.len() as u64);
    if tree.tables.used() - u64::from(size) + after > tree.limits.bytes {
        return Err(SrvErr::Full);
    }
    match tree.write(inode, size, offset, piece) {
        Ok(count) => Ok(count),
        Err(e) => Err(srv_error(e)),
    }
}

/// Puts bytes from the front of a piece, at least one, at an offset of a file, and answers how many. Errors: Stale,
/// WrongKind, Refused where the offset lies past the end, and Full.
pub(crate) fn write<M: Medium>(
    tree: &mut InodeTree<M>,
    file: &Handle,
    offset: u32,
    piece: &[u8],
) -> Result<u32, SrvErr>
    requires whole { IsWhole M.content M.size tree.old }
    requires some { 1 ≤ length piece.now }
    requires end { offset + length piece.now ≤ 8388608 }
    ensures { Does M.content M.size M.faults (λ a. Write a file.now offset piece.now) tree.old result tree.new }
{
    let inode = find_file(tree, file)?;
    match tree.inode(inode) {
        Ok(found) => write_at(tree, file, inode, found.size, offset, piece),
        Err(e) => Err(srv_error(e)),
    }
}

/// Cuts a file of this size, or fills it with zeros. Errors: Full.
fn resize<M: Medium>(
    tree: &mut InodeTree<M>,
    file: &Handle,
    inode: u32,
    old: u32,
    size: u32,
) -> Result<(), SrvErr>
    requires whole { IsWhole M.content M.size tree.old }
    requires file { IsFound (tables_of tree.old.tables) file.now File inode }
    requires old { (f : AFile) → file_in M.content tree.old.store inode ≡ Some f → length f.bytes ≡ old }
    requires end { size ≤ 8388608 }
    ensures { Does M.content M.size M.faults (λ a. SetSize a file.now size) tree.old result tree.new }
{
    if tree.tables.used() - u64::from(old) + u64::from(size) > tree.limits.bytes {
        return Err(SrvErr::Full);
    }
    match tree.set_size(inode, old, size) {
        Ok(()) => Ok(()),
        Err(e) => Err(srv_error(e)),
    }
}

/// Cuts a file, or fills it with zeros. Errors: Stale, WrongKind, Full.
pub(crate) fn set_size<M: Medium>(
    tree: &mut InodeTree<M>,
    file: &Handle,
    size: u32,
) -> Result<(), SrvErr>
    requires whole { IsWhole M.content M.size tree.old }
    requires end { size ≤ 8388608 }
    ensures { Does M.content M.size M.faults (λ a. SetSize a file.now size) tree.old result tree.new }
{
    let inode = find_file(tree, file)?;
    match tree.inode(inode) {
        Ok(found) => resize(tree, file, inode, found.size, size),
        Err(e) => Err(srv_error(e)),
    }
}
