//! Calls that change one node.

ghost use Rattle.std.specs.Prelude.{◌+◌, ◌≤◌, length};
ghost use Rattle.server_trait.specs.Calls.{SetAttr, SetSize, Write};
ghost use Rattle.log_changes.specs.Kept.{IsKept};
ghost use Rattle.log_calls.specs.State.{Does};

use crate::answers::answered;
use crate::found::{find, find_file};
use crate::room::has_bytes;
use log_changes::LogTree;
use nfs2_types::Handle;
use outside::Medium;
use server_trait::SrvErr;

/// Sets the mode and the owners of a node. Errors: Stale.
pub fn set_attr<M: Medium>(
    tree: &mut LogTree<M>,
    node: &Handle,
    mode: u32,
    uid: u32,
    gid: u32,
) -> Result<(), SrvErr>
    requires { IsKept M.content M.size tree.old }
    ensures { Does M.content M.size M.faults (λ a. SetAttr a node.now mode uid gid) tree.old result tree.new }
{
    let Some(found) = find(tree, node) else {
        return Err(SrvErr::Stale);
    };
    answered(tree.set_attr(&found.id, mode, uid, gid))
}

/// Puts bytes from the front of a piece, at least one, up to the end of a chunk, at an offset of a file, and answers
/// how many. Errors: Stale, WrongKind, Refused where the offset lies past the end, and Full.
pub fn write<M: Medium>(
    tree: &mut LogTree<M>,
    file: &Handle,
    offset: u32,
    piece: &[u8],
) -> Result<u32, SrvErr>
    requires kept { IsKept M.content M.size tree.old }
    requires some { 1 ≤ length piece.now }
    requires end { offset + length piece.now ≤ 8388608 }
    ensures { Does M.content M.size M.faults (λ a. Write a file.now offset piece.now) tree.old result tree.new }
{
    let found = find_file(tree, file)?;
    let size = found.info.size;
    if size < offset {
        return Err(SrvErr::Refused);
    }
    let end = size.max(offset + piece.len() as u32);
    if !has_bytes(tree, u64::from(size), u64::from(end)) {
        return Err(SrvErr::Full);
    }
    answered(tree.write(&found.id, offset, piece))
}

/// Cuts a file, or fills it with zeros. Errors: Stale, WrongKind, Full.
pub fn set_size<M: Medium>(tree: &mut LogTree<M>, file: &Handle, size: u32) -> Result<(), SrvErr>
    requires kept { IsKept M.content M.size tree.old }
    requires end { size ≤ 8388608 }
    ensures { Does M.content M.size M.faults (λ a. SetSize a file.now size) tree.old result tree.new }
{
    let found = find_file(tree, file)?;
    if !has_bytes(tree, u64::from(found.info.size), u64::from(size)) {
        return Err(SrvErr::Full);
    }
    answered(tree.set_size(&found.id, size))
}
