//! Calls that ask.

ghost use Rattle.std.specs.Prelude.{◌≡◌, ◌≤◌, true, length, IsSome};
ghost use Rattle.nfs2_types.specs.Names.{is_name};
ghost use Rattle.server_trait.specs.Calls.{Attr, Lookup, Read, ReadLink};
ghost use Rattle.server_trait.specs.Tree.{names_at};
ghost use Rattle.log_tree.specs.Held.{handle_of};
ghost use Rattle.log_changes.specs.Kept.{IsKept, log_tree};
ghost use Rattle.log_calls.specs.State.{Does, LooksUp};

use crate::answers::answered;
use crate::found::{find, find_dir, find_file, find_link, handle_of};
use log_changes::LogTree;
use log_records::NodeId;
use nfs2_types::Handle;
use outside::Medium;
use server_trait::{NodeAttr, SrvErr};

/// The attributes of a node. Errors: Stale.
pub fn attr<M: Medium>(tree: &mut LogTree<M>, node: &Handle) -> Result<NodeAttr, SrvErr>
    requires { IsKept M.content M.size tree.old }
    ensures { Does M.content M.size M.faults (λ a. Attr a node.now) tree.old result tree.new }
{
    match find(tree, node) {
        Some(found) => Ok(found.attr()),
        None => Err(SrvErr::Stale),
    }
}

/// The bytes of a file from an offset up to the count or the end. Errors: Stale, WrongKind.
pub fn read<M: Medium>(
    tree: &mut LogTree<M>,
    file: &Handle,
    offset: u32,
    count: u32,
) -> Result<Vec<u8>, SrvErr>
    requires { IsKept M.content M.size tree.old }
    ensures { Does M.content M.size M.faults (λ a. Read a file.now offset count) tree.old result tree.new }
{
    let found = find_file(tree, file)?;
    answered(tree.read(&found.id, offset, count))
}

/// The text of a link. Errors: Stale, WrongKind.
pub fn read_link<M: Medium>(tree: &mut LogTree<M>, link: &Handle) -> Result<Vec<u8>, SrvErr>
    requires { IsKept M.content M.size tree.old }
    ensures { Does M.content M.size M.faults (λ a. ReadLink a link.now) tree.old result tree.new }
{
    let found = find_link(tree, link)?;
    answered(tree.read_text(&found.id))
}

/// The node to which a name of a directory leads, if there is one.
pub(crate) fn look_up<M: Medium>(
    tree: &mut LogTree<M>,
    dir: &NodeId,
    name: &[u8],
) -> Result<Option<NodeId>, SrvErr>
    requires kept { IsKept M.content M.size tree.old }
    requires dir { IsSome (names_at (log_tree M.content M.size tree.old) (handle_of dir.now)) }
    requires short { length name.now ≤ 255 }
    ensures { LooksUp M.content M.size M.faults tree.old dir.now name.now result tree.new }
{
    answered(tree.lookup(dir, name))
}

/// The handle to which a name leads. Errors: Stale, NotDir, NoEnt.
pub fn lookup<M: Medium>(tree: &mut LogTree<M>, dir: &Handle, name: &[u8]) -> Result<Handle, SrvErr>
    requires kept { IsKept M.content M.size tree.old }
    requires name { is_name name.now ≡ true }
    ensures { Does M.content M.size M.faults (λ a. Lookup a dir.now name.now) tree.old result tree.new }
{
    let dir = find_dir(tree, dir)?;
    match look_up(tree, &dir.id, name)? {
        Some(node) => Ok(handle_of(&node)),
        None => Err(SrvErr::NoEnt),
    }
}
