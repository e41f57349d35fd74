//! Calls that make a node.

ghost use Rattle.std.specs.Prelude.{◌≡◌, ◌≤◌, ◌+◌, true, None, Some, OnOk, IfOk, MatchOption, length};
ghost use Rattle.std.specs.FinMap.{len};
ghost use Rattle.nfs2_types.specs.Names.{is_name};
ghost use Rattle.nfs2_types.specs.declared.fattr.Kind.TheVariants.{Dir};
ghost use Rattle.outside.specs.Causes.{WriteHasCause};
ghost use Rattle.server_trait.specs.Calls.{Make};
ghost use Rattle.inode_tree.specs.Kept.{tables_of};
ghost use Rattle.inode_tree.specs.Whole.{tree_in, IsWhole};
ghost use Rattle.inode_server.specs.Found.{IsFound};
ghost use Rattle.inode_server.specs.Made.{content_with, HasText, Makes};
ghost use Rattle.inode_server.specs.State.{Does};

use crate::answers::srv_error;
use crate::find::find_dir;
use inode_tree::InodeTree;
use nfs2_types::{Handle, Kind};
use outside::{Medium, MediumErr};
use server_trait::SrvErr;

/// Takes a free inode for a node of a kind with a text, if one is free.
fn take_with<M: Medium>(
    tree: &mut InodeTree<M>,
    kind: Kind,
    text: &[u8],
) -> Result<Option<u32>, MediumErr>
    requires whole { IsWhole M.content M.size tree.old }
    requires text { HasText kind text.now }
    requires few { length text.now ≤ 1024 }
    requires room { (tables_of tree.old.tables).counts.used + length text.now ≤ tree.old.limits.bytes }
    ensures whole { OnOk result (IsWhole M.content M.size tree.new) }
    ensures node { IfOk result (λ o. MatchOption o ((tree_in M.content tree.new ≡ tree_in M.content tree.old) ×
        (len (tree_in M.content tree.old).nodes ≡ tree.old.store.inodes))
        (λ i. Makes M.content tree.old tree.new i kind text.now)) }
    ensures name { OnOk result (M.content tree.new.store.medium 0 ≡ M.content tree.old.store.medium 0) }
    ensures limits { tree.new.limits ≡ tree.old.limits }
    ensures area { tree.new.store.area ≡ tree.old.store.area }
    ensures inodes { tree.new.store.inodes ≡ tree.old.store.inodes }
    ensures size { M.size tree.new.store.medium ≡ M.size tree.old.store.medium }
    ensures cause { WriteHasCause (M.faults tree.old.store.medium) (M.faults tree.new.store.medium) result }
{
    let Some(inode) = tree.take_node(kind)? else {
        return Ok(None);
    };
    if !text.is_empty() {
        tree.write_text(inode, text)?;
    }
    Ok(Some(inode))
}

/// Makes a node of a kind under a name that a directory lacks, where there is room for its bytes. Errors: Full.
fn make_new<M: Medium>(
    tree: &mut InodeTree<M>,
    dir: &Handle,
    within: u32,
    name: &[u8],
    kind: Kind,
    text: &[u8],
) -> Result<Handle, SrvErr>
    requires whole { IsWhole M.content M.size tree.old }
    requires dir { IsFound (tables_of tree.old.tables) dir.now Dir within }
    requires name { is_name name.now ≡ true }
    requires new { (tables_of tree.old.tables).place within name.now ≡ None }
    requires text { HasText kind text.now }
    requires few { length text.now ≤ 1024 }
    requires room { (tables_of tree.old.tables).counts.used + (512 + length text.now) ≤ tree.old.limits.bytes }
    ensures { Does M.content M.size M.faults
        (λ a. Make (content_with kind text.now) (length text.now) a dir.now name.now) tree.old result tree.new }
{
    let inode = match take_with(tree, kind, text) {
        Ok(Some(inode)) => inode,
        Ok(None) => return Err(SrvErr::Full),
        Err(e) => return Err(srv_error(e)),
    };
    match tree.add_name(within, name, inode, kind) {
        Ok(()) => Ok(tree.tables.handle(inode)),
        Err(e) => Err(srv_error(e)),
    }
}

/// Makes a node of a kind, of mode, uid and gid 0, a link with its text. Errors: Stale, NotDir, Exists, Full.
pub(crate) fn make<M: Medium>(
    tree: &mut InodeTree<M>,
    dir: &Handle,
    name: &[u8],
    kind: Kind,
    text: &[u8],
) -> Result<Handle, SrvErr>
    requires whole { IsWhole M.content M.size tree.old }
    requires name { is_name name.now ≡ true }
    requires text { HasText kind text.now }
    requires few { length text.now ≤ 1024 }
    ensures { Does M.content M.size M.faults
        (λ a. Make (content_with kind text.now) (length text.now) a dir.now name.now) tree.old result tree.new }
{
    let within = find_dir(tree, dir)?;
    if tree.tables.place(within, name).is_some() {
        return Err(SrvErr::Exists);
    }
    if tree.tables.used() + (512 + text.len() as u64) > tree.limits.bytes {
        return Err(SrvErr::Full);
    }
    make_new(tree, dir, within, name, kind, text)
}
