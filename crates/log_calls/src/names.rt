//! Calls on names.

ghost use Rattle.std.specs.Prelude.{◌≡◌, ◌≤◌, true, length, MatchOption, IsSome, IsSomeAnd};
ghost use Rattle.std.specs.FinMap.{len};
ghost use Rattle.nfs2_types.specs.Names.{is_name};
ghost use Rattle.server_trait.specs.Calls.{IsDir, Link, Make, Remove, Rename, Rmdir};
ghost use Rattle.server_trait.specs.Tree.{names_at};
ghost use Rattle.log_tree.specs.Held.{handle_of};
ghost use Rattle.log_changes.specs.Kept.{IsKept, log_tree};
ghost use Rattle.log_changes.specs.Made.{HasText, made_content};
ghost use Rattle.log_calls.specs.State.{Does};

use crate::answers::answered;
use crate::asking::look_up;
use crate::below::is_below;
use crate::found::{find_dir, find_leaf, handle_of};
use crate::room::{has_bytes, has_node};
use log_changes::LogTree;
use log_records::NodeId;
use nfs2_types::{Handle, Kind};
use outside::Medium;
use server_trait::{NAME_BYTES, SrvErr};

/// Makes a node under a new name. Errors: Stale, NotDir, Exists, Full.
pub fn make<M: Medium>(
    tree: &mut LogTree<M>,
    dir: &Handle,
    name: &[u8],
    kind: Kind,
    text: &[u8],
) -> Result<Handle, SrvErr>
    requires kept { IsKept M.content M.size tree.old }
    requires name { is_name name.now ≡ true }
    requires plain { HasText kind text.now }
    requires text { length text.now ≤ 1024 }
    ensures { Does M.content M.size M.faults
        (λ a. Make (made_content kind text.now) (length text.now) a dir.now name.now) tree.old result tree.new }
{
    let within = find_dir(tree, dir)?;
    if let Some(_) = look_up(tree, &within.id, name)? {
        return Err(SrvErr::Exists);
    }
    if !has_node(tree) {
        return Err(SrvErr::Full);
    }
    if !has_bytes(tree, 0, NAME_BYTES + text.len() as u64) {
        return Err(SrvErr::Full);
    }
    let id = answered(tree.make(&within.id, name, kind, text))?;
    Ok(handle_of(&id))
}

/// Gives a file or a link one name more. Errors: Stale, WrongKind for a directory, NotDir, Exists, Full.
pub fn link<M: Medium>(
    tree: &mut LogTree<M>,
    node: &Handle,
    dir: &Handle,
    name: &[u8],
) -> Result<(), SrvErr>
    requires kept { IsKept M.content M.size tree.old }
    requires name { is_name name.now ≡ true }
    ensures { Does M.content M.size M.faults (λ a. Link a node.now dir.now name.now) tree.old result tree.new }
{
    let leaf = find_leaf(tree, node)?;
    let within = find_dir(tree, dir)?;
    if let Some(_) = look_up(tree, &within.id, name)? {
        return Err(SrvErr::Exists);
    }
    if !has_bytes(tree, 0, NAME_BYTES) {
        return Err(SrvErr::Full);
    }
    answered(tree.add_name(&within.id, name, &leaf.id))
}

/// How many names a node has, if it is a directory.
fn names_in<M: Medium>(tree: &LogTree<M>, id: &NodeId) -> Option<u32>
    requires { IsKept M.content M.size tree.now }
    ensures { let t = log_tree M.content M.size tree.now in
        MatchOption result (¬ (IsDir t (handle_of id.now)))
        (λ n. IsSomeAnd (names_at t (handle_of id.now)) (λ m. n ≡ len m)) }
{
    match tree.info(id) {
        Some(info) if info.kind == Kind::Dir => Some(info.size),
        _ => None,
    }
}

/// Takes out a name of a file or a link, which goes with its last name. Errors: Stale, NotDir, NoEnt, WrongKind.
pub fn remove<M: Medium>(tree: &mut LogTree<M>, dir: &Handle, name: &[u8]) -> Result<(), SrvErr>
    requires kept { IsKept M.content M.size tree.old }
    requires name { is_name name.now ≡ true }
    ensures { Does M.content M.size M.faults (λ a. Remove a dir.now name.now) tree.old result tree.new }
{
    let within = find_dir(tree, dir)?;
    let Some(node) = look_up(tree, &within.id, name)? else {
        return Err(SrvErr::NoEnt);
    };
    if let Some(_) = names_in(tree, &node) {
        return Err(SrvErr::WrongKind);
    }
    answered(tree.take_out(&within.id, name, &node))
}

/// Takes out an empty directory and its name. Errors: Stale, NotDir, NoEnt, NotEmpty.
pub fn rmdir<M: Medium>(tree: &mut LogTree<M>, dir: &Handle, name: &[u8]) -> Result<(), SrvErr>
    requires kept { IsKept M.content M.size tree.old }
    requires name { is_name name.now ≡ true }
    ensures { Does M.content M.size M.faults (λ a. Rmdir a dir.now name.now) tree.old result tree.new }
{
    let within = find_dir(tree, dir)?;
    let Some(node) = look_up(tree, &within.id, name)? else {
        return Err(SrvErr::NoEnt);
    };
    let Some(names) = names_in(tree, &node) else {
        return Err(SrvErr::NotDir);
    };
    if names != 0 {
        return Err(SrvErr::NotEmpty);
    }
    answered(tree.take_out(&within.id, name, &node))
}

/// Moves a name of one directory to a new name of another. Errors: Stale, NotDir, NoEnt, Subtree, and Refused where the
/// second name is there.
pub fn rename<M: Medium>(
    tree: &mut LogTree<M>,
    from: &Handle,
    name: &[u8],
    to: &Handle,
    to_name: &[u8],
) -> Result<(), SrvErr>
    requires kept { IsKept M.content M.size tree.old }
    requires name { is_name name.now ≡ true }
    requires to_name { is_name to_name.now ≡ true }
    ensures { Does M.content M.size M.faults (λ a. Rename a from.now name.now to.now to_name.now) tree.old result
        tree.new }
{
    let source = find_dir(tree, from)?;
    let goal = find_dir(tree, to)?;
    let Some(node) = look_up(tree, &source.id, name)? else {
        return Err(SrvErr::NoEnt);
    };
    if let Some(_) = look_up(tree, &goal.id, to_name)? {
        return Err(SrvErr::Refused);
    }
    if is_below(tree, &node, &goal.id) {
        return Err(SrvErr::Subtree);
    }
    answered(tree.move_name(&source.id, name, &goal.id, to_name, &node))
}
