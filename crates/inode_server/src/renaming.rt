//! A name that moves.

ghost use Rattle.std.specs.Prelude.{◌≡◌, ◌≢◌, ◌↔◌, ◌+◌, ◌<◌, ℕ, true, None, Some, OnOk, IsTrue};
ghost use Rattle.nfs2_types.specs.Names.{is_name};
ghost use Rattle.nfs2_types.specs.declared.fattr.Kind.TheVariants.{Dir};
ghost use Rattle.outside.specs.Causes.{WriteHasCause};
ghost use Rattle.server_trait.specs.Tree.{named, unnamed};
ghost use Rattle.server_trait.specs.Calls.{Rename};
ghost use Rattle.inode_tree.specs.Kept.{tables_of};
ghost use Rattle.inode_tree.specs.Tables.{climb, IsUnder};
ghost use Rattle.inode_tree.specs.Changes.{inode_of};
ghost use Rattle.inode_tree.specs.Whole.{tree_in, IsWhole};
ghost use Rattle.inode_server.specs.Found.{IsFound, IsWay};
ghost use Rattle.inode_server.specs.State.{Does};

use crate::answers::srv_error;
use crate::find::{find_dir, is_dir};
use inode_dirs::Place;
use inode_tree::{InodeTables, InodeTree};
use nfs2_types::{Handle, Kind};
use outside::{Medium, MediumErr};
use server_trait::SrvErr;

/// Whether a directory is another or lies below it. On the way up no directory is passed twice, unless the way leads
/// round and never to the other.
fn is_under(tables: &InodeTables, top: u32, dir: u32) -> bool
    requires way { (k : ℕ) → IsWay (tables_of tables.now) k dir →
        climb (tables_of tables.now) k dir < (tables_of tables.now).counts.inodes }
    ensures { IsTrue result ↔ IsUnder (tables_of tables.now) top dir }
{
    let mut at = dir;
    for _step in 0..tables.inodes() {
        if at == top {
            return true;
        }
        if tables.links(at) == 0 {
            return false;
        }
        at = tables.parent(at);
    }
    false
}

/// Whether a node of a kind is a directory that is another or has it below itself.
fn moves_below(tables: &InodeTables, kind: Kind, top: u32, dir: u32) -> bool
    requires way { (k : ℕ) → IsWay (tables_of tables.now) k dir →
        climb (tables_of tables.now) k dir < (tables_of tables.now).counts.inodes }
    ensures { IsTrue result ↔ ((kind ≡ Dir) × IsUnder (tables_of tables.now) top dir) }
{
    is_dir(kind) && is_under(tables, top, dir)
}

/// Takes a name out of a directory and gives it to one that lacks it, or to the same under another.
fn move_name<M: Medium>(
    tree: &mut InodeTree<M>,
    from: u32,
    name: &[u8],
    to: u32,
    to_name: &[u8],
    place: Place,
    kind: Kind,
) -> Result<(), MediumErr>
    requires whole { IsWhole M.content M.size tree.old }
    requires within { from < tree.old.store.inodes }
    requires from { (tables_of tree.old.tables).kind from ≡ Some Dir }
    requires into { to < tree.old.store.inodes }
    requires to { (tables_of tree.old.tables).kind to ≡ Some Dir }
    requires there { (tables_of tree.old.tables).place from name.now ≡ Some place }
    requires node { (tables_of tree.old.tables).kind place.inode ≡ Some kind }
    requires name { is_name to_name.now ≡ true }
    requires new { (tables_of tree.old.tables).place to to_name.now ≡ None }
    ensures whole { OnOk result (IsWhole M.content M.size tree.new) }
    ensures node { OnOk result (tree_in M.content tree.new ≡ named (unnamed (tree_in M.content tree.old)
        ((tables_of tree.old.tables).handle from) name.now) ((tables_of tree.old.tables).handle to) to_name.now
        ((tables_of tree.old.tables).handle place.inode)) }
    ensures first { OnOk result (M.content tree.new.store.medium 0 ≡ M.content tree.old.store.medium 0) }
    ensures limits { tree.new.limits ≡ tree.old.limits }
    ensures area { tree.new.store.area ≡ tree.old.store.area }
    ensures inodes { tree.new.store.inodes ≡ tree.old.store.inodes }
    ensures size { M.size tree.new.store.medium ≡ M.size tree.old.store.medium }
    ensures cause { WriteHasCause (M.faults tree.old.store.medium) (M.faults tree.new.store.medium) result }
{
    tree.remove_name(from, name, place, kind)?;
    tree.add_name(to, to_name, place.inode, kind)?;
    Ok(())
}

/// Moves a name that leads to a place to a name that is not there, unless a directory would lie below itself. Errors:
/// Subtree.
fn move_to<M: Medium>(
    tree: &mut InodeTree<M>,
    from: &Handle,
    within: u32,
    name: &[u8],
    to: &Handle,
    into: u32,
    to_name: &[u8],
    place: Place,
    kind: Kind,
) -> Result<(), SrvErr>
    requires whole { IsWhole M.content M.size tree.old }
    requires from { IsFound (tables_of tree.old.tables) from.now Dir within }
    requires to { IsFound (tables_of tree.old.tables) to.now Dir into }
    requires there { (tables_of tree.old.tables).place within name.now ≡ Some place }
    requires node { (tables_of tree.old.tables).kind place.inode ≡ Some kind }
    requires name { is_name to_name.now ≡ true }
    requires new { (tables_of tree.old.tables).place into to_name.now ≡ None }
    ensures { Does M.content M.size M.faults (λ a. Rename a from.now name.now to.now to_name.now)
        tree.old result tree.new }
{
    if moves_below(&tree.tables, kind, place.inode, into) {
        return Err(SrvErr::Subtree);
    }
    match move_name(tree, within, name, into, to_name, place, kind) {
        Ok(()) => Ok(()),
        Err(e) => Err(srv_error(e)),
    }
}

/// Moves a name of one directory to a name of another. Errors: Stale, NotDir, NoEnt, Subtree, and Refused where the
/// second name is there.
pub(crate) fn rename<M: Medium>(
    tree: &mut InodeTree<M>,
    from: &Handle,
    name: &[u8],
    to: &Handle,
    to_name: &[u8],
) -> Result<(), SrvErr>
    requires whole { IsWhole M.content M.size tree.old }
    requires name { is_name name.now ≡ true }
    requires to_name { is_name to_name.now ≡ true }
    ensures { Does M.content M.size M.faults (λ a. Rename a from.now name.now to.now to_name.now)
        tree.old result tree.new }
{
    let within = find_dir(tree, from)?;
    let into = match find_dir(tree, to) {
        Ok(into) => into,
        Err(e) => return Err(e),
    };
    let Some(place) = tree.tables.place(within, name) else {
        return Err(SrvErr::NoEnt);
    };
    if tree.tables.place(into, to_name).is_some() {
        return Err(SrvErr::Refused);
    }
    let Some(kind) = tree.tables.kind(place.inode) else {
        unreachable!();
    };
    move_to(tree, from, within, name, to, into, to_name, place, kind)
}
