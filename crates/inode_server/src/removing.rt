//! Calls that give a node a name more, or take one out.

ghost use Rattle.std.specs.Prelude.{◌≡◌, ◌<◌, ◌≢◌, ℕ, true, [], Some, OnOk, length};
ghost use Rattle.nfs2_types.specs.Names.{is_name};
ghost use Rattle.nfs2_types.specs.declared.fattr.Kind.TheVariants.{Dir};
ghost use Rattle.outside.specs.Causes.{WriteHasCause};
ghost use Rattle.server_trait.specs.Tree.{unnamed, let_go};
ghost use Rattle.server_trait.specs.Calls.{Link, Remove, Rmdir};
ghost use Rattle.inode_dirs.specs.Files.{File};
ghost use Rattle.inode_store.specs.Store.{file_in};
ghost use Rattle.inode_tree.specs.Kept.{tables_of};
ghost use Rattle.inode_tree.specs.Whole.{tree_in, IsWhole};
ghost use Rattle.inode_server.specs.Found.{IsFound, FindsLeaf};
ghost use Rattle.inode_server.specs.State.{Does};

use crate::answers::srv_error;
use crate::find::{find_dir, find_leaf, is_dir};
use inode_dirs::Place;
use inode_tree::InodeTree;
use nfs2_types::{Handle, Kind};
use outside::{Medium, MediumErr};
use server_trait::SrvErr;

/// Gives a file or a link one name more. Errors: Stale, WrongKind for a directory, NotDir, Exists, Full.
pub(crate) fn link<M: Medium>(
    tree: &mut InodeTree<M>,
    node: &Handle,
    dir: &Handle,
    name: &[u8],
) -> Result<(), SrvErr>
    requires whole { IsWhole M.content M.size tree.old }
    requires name { is_name name.now ≡ true }
    ensures { Does M.content M.size M.faults (λ a. Link a node.now dir.now name.now) tree.old result tree.new }
{
    let (inode, kind) = find_leaf(tree, node)?;
    let within = match find_dir(tree, dir) {
        Ok(within) => within,
        Err(e) => return Err(e),
    };
    if tree.tables.place(within, name).is_some() {
        return Err(SrvErr::Exists);
    }
    if tree.tables.used() + 512 > tree.limits.bytes {
        return Err(SrvErr::Full);
    }
    match tree.add_name(within, name, inode, kind) {
        Ok(()) => Ok(()),
        Err(e) => Err(srv_error(e)),
    }
}

/// Takes a name out of a directory, which leads to another node of a kind. That goes with its last name.
fn drop_name<M: Medium>(
    tree: &mut InodeTree<M>,
    dir: u32,
    name: &[u8],
    place: Place,
    kind: Kind,
) -> Result<(), MediumErr>
    requires whole { IsWhole M.content M.size tree.old }
    requires within { dir < tree.old.store.inodes }
    requires dir { (tables_of tree.old.tables).kind dir ≡ Some Dir }
    requires there { (tables_of tree.old.tables).place dir name.now ≡ Some place }
    requires node { (tables_of tree.old.tables).kind place.inode ≡ Some kind }
    requires another { place.inode ≢ dir }
    requires other { place.inode ≢ 0 }
    requires bare { (f : File) → file_in M.content tree.old.store place.inode ≡ Some f → f.kind ≡ Dir → f.bytes ≡ [] }
    ensures whole { OnOk result (IsWhole M.content M.size tree.new) }
    ensures node { OnOk result (tree_in M.content tree.new ≡ let_go (unnamed (tree_in M.content tree.old)
        ((tables_of tree.old.tables).handle dir) name.now) ((tables_of tree.old.tables).handle place.inode)) }
    ensures first { OnOk result (M.content tree.new.store.medium 0 ≡ M.content tree.old.store.medium 0) }
    ensures limits { tree.new.limits ≡ tree.old.limits }
    ensures area { tree.new.store.area ≡ tree.old.store.area }
    ensures inodes { tree.new.store.inodes ≡ tree.old.store.inodes }
    ensures size { M.size tree.new.store.medium ≡ M.size tree.old.store.medium }
    ensures cause { WriteHasCause (M.faults tree.old.store.medium) (M.faults tree.new.store.medium) result }
{
    tree.remove_name(dir, name, place, kind)?;
    if tree.tables.links(place.inode) > 0 {
        return Ok(());
    }
    let gone = tree.inode(place.inode)?;
    tree.give_node(place.inode, gone.size)?;
    Ok(())
}

/// Takes out a name of a file or a link, which goes with its last name. Errors: Stale, NotDir, NoEnt, WrongKind.
pub(crate) fn remove<M: Medium>(
    tree: &mut InodeTree<M>,
    dir: &Handle,
    name: &[u8],
) -> Result<(), SrvErr>
    requires whole { IsWhole M.content M.size tree.old }
    requires name { is_name name.now ≡ true }
    ensures { Does M.content M.size M.faults (λ a. Remove a dir.now name.now) tree.old result tree.new }
{
    let within = find_dir(tree, dir)?;
    let Some(place) = tree.tables.place(within, name) else {
        return Err(SrvErr::NoEnt);
    };
    let Some(kind) = tree.tables.kind(place.inode) else {
        unreachable!();
    };
    if is_dir(kind) {
        return Err(SrvErr::WrongKind);
    }
    match drop_name(tree, within, name, place, kind) {
        Ok(()) => Ok(()),
        Err(e) => Err(srv_error(e)),
    }
}

/// Takes out the name of a directory of so many bytes, and the directory. Errors: NotEmpty.
fn drop_dir<M: Medium>(
    tree: &mut InodeTree<M>,
    dir: &Handle,
    within: u32,
    name: &[u8],
    place: Place,
    size: u32,
) -> Result<(), SrvErr>
    requires whole { IsWhole M.content M.size tree.old }
    requires dir { IsFound (tables_of tree.old.tables) dir.now Dir within }
    requires there { (tables_of tree.old.tables).place within name.now ≡ Some place }
    requires node { (tables_of tree.old.tables).kind place.inode ≡ Some Dir }
    requires size { (f : File) → file_in M.content tree.old.store place.inode ≡ Some f → length f.bytes ≡ size }
    ensures { Does M.content M.size M.faults (λ a. Rmdir a dir.now name.now) tree.old result tree.new }
{
    if size > 0 {
        return Err(SrvErr::NotEmpty);
    }
    match drop_name(tree, within, name, place, Kind::Dir) {
        Ok(()) => Ok(()),
        Err(e) => Err(srv_error(e)),
    }
}

/// Takes out an empty directory and its name. Errors: Stale, NotDir, NoEnt, NotEmpty.
pub(crate) fn rmdir<M: Medium>(
    tree: &mut InodeTree<M>,
    dir: &Handle,
    name: &[u8],
) -> Result<(), SrvErr>
    requires whole { IsWhole M.content M.size tree.old }
    requires name { is_name name.now ≡ true }
    ensures { Does M.content M.size M.faults (λ a. Rmdir a dir.now name.now) tree.old result tree.new }
{
    let within = find_dir(tree, dir)?;
    let Some(place) = tree.tables.place(within, name) else {
        return Err(SrvErr::NoEnt);
    };
    let Some(kind) = tree.tables.kind(place.inode) else {
        unreachable!();
    };
    if !is_dir(kind) {
        return Err(SrvErr::NotDir);
    }
    match tree.inode(place.inode) {
        Ok(found) => drop_dir(tree, dir, within, name, place, found.size),
        Err(e) => Err(srv_error(e)),
    }
}
