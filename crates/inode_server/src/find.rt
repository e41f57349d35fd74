//! The inodes that handles name.

ghost use Rattle.std.specs.Prelude.{◌≡◌, ◌↔◌, IsTrue};
ghost use Rattle.nfs2_types.specs.declared.fattr.Kind.TheVariants.{File, Dir, Link};
ghost use Rattle.server_trait.specs.Tree.{bytes_in, text_in};
ghost use Rattle.server_trait.specs.Calls.{ContentErr, DirErr};
ghost use Rattle.inode_tree.specs.Kept.{tables_of};
ghost use Rattle.inode_tree.specs.Whole.{tree_in, IsWhole};
ghost use Rattle.inode_server.specs.Found.{FindsAs, FindsLeaf};

use inode_tree::InodeTree;
use nfs2_types::{Handle, Kind};
use outside::Medium;
use server_trait::SrvErr;

/// Whether nodes of a kind are directories.
pub(crate) fn is_dir(kind: Kind) -> bool
    ensures { IsTrue result ↔ (kind ≡ Dir) }
{
    kind == Kind::Dir
}

/// The inode of a directory. Errors: Stale, NotDir.
pub(crate) fn find_dir<M: Medium>(tree: &InodeTree<M>, dir: &Handle) -> Result<u32, SrvErr>
    requires { IsWhole M.content M.size tree.now }
    ensures { FindsAs (tables_of tree.now.tables) (DirErr dir.now (tree_in M.content tree.now)) dir.now Dir result }
{
    let Some((inode, kind)) = tree.tables.find(dir) else {
        return Err(SrvErr::Stale);
    };
    match kind {
        Kind::Dir => Ok(inode),
        Kind::File | Kind::Link => Err(SrvErr::NotDir),
    }
}

/// The inode of a file. Errors: Stale, WrongKind.
pub(crate) fn find_file<M: Medium>(tree: &InodeTree<M>, file: &Handle) -> Result<u32, SrvErr>
    requires { IsWhole M.content M.size tree.now }
    ensures { FindsAs (tables_of tree.now.tables) (ContentErr bytes_in file.now (tree_in M.content tree.now))
        file.now File result }
{
    let Some((inode, kind)) = tree.tables.find(file) else {
        return Err(SrvErr::Stale);
    };
    match kind {
        Kind::File => Ok(inode),
        Kind::Dir | Kind::Link => Err(SrvErr::WrongKind),
    }
}

/// The inode of a link. Errors: Stale, WrongKind.
pub(crate) fn find_link<M: Medium>(tree: &InodeTree<M>, link: &Handle) -> Result<u32, SrvErr>
    requires { IsWhole M.content M.size tree.now }
    ensures { FindsAs (tables_of tree.now.tables) (ContentErr text_in link.now (tree_in M.content tree.now))
        link.now Link result }
{
    let Some((inode, kind)) = tree.tables.find(link) else {
        return Err(SrvErr::Stale);
    };
    match kind {
        Kind::Link => Ok(inode),
        Kind::File | Kind::Dir => Err(SrvErr::WrongKind),
    }
}

/// The inode of a file or a link, and its kind. Errors: Stale, WrongKind.
pub(crate) fn find_leaf<M: Medium>(
    tree: &InodeTree<M>,
    node: &Handle,
) -> Result<(u32, Kind), SrvErr>
    requires { IsWhole M.content M.size tree.now }
    ensures { FindsLeaf (tables_of tree.now.tables) (tree_in M.content tree.now) node.now result }
{
    let Some((inode, kind)) = tree.tables.find(node) else {
        return Err(SrvErr::Stale);
    };
    match kind {
        Kind::Dir => Err(SrvErr::WrongKind),
        Kind::File | Kind::Link => Ok((inode, kind)),
    }
}
