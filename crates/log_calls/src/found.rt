//! The nodes that handles name.

ghost use Rattle.std.specs.Prelude.{◌≡◌, IsSome, IsSomeAnd, length};
ghost use Rattle.server_trait.specs.Calls.{ContentErr, DirErr};
ghost use Rattle.server_trait.specs.Step.{IsNo};
ghost use Rattle.server_trait.specs.Tree.{bytes_at, bytes_in, names_at, names_in, text_at, text_in};
ghost use Rattle.log_tree.specs.Held.{handle_of};
ghost use Rattle.log_changes.specs.Kept.{IsKept, log_tree};
ghost use Rattle.log_calls.specs.Answers.{FindsAs, IsFound, IsIdOf, LeafErr, attr_of};

use log_changes::LogTree;
use log_index::NodeInfo;
use log_records::NodeId;
use nfs2_types::{Handle, Kind, Time};
use outside::Medium;
use server_trait::{NodeAttr, SrvErr};

/// A node, and what is kept of it.
#[derive(Clone, Copy)]
pub struct Found {
    pub id: NodeId,
    pub info: NodeInfo,
}

impl Found {
    /// The attributes of the node. Its time is zero.
    pub(crate) fn attr(&self) -> NodeAttr
        ensures { result ≡ attr_of self.now }
    {
        NodeAttr {
            kind: self.info.kind,
            number: u64::from_be_bytes(self.id),
            mode: self.info.mode,
            uid: self.info.uid,
            gid: self.info.gid,
            size: self.info.size,
            links: self.info.links,
            time: Time { secs: 0, micros: 0 },
        }
    }
}

/// The handle of a node: its id, and zeros.
pub fn handle_of(id: &NodeId) -> Handle
    ensures { result ≡ handle_of id.now }
{
    let mut handle = [0; 32];
    handle[..8].copy_from_slice(id);
    handle
}

/// The id of a handle, if it is the handle of one.
fn id_of(handle: &Handle) -> Option<NodeId>
    ensures { IsIdOf handle.now result }
{
    let mut id = [0; 8];
    id.copy_from_slice(&handle[..8]);
    if handle_of(&id) == *handle {
        Some(id)
    } else {
        None
    }
}

/// A node by its handle.
pub(crate) fn find<M: Medium>(tree: &LogTree<M>, handle: &Handle) -> Option<Found>
    requires { IsKept M.content M.size tree.now }
    ensures { IsFound (log_tree M.content M.size tree.now) handle.now result }
{
    let Some(id) = id_of(handle) else {
        return None;
    };
    let Some(info) = tree.info(&id) else {
        return None;
    };
    Some(Found { id, info })
}

/// A directory by its handle. Errors: Stale, NotDir.
pub(crate) fn find_dir<M: Medium>(tree: &LogTree<M>, dir: &Handle) -> Result<Found, SrvErr>
    requires { IsKept M.content M.size tree.now }
    ensures { let t = log_tree M.content M.size tree.now in
        FindsAs (λ f. (dir.now ≡ handle_of f.id) × IsSome (names_at t dir.now)) (DirErr dir.now t) result }
{
    match find(tree, dir) {
        Some(found) if found.info.kind == Kind::Dir => Ok(found),
        Some(_) => Err(SrvErr::NotDir),
        None => Err(SrvErr::Stale),
    }
}

/// A file by its handle. Errors: Stale, WrongKind.
pub(crate) fn find_file<M: Medium>(tree: &LogTree<M>, file: &Handle) -> Result<Found, SrvErr>
    requires { IsKept M.content M.size tree.now }
    ensures { let t = log_tree M.content M.size tree.now in
        FindsAs (λ f. (file.now ≡ handle_of f.id) × IsSomeAnd (bytes_at t file.now) (λ b. f.info.size ≡ length b))
        (ContentErr bytes_in file.now t) result }
{
    match find(tree, file) {
        Some(found) if found.info.kind == Kind::File => Ok(found),
        Some(_) => Err(SrvErr::WrongKind),
        None => Err(SrvErr::Stale),
    }
}

/// A file or a link by its handle. Errors: Stale, WrongKind.
pub(crate) fn find_leaf<M: Medium>(tree: &LogTree<M>, leaf: &Handle) -> Result<Found, SrvErr>
    requires { IsKept M.content M.size tree.now }
    ensures { let t = log_tree M.content M.size tree.now in
        FindsAs (λ f. (leaf.now ≡ handle_of f.id) × IsNo names_in t leaf.now) (LeafErr leaf.now t) result }
{
    match find(tree, leaf) {
        Some(found) if found.info.kind == Kind::Dir => Err(SrvErr::WrongKind),
        Some(found) => Ok(found),
        None => Err(SrvErr::Stale),
    }
}

/// A link by its handle. Errors: Stale, WrongKind.
pub(crate) fn find_link<M: Medium>(tree: &LogTree<M>, link: &Handle) -> Result<Found, SrvErr>
    requires { IsKept M.content M.size tree.now }
    ensures { let t = log_tree M.content M.size tree.now in
        FindsAs (λ f. (link.now ≡ handle_of f.id) × IsSome (text_at t link.now)) (ContentErr text_in link.now t)
        result }
{
    match find(tree, link) {
        Some(found) if found.info.kind == Kind::Link => Ok(found),
        Some(_) => Err(SrvErr::WrongKind),
        None => Err(SrvErr::Stale),
    }
}
