//! What is kept in memory of the inodes of a medium.

ghost use Rattle.std.specs.Prelude.{◌≡◌, ◌≢◌, ℕ, ◌+◌, ◌^◌, ◌<◌, ◌≤◌, false, true, None, Some, IsSome, IfOk, MatchOption, vec_len, length};
ghost use Rattle.server_trait.specs.Tree.{one_if};
ghost use Rattle.inode_counts.specs.Seen.{counts_of};
ghost use Rattle.inode_tree.specs.Handles.{handle_bytes};
ghost use Rattle.inode_tree.specs.Tables.{is_dir_kind};

use block_alloc::BlockMap;
use inode_counts::InodeCounts;
use inode_dirs::DirIndex;
use nfs2_types::{Handle, Kind, NoMemory};
use std::alloc::Global;

/// A row for each inode: its salt, its kind if it is used, the directory that names it if it is a directory, and where
/// its own names stand; what is counted; and which inodes are free.
#[derive(Drop)]
pub struct InodeTables {
    pub(crate) epoch: u64,
    pub(crate) next: u64,
    pub(crate) salts: Vec<u64>,
    pub(crate) kinds: Vec<Option<Kind>>,
    pub(crate) parents: Vec<u32>,
    pub(crate) dirs: Vec<DirIndex>,
    pub(crate) counts: InodeCounts,
    pub(crate) free: BlockMap,
    ghost same_salts: { vec_len salts ≡ (counts_of counts).inodes },
    ghost same_kinds: { vec_len kinds ≡ (counts_of counts).inodes },
    ghost same_parents: { vec_len parents ≡ (counts_of counts).inodes },
    ghost same_dirs: { vec_len dirs ≡ (counts_of counts).inodes },
    ghost same_free: { length free ≡ (counts_of counts).inodes },
}

/// The handle of an inode: its number, the epoch and its salt, the most significant byte first.
#[tactic(auto, unfolding(crate::specs::Handles::handle_bytes))]
fn handle_of(inode: u32, epoch: u64, salt: u64) -> Handle
    ensures { result ≡ handle_bytes inode epoch salt }
{
    let mut handle = [0; 32];
    handle[..4].copy_from_slice(&inode.to_be_bytes());
    handle[4..12].copy_from_slice(&epoch.to_be_bytes());
    handle[12..20].copy_from_slice(&salt.to_be_bytes());
    handle
}

/// The indexes of so many directories without names.
fn no_names(alloc: Global, inodes: u32) -> Result<Vec<DirIndex>, NoMemory>
    ensures { IfOk result (λ v. vec_len v ≡ inodes) }
{
    let mut dirs = Vec::new(alloc);
    for _inode in 0..inodes {
        dirs.push(DirIndex::new(alloc))?;
    }
    Ok(dirs)
}

/// Whether nodes of a kind are directories.
pub(crate) fn is_directory(kind: Kind) -> bool
    ensures { result ≡ is_dir_kind kind }
{
    match kind {
        Kind::Dir => true,
        Kind::File | Kind::Link => false,
    }
}

impl InodeTables {
    ghost use Rattle.inode_tree.specs.Changes.{AreBare};
    ghost use Rattle.nfs2_types.specs.declared.fattr.Kind.{Kind};
    ghost use Rattle.inode_tree.specs.Changes.{Takes, Gives, Named, Unnamed, Resizes};
    ghost use Rattle.inode_tree.specs.Kept.{tables_of};
    ghost use Rattle.inode_tree.specs.Planned.{epoch_of};

    /// The tables of so many free inodes, whose handles carry this epoch.
    pub fn new(alloc: Global, inodes: u32, epoch: u64) -> Result<InodeTables, NoMemory>
        ensures bare { IfOk result (λ t. AreBare (tables_of t) inodes) }
        ensures epoch { IfOk result (λ t. t.epoch ≡ epoch) }
    {
        let Ok(salts) = Vec::from_elem(alloc, 0, inodes as usize) else {
            return Err(NoMemory);
        };
        let Ok(kinds) = Vec::from_elem(alloc, None, inodes as usize) else {
            return Err(NoMemory);
        };
        let Ok(parents) = Vec::from_elem(alloc, 0, inodes as usize) else {
            return Err(NoMemory);
        };
        // The first salt is that of inodes that a medium held before.
        Ok(InodeTables {
            epoch,
            next: 1,
            salts,
            kinds,
            parents,
            dirs: no_names(alloc, inodes)?,
            counts: InodeCounts::new(alloc, inodes)?,
            free: BlockMap::new(alloc, inodes)?,
        })
    }

    /// The handle of an inode.
    pub fn handle(&self, inode: u32) -> Handle
        requires { inode < (tables_of self.now).counts.inodes }
        ensures { result ≡ (tables_of self.now).handle inode }
    {
        handle_of(inode, self.epoch, self.salts[inode as usize])
    }

    /// The kind of an inode, if it is used.
    pub fn kind(&self, inode: u32) -> Option<Kind>
        requires { inode < (tables_of self.now).counts.inodes }
        ensures { result ≡ (tables_of self.now).kind inode }
    {
        self.kinds[inode as usize]
    }

    /// The used inode of a handle, and its kind.
    pub fn find(&self, handle: &Handle) -> Option<(u32, Kind)>
        ensures { MatchOption result ((i : ℕ) → IsSome ((tables_of self.now).kind i) →
            (tables_of self.now).handle i ≢ handle.now)
            (λ found. (found.0 < (tables_of self.now).counts.inodes)
            × ((tables_of self.now).handle found.0 ≡ handle.now)
            × ((tables_of self.now).kind found.0 ≡ Some found.1)) }
    {
        let inode = u32::from_be_bytes([handle[0], handle[1], handle[2], handle[3]]);
        if inode >= self.free.blocks() {
            return None;
        }
        let Some(kind) = self.kind(inode) else {
            return None;
        };
        if self.handle(inode) != *handle {
            return None;
        }
        Some((inode, kind))
    }

    /// Takes the lowest free inode for a node of a kind without bytes, under a handle of its own, if one is free.
    pub(crate) fn take(&mut self, alloc: Global, kind: Kind) -> Result<Option<u32>, NoMemory>
        requires { (tables_of self.old).counts.used < 2 ^ 63 }
        ensures { IfOk result (λ o. MatchOption o (((i : ℕ) → i < (tables_of self.old).counts.inodes →
            (tables_of self.old).is_free i ≡ false) × (tables_of self.new ≡ tables_of self.old))
            (λ i. (i < (tables_of self.old).counts.inodes) × ((tables_of self.old).is_free i ≡ true) ×
            Takes (tables_of self.old) (tables_of self.new) i kind 0 ×
            ((k : ℕ) → k < i → (tables_of self.old).is_free k ≡ false))) }
    {
        // A server never lasts until its salts are spent; then it would answer NoMemory.
        let Some(next) = self.next.checked_add(1) else {
            return Err(NoMemory);
        };
        let Some(inode) = self.free.take() else {
            return Ok(None);
        };
        let at = inode as usize;
        self.salts[at] = self.next;
        self.next = next;
        self.kinds[at] = Some(kind);
        self.dirs[at] = DirIndex::new(alloc);
        self.counts.take(inode, 0);
        Ok(Some(inode))
    }

    /// Gives back an inode of so many bytes, to which no name leads.
    pub(crate) fn give(&mut self, inode: u32, bytes: u64)
        requires within { inode < (tables_of self.old).counts.inodes }
        requires taken { (tables_of self.old).is_free inode ≡ false }
        requires bytes { bytes ≤ (tables_of self.old).counts.used }
        ensures { Gives (tables_of self.old) (tables_of self.new) inode bytes }
    {
        self.kinds[inode as usize] = None;
        self.counts.free(inode, bytes);
        self.free.give(inode);
    }

    /// A directory has got a name that leads to an inode.
    pub(crate) fn add_name(&mut self, dir: u32, inode: u32, is_dir: bool)
        requires dir { dir < (tables_of self.old).counts.inodes }
        requires inode { inode < (tables_of self.old).counts.inodes }
        requires links { (tables_of self.old).counts.links inode + 1 < 2 ^ 32 }
        requires subdirs { (tables_of self.old).counts.subdirs dir + 1 < 2 ^ 32 }
        requires used { (tables_of self.old).counts.used + 512 < 2 ^ 64 }
        ensures rows { Named (tables_of self.old) (tables_of self.new) dir inode is_dir }
        ensures epoch { epoch_of self.new ≡ epoch_of self.old }
    {
        self.counts.add_name(dir, inode, is_dir);
        if is_dir {
            self.parents[inode as usize] = dir;
        }
    }

    /// A directory has lost a name that led to an inode.
    pub(crate) fn remove_name(&mut self, dir: u32, inode: u32, is_dir: bool)
        requires dir { dir < (tables_of self.old).counts.inodes }
        requires inode { inode < (tables_of self.old).counts.inodes }
        requires links { 1 ≤ (tables_of self.old).counts.links inode }
        requires subdirs { one_if is_dir ≤ (tables_of self.old).counts.subdirs dir }
        requires used { 512 ≤ (tables_of self.old).counts.used }
        ensures { Unnamed (tables_of self.old) (tables_of self.new) dir inode is_dir }
    {
        self.counts.remove_name(dir, inode, is_dir);
    }

    /// A file or a link has other bytes.
    pub(crate) fn resize(&mut self, before: u64, after: u64)
        requires has { before ≤ (tables_of self.old).counts.used }
        requires fits { (tables_of self.old).counts.used + after < 2 ^ 64 }
        ensures { Resizes (tables_of self.old) (tables_of self.new) before after }
    {
        self.counts.resize(before, after);
    }
}
