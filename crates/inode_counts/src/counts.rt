//! What is counted of each inode.

ghost use Rattle.std.specs.Prelude.{◌≡◌, ◌+◌, ◌^◌, ◌<◌, ◌≤◌, ℕ, IfOk, vec_len};
ghost use Rattle.server_trait.specs.Tree.{one_if};
ghost use Rattle.server_trait.specs.declared.server.TheConstants.{NAME_BYTES as PER_NAME};
ghost use Rattle.inode_counts.specs.Changes.{CountsNew, CountsFreed, CountsNamed, CountsUnnamed, CountsResized};

use nfs2_types::NoMemory;
use server_trait::NAME_BYTES;
use std::alloc::Global;

/// The counts of so many inodes. Each change of the table is told by one call.
#[derive(Debug, Drop)]
pub struct InodeCounts {
    links: Vec<u32>,
    subdirs: Vec<u32>,
    used: u64,
    ghost same_size: { vec_len subdirs ≡ vec_len links },
}

impl InodeCounts {
    ghost use Rattle.inode_counts.specs.Seen.{counts_of};

    /// The counts of so many free inodes.
    pub fn new(alloc: Global, inodes: u32) -> Result<InodeCounts, NoMemory>
        ensures inodes { IfOk result (λ c. (counts_of c).inodes ≡ inodes) }
        ensures links { IfOk result (λ c. (k : ℕ) → (counts_of c).links k ≡ 0) }
        ensures subdirs { IfOk result (λ c. (k : ℕ) → (counts_of c).subdirs k ≡ 0) }
        ensures used { IfOk result (λ c. (counts_of c).used ≡ 0) }
    {
        let links = Vec::from_elem(alloc, 0, inodes as usize).map_err(|_| NoMemory)?;
        let subdirs = Vec::from_elem(alloc, 0, inodes as usize).map_err(|_| NoMemory)?;
        Ok(InodeCounts {
            links,
            subdirs,
            used: 0,
        })
    }

    /// How many names lead to an inode.
    pub fn links(&self, inode: u32) -> u32
        requires { inode < (counts_of self.now).inodes }
        ensures { result ≡ (counts_of self.now).links inode }
    {
        self.links[inode as usize]
    }

    /// How many names of a directory lead to directories.
    pub fn subdirs(&self, inode: u32) -> u32
        requires { inode < (counts_of self.now).inodes }
        ensures { result ≡ (counts_of self.now).subdirs inode }
    {
        self.subdirs[inode as usize]
    }

    /// The bytes in use: those of files and links, and `NAME_BYTES` for each name.
    pub fn used(&self) -> u64
        ensures { result ≡ (counts_of self.now).used }
    {
        self.used
    }

    /// A free inode is taken, with so many bytes and without a name.
    pub fn take(&mut self, inode: u32, bytes: u64)
        requires within { inode < (counts_of self.old).inodes }
        requires fits { (counts_of self.old).used + bytes < 2 ^ 64 }
        ensures { CountsNew (counts_of self.old) (counts_of self.new) inode bytes }
    {
        self.links[inode as usize] = 0;
        self.subdirs[inode as usize] = 0;
        self.used += bytes;
    }

    /// An inode of so many bytes, to which no name leads, is free again.
    pub fn free(&mut self, inode: u32, bytes: u64)
        requires { bytes ≤ (counts_of self.old).used }
        ensures { CountsFreed (counts_of self.old) (counts_of self.new) inode bytes }
    {
        self.used -= bytes;
    }

    /// A directory gets a name that leads to an inode.
    pub fn add_name(&mut self, dir: u32, inode: u32, is_dir: bool)
        requires dir { dir < (counts_of self.old).inodes }
        requires inode { inode < (counts_of self.old).inodes }
        requires links { (counts_of self.old).links inode + 1 < 2 ^ 32 }
        requires subdirs { (counts_of self.old).subdirs dir + 1 < 2 ^ 32 }
        requires fits { (counts_of self.old).used + PER_NAME < 2 ^ 64 }
        ensures { CountsNamed (counts_of self.old) (counts_of self.new) dir inode is_dir }
    {
        self.links[inode as usize] += 1;
        self.subdirs[dir as usize] += u32::from(is_dir);
        self.used += NAME_BYTES;
    }

    /// A directory loses a name that led to an inode.
    pub fn remove_name(&mut self, dir: u32, inode: u32, is_dir: bool)
        requires dir { dir < (counts_of self.old).inodes }
        requires inode { inode < (counts_of self.old).inodes }
        requires links { 1 ≤ (counts_of self.old).links inode }
        requires subdirs { one_if is_dir ≤ (counts_of self.old).subdirs dir }
        requires used { PER_NAME ≤ (counts_of self.old).used }
        ensures { CountsUnnamed (counts_of self.old) (counts_of self.new) dir inode is_dir }
    {
        self.links[inode as usize] -= 1;
        self.subdirs[dir as usize] -= u32::from(is_dir);
        self.used -= NAME_BYTES;
    }

    /// A file or a link has other bytes.
    pub fn resize(&mut self, before: u64, after: u64)
        requires has { before ≤ (counts_of self.old).used }
        requires fits { (counts_of self.old).used + after < 2 ^ 64 }
        ensures { CountsResized (counts_of self.old) (counts_of self.new) before after }
    {
        self.used = self.used - before + after;
    }
}
