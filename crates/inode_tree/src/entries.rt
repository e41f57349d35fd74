//! What a medium holds is entered in the tables as it stands.

ghost use Rattle.std.specs.Prelude.{◌≡◌, ◌+◌, ◌^◌, ◌<◌, OnOk};
ghost use Rattle.inode_tree.specs.Changes.{Takes};
ghost use Rattle.inode_tree.specs.Entries.{Enters};
ghost use Rattle.inode_tree.specs.Kept.{tables_of};
ghost use Rattle.inode_tree.specs.Planned.{epoch_of};
ghost use Rattle.inode_tree.specs.Tables.{is_dir_kind};

use crate::tables::{InodeTables, is_directory};
use inode_dirs::{DirIndex, Place};
use nfs2_types::{Kind, NoMemory};
use std::alloc::Global;

impl InodeTables {
    /// The number that all handles carry.
    pub fn epoch(&self) -> u64
        ensures { result ≡ epoch_of self.now }
    {
        self.epoch
    }

    /// An inode is used, for a node of a kind and of so many bytes, and as a directory has no names.
    pub fn enter(&mut self, alloc: Global, inode: u32, kind: Kind, bytes: u64)
        requires within { inode < (tables_of self.old).counts.inodes }
        requires fits { (tables_of self.old).counts.used + bytes < 2 ^ 64 }
        ensures rows { Takes (tables_of self.old) (tables_of self.new) inode kind bytes }
        ensures epoch { epoch_of self.new ≡ epoch_of self.old }
    {
        let at = inode as usize;
        self.kinds[at] = Some(kind);
        self.dirs[at] = DirIndex::new(alloc);
        self.counts.take(inode, bytes);
        self.free.claim(inode);
    }

    /// A name of a directory stands at a place, which leads to a node of a kind. After want of memory the tables are of
    /// no use.
    pub fn enter_name(
        &mut self,
        dir: u32,
        name: Vec<u8>,
        place: Place,
        kind: Kind,
    ) -> Result<(), NoMemory>
        requires dir { dir < (tables_of self.old).counts.inodes }
        requires inode { place.inode < (tables_of self.old).counts.inodes }
        requires links { (tables_of self.old).counts.links place.inode + 1 < 2 ^ 32 }
        requires subdirs { (tables_of self.old).counts.subdirs dir + 1 < 2 ^ 32 }
        requires used { (tables_of self.old).counts.used + 512 < 2 ^ 64 }
        ensures rows { OnOk result (Enters (tables_of self.old) (tables_of self.new) dir name.items place
            (is_dir_kind kind)) }
        ensures epoch { epoch_of self.new ≡ epoch_of self.old }
    {
        let index = &mut self.dirs[dir as usize];
        index.insert(name, place)?;
        self.add_name(dir, place.inode, is_directory(kind));
        Ok(())
    }
}
