//! What the tables tell of a node.

ghost use Rattle.std.specs.Prelude.{◌≡◌, ◌<◌};

use crate::tables::InodeTables;
use inode_dirs::Place;

impl InodeTables {
    ghost use Rattle.inode_tree.specs.Kept.{tables_of};

    /// Where a name of a directory stands, if the directory has it.
    pub fn place(&self, dir: u32, name: &[u8]) -> Option<Place>
        requires { dir < (tables_of self.now).counts.inodes }
        ensures { result ≡ (tables_of self.now).place dir name.now }
    {
        self.dirs[dir as usize].get(name)
    }

    /// The directory that names a directory, where one does.
    pub fn parent(&self, dir: u32) -> u32
        requires { dir < (tables_of self.now).counts.inodes }
        ensures { result ≡ (tables_of self.now).parent dir }
    {
        self.parents[dir as usize]
    }

    /// How many names lead to a node.
    pub fn links(&self, inode: u32) -> u32
        requires { inode < (tables_of self.now).counts.inodes }
        ensures { result ≡ (tables_of self.now).counts.links inode }
    {
        self.counts.links(inode)
    }

    /// How many names of a directory lead to directories.
    pub fn subdirs(&self, dir: u32) -> u32
        requires { dir < (tables_of self.now).counts.inodes }
        ensures { result ≡ (tables_of self.now).counts.subdirs dir }
    {
        self.counts.subdirs(dir)
    }

    /// The bytes in use: those of files and links, and `NAME_BYTES` for each name.
    pub fn used(&self) -> u64
        ensures { result ≡ (tables_of self.now).counts.used }
    {
        self.counts.used()
    }

    /// How many inodes there are.
    pub fn inodes(&self) -> u32
        ensures { result ≡ (tables_of self.now).counts.inodes }
    {
        self.free.blocks()
    }
}
