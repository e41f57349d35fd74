//! The calls of a file server.

ghost use Rattle.std.specs.Prelude.{◌≡◌, ◌≤◌, ◌+◌, true, length};
ghost use Rattle.nfs2_types.specs.Names.{is_name};
ghost use Rattle.server_trait.specs.Tree.{Server};
ghost use Rattle.server_trait.specs.Step.{HasTree};
ghost use Rattle.server_trait.specs.Calls.{RootIs, Attr, SetAttr, Read, ReadLink, Write, SetSize, Lookup, ListNames, Create, Mkdir, Symlink, Link, Remove, Rmdir, Rename, Reboot, Wipe};

use nfs2_types::{Blob, Handle, Kind, Time};
use std::alloc::Global;
use thiserror::Error;

/// The bytes that a name counts for.
pub const NAME_BYTES: u64 = 512;

/// The most that a server holds: nodes, and bytes of files and links with `NAME_BYTES` for each name.
#[derive(Clone, Copy, Debug, PartialEq, Eq)]
pub struct ServerLimits {
    pub nodes: u32,
    pub bytes: u64,
}

/// The attributes of a node. `size` is in bytes, or for a directory the number of its names; `links` is the number of
/// names that lead to it, or for a directory the number of its subdirectories. Nothing is said of `time`.
#[derive(Clone, Copy, Debug, PartialEq, Eq)]
pub struct NodeAttr {
    pub kind: Kind,
    pub number: u64,
    pub mode: u32,
    pub uid: u32,
    pub gid: u32,
    pub size: u32,
    pub links: u32,
    pub time: Time,
}

impl NodeAttr {
    ghost use Rattle.std.specs.Prelude.{◌↔◌, IsTrue};
    ghost use Rattle.nfs2_types.specs.declared.fattr.Kind.TheVariants.{File, Dir, Link as LinkKind};

    /// Whether it is a file.
    pub fn is_file(&self) -> bool
        ensures { IsTrue result ↔ (self.now.kind ≡ File) }
    {
        self.kind == Kind::File
    }

    /// Whether it is a directory.
    pub fn is_dir(&self) -> bool
        ensures { IsTrue result ↔ (self.now.kind ≡ Dir) }
    {
        self.kind == Kind::Dir
    }

    /// Whether it is a link.
    pub fn is_link(&self) -> bool
        ensures { IsTrue result ↔ (self.now.kind ≡ LinkKind) }
    {
        self.kind == Kind::Link
    }
}

/// A name of a directory, and the handle to which it leads.
#[derive(Debug, Drop)]
pub struct Listed {
    pub name: Blob,
    pub handle: Handle,
}

/// Why a server does not do a call. Where several of the first nine apply, any of them may be answered.
#[derive(Debug, Drop, Error)]
pub enum SrvErr {
    #[error("no such handle")]
    Stale,
    #[error("no such name")]
    NoEnt,
    #[error("the name is taken")]
    Exists,
    #[error("not a directory")]
    NotDir,
    #[error("another kind of node")]
    WrongKind,
    #[error("the directory has names")]
    NotEmpty,
    #[error("a directory can't move below itself")]
    Subtree,
    #[error("the server does not do this")]
    Refused,
    #[error("the server is full")]
    Full,
    #[error("the server failed")]
    Fault,
    #[error("out of memory")]
    NoMemory,
}

/// A file server: a tree of nodes under handles of its own. After `Fault` or `NoMemory` it has no tree until a
/// `wipe` answers Ok; any other error leaves the tree as it was.
pub trait FileServer: Drop {
    /// Its tree, if it has one, its limits, and how often it has failed.
    ghost state: { Self → Server };

    /// The most that it holds, which never changes.
    fn limits(&self) -> ServerLimits
        ensures { result ≡ (state self.now).limits };

    /// The handle of the root.
    fn root(&self) -> Handle
        requires { HasTree (state self.now) }
        ensures { RootIs (state self.now) result };

    /// The attributes of a node. Errors: Stale.
    fn attr(&mut self, node: &Handle) -> Result<NodeAttr, SrvErr>
        requires { HasTree (state self.old) }
        ensures { Attr (state self.old) node.now result (state self.new) };

    /// Sets the mode and the owners of a node. Errors: Stale.
    fn set_attr(&mut self, node: &Handle, mode: u32, uid: u32, gid: u32) -> Result<(), SrvErr>
        requires { HasTree (state self.old) }
        ensures { SetAttr (state self.old) node.now mode uid gid result (state self.new) };

    /// The bytes of a file from an offset up to the count or the end. Errors: Stale, WrongKind.
    fn read(&mut self, file: &Handle, offset: u32, count: u32) -> Result<Vec<u8>, SrvErr>
        requires { HasTree (state self.old) }
        ensures { Read (state self.old) file.now offset count result (state self.new) };

    /// The text of a link. Errors: Stale, WrongKind.
    fn read_link(&mut self, link: &Handle) -> Result<Vec<u8>, SrvErr>
        requires { HasTree (state self.old) }
        ensures { ReadLink (state self.old) link.now result (state self.new) };

    /// Puts bytes from the front of a piece, at least one, at an offset of a file, and answers how many. A gap before
    /// the offset is zeros. Errors: Stale, WrongKind, Refused where the offset lies past the end, and Full.
    fn write(&mut self, file: &Handle, offset: u32, piece: &[u8]) -> Result<u32, SrvErr>
        requires tree { HasTree (state self.old) }
        requires some { 1 ≤ length piece.now }
        requires end { offset + length piece.now ≤ 8388608 }
        ensures { Write (state self.old) file.now offset piece.now result (state self.new) };

    /// Cuts a file, or fills it with zeros. Errors: Stale, WrongKind, Full.
    fn set_size(&mut self, file: &Handle, size: u32) -> Result<(), SrvErr>
        requires tree { HasTree (state self.old) }
        requires end { size ≤ 8388608 }
        ensures { SetSize (state self.old) file.now size result (state self.new) };

    /// The handle to which a name leads. Errors: Stale, NotDir, NoEnt.
    fn lookup(&mut self, dir: &Handle, name: &[u8]) -> Result<Handle, SrvErr>
        requires tree { HasTree (state self.old) }
        requires name { is_name name.now ≡ true }
        ensures { Lookup (state self.old) dir.now name.now result (state self.new) };

    /// The names of a directory, each once, in any order. Errors: Stale, NotDir.
    fn list(&mut self, dir: &Handle) -> Result<Vec<Listed>, SrvErr>
        requires { HasTree (state self.old) }
        ensures { ListNames (state self.old) dir.now result (state self.new) };

    /// Makes a file without bytes, of mode, uid and gid 0. Errors: Stale, NotDir, Exists, Full.
    fn create(&mut self, dir: &Handle, name: &[u8]) -> Result<Handle, SrvErr>
        requires tree { HasTree (state self.old) }
        requires name { is_name name.now ≡ true }
        ensures { Create (state self.old) dir.now name.now result (state self.new) };

    /// Makes a directory of mode, uid and gid 0. Errors: Stale, NotDir, Exists, Full.
    fn mkdir(&mut self, dir: &Handle, name: &[u8]) -> Result<Handle, SrvErr>
        requires tree { HasTree (state self.old) }
        requires name { is_name name.now ≡ true }
        ensures { Mkdir (state self.old) dir.now name.now result (state self.new) };

    /// Makes a link with a text, of mode, uid and gid 0. Errors: Stale, NotDir, Exists, Full.
    fn symlink(&mut self, dir: &Handle, name: &[u8], text: &[u8]) -> Result<Handle, SrvErr>
        requires tree { HasTree (state self.old) }
        requires name { is_name name.now ≡ true }
        requires text { length text.now ≤ 1024 }
        ensures { Symlink (state self.old) dir.now name.now text.now result (state self.new) };

    /// Gives a file or a link one name more. Errors: Stale, WrongKind for a directory, NotDir, Exists, Full.
    fn link(&mut self, node: &Handle, dir: &Handle, name: &[u8]) -> Result<(), SrvErr>
        requires tree { HasTree (state self.old) }
        requires name { is_name name.now ≡ true }
        ensures { Link (state self.old) node.now dir.now name.now result (state self.new) };

    /// Takes out a name of a file or a link, which goes with its last name. Errors: Stale, NotDir, NoEnt, WrongKind.
    fn remove(&mut self, dir: &Handle, name: &[u8]) -> Result<(), SrvErr>
        requires tree { HasTree (state self.old) }
        requires name { is_name name.now ≡ true }
        ensures { Remove (state self.old) dir.now name.now result (state self.new) };

    /// Takes out an empty directory and its name. Errors: Stale, NotDir, NoEnt, NotEmpty.
    fn rmdir(&mut self, dir: &Handle, name: &[u8]) -> Result<(), SrvErr>
        requires tree { HasTree (state self.old) }
        requires name { is_name name.now ≡ true }
        ensures { Rmdir (state self.old) dir.now name.now result (state self.new) };

    /// Moves a name of one directory to a name of another. What the second name led to is replaced; where both names
    /// are of one node nothing changes. Errors: Stale, NotDir, NoEnt, WrongKind, NotEmpty, Subtree, and Refused where
    /// the second name is there.
    fn rename(
        &mut self,
        from: &Handle,
        name: &[u8],
        to: &Handle,
        to_name: &[u8],
    ) -> Result<(), SrvErr>
        requires tree { HasTree (state self.old) }
        requires name { is_name name.now ≡ true }
        requires to_name { is_name to_name.now ≡ true }
        ensures { Rename (state self.old) from.now name.now to.now to_name.now result (state self.new) };

    /// Starts anew with the same nodes and numbers, each node under a handle that may be another. Errors: none but
    /// Fault and NoMemory.
    fn reboot(&mut self) -> Result<(), SrvErr>
        requires { HasTree (state self.old) }
        ensures { Reboot (state self.old) result (state self.new) };

    /// Makes an empty root, whatever was there. It works in any state.
    fn wipe(&mut self) -> Result<(), SrvErr>
        ensures { Wipe (state self.old) result (state self.new) };
}

/// A server of a kind that is not known.
pub type Srv = Box<dyn FileServer>;

// The calls of a box are those of what is inside. Clauses name what a box is by `⟦<Srv as FileServer>⟧.state`.
impl FileServer for Srv {
    ghost state = { λ b. (FileServer-box b).state b.value };

    fn limits(&self) -> ServerLimits {
        (**self).limits()
    }

    fn root(&self) -> Handle {
        (**self).root()
    }

    fn attr(&mut self, node: &Handle) -> Result<NodeAttr, SrvErr> {
        (**self).attr(node)
    }

    fn set_attr(&mut self, node: &Handle, mode: u32, uid: u32, gid: u32) -> Result<(), SrvErr> {
        (**self).set_attr(node, mode, uid, gid)
    }

    fn read(&mut self, file: &Handle, offset: u32, count: u32) -> Result<Vec<u8>, SrvErr> {
        (**self).read(file, offset, count)
    }

    fn read_link(&mut self, link: &Handle) -> Result<Vec<u8>, SrvErr> {
        (**self).read_link(link)
    }

    fn write(&mut self, file: &Handle, offset: u32, piece: &[u8]) -> Result<u32, SrvErr> {
        (**self).write(file, offset, piece)
    }

    fn set_size(&mut self, file: &Handle, size: u32) -> Result<(), SrvErr> {
        (**self).set_size(file, size)
    }

    fn lookup(&mut self, dir: &Handle, name: &[u8]) -> Result<Handle, SrvErr> {
        (**self).lookup(dir, name)
    }

    fn list(&mut self, dir: &Handle) -> Result<Vec<Listed>, SrvErr> {
        (**self).list(dir)
    }

    fn create(&mut self, dir: &Handle, name: &[u8]) -> Result<Handle, SrvErr> {
        (**self).create(dir, name)
    }

    fn mkdir(&mut self, dir: &Handle, name: &[u8]) -> Result<Handle, SrvErr> {
        (**self).mkdir(dir, name)
    }

    fn symlink(&mut self, dir: &Handle, name: &[u8], text: &[u8]) -> Result<Handle, SrvErr> {
        (**self).symlink(dir, name, text)
    }

    fn link(&mut self, node: &Handle, dir: &Handle, name: &[u8]) -> Result<(), SrvErr> {
        (**self).link(node, dir, name)
    }

    fn remove(&mut self, dir: &Handle, name: &[u8]) -> Result<(), SrvErr> {
        (**self).remove(dir, name)
    }

    fn rmdir(&mut self, dir: &Handle, name: &[u8]) -> Result<(), SrvErr> {
        (**self).rmdir(dir, name)
    }

    fn rename(
        &mut self,
        from: &Handle,
        name: &[u8],
        to: &Handle,
        to_name: &[u8],
    ) -> Result<(), SrvErr> {
        (**self).rename(from, name, to, to_name)
    }

    fn reboot(&mut self) -> Result<(), SrvErr> {
        (**self).reboot()
    }

    fn wipe(&mut self) -> Result<(), SrvErr> {
        (**self).wipe()
    }
}
