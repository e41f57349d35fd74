//! What each call does.

ghost use Rattle.std.specs.Prelude.{◌≡◌, ◌≤◌, ◌+◌, true, None, length};
ghost use Rattle.nfs2_types.specs.Names.{is_name};
ghost use Rattle.server_trait.specs.Step.{HasTree};
ghost use Rattle.server_trait.specs.Calls.{RootIs, Attr, SetAttr, Read, ReadLink, Write, SetSize, Lookup, ListNames, Create, Mkdir, Symlink, Link, Remove, Rmdir, Rename, Wipe};

use super::PathTree;
use crate::contents::part;
use nfs2_types::{Handle, Kind, Time};
use server_trait::{Listed, NodeAttr, ServerLimits, SrvErr};
use std::cmp::max;

impl PathTree {
    ghost use Rattle.path_server.specs.State.{state_of};

    /// The most that it holds, which never changes.
    pub fn limits(&self) -> ServerLimits
        ensures { result ≡ (state_of self.now).limits }
    {
        self.limits
    }

    /// The handle of the root.
    pub fn root(&self) -> Handle
        requires { HasTree (state_of self.now) }
        ensures { RootIs (state_of self.now) result }
    {
        self.root
    }

    /// The attributes of a node. Errors: Stale.
    pub fn attr(&mut self, node: &Handle) -> Result<NodeAttr, SrvErr>
        requires { HasTree (state_of self.old) }
        ensures { Attr (state_of self.old) node.now result (state_of self.new) }
    {
        let Some(kept) = self.nodes.get(node) else {
            return Err(SrvErr::Stale);
        };
        let (size, links) = self.size_and_links(node, kept);
        Ok(NodeAttr {
            kind: kept.kind,
            number: kept.number,
            mode: kept.mode,
            uid: kept.uid,
            gid: kept.gid,
            size,
            links,
            time: Time { secs: 0, micros: 0 },
        })
    }

    /// Sets the mode and the owners of a node. Errors: Stale.
    pub fn set_attr(&mut self, node: &Handle, mode: u32, uid: u32, gid: u32) -> Result<(), SrvErr>
        requires { HasTree (state_of self.old) }
        ensures { SetAttr (state_of self.old) node.now mode uid gid result (state_of self.new) }
    {
        let Some(kept) = self.nodes.get(node) else {
            return Err(SrvErr::Stale);
        };
        let changed = kept.with_attr(mode, uid, gid);
        self.nodes.set(node, changed);
        Ok(())
    }

    /// The bytes of a file from an offset up to the count or the end. Errors: Stale, WrongKind.
    pub fn read(&mut self, file: &Handle, offset: u32, count: u32) -> Result<Vec<u8>, SrvErr>
        requires { HasTree (state_of self.old) }
        ensures { Read (state_of self.old) file.now offset count result (state_of self.new) }
    {
        let _ = self.find(file, Kind::File)?;
        let bytes = part(self.nodes.bytes(file), offset as usize, count as usize);
        match Vec::from_slice(self.alloc, bytes) {
            Ok(copy) => Ok(copy),
            Err(_) => {
                self.held = false;
                Err(SrvErr::NoMemory)
            }
        }
    }

    /// The text of a link. Errors: Stale, WrongKind.
    pub fn read_link(&mut self, link: &Handle) -> Result<Vec<u8>, SrvErr>
        requires { HasTree (state_of self.old) }
        ensures { ReadLink (state_of self.old) link.now result (state_of self.new) }
    {
        let _ = self.find(link, Kind::Link)?;
        match Vec::from_slice(self.alloc, self.nodes.bytes(link)) {
            Ok(copy) => Ok(copy),
            Err(_) => {
                self.held = false;
                Err(SrvErr::NoMemory)
            }
        }
    }

    /// Puts bytes from the front of a piece, at least one, at an offset of a file, and answers how many. A gap before
    /// the offset is zeros. Errors: Stale, WrongKind, Refused where the offset lies past the end, and Full.
    pub fn write(&mut self, file: &Handle, offset: u32, piece: &[u8]) -> Result<u32, SrvErr>
        requires tree { HasTree (state_of self.old) }
        requires some { 1 ≤ length piece.now }
        requires end { offset + length piece.now ≤ 8388608 }
        ensures { Write (state_of self.old) file.now offset piece.now result (state_of self.new) }
    {
        let _ = self.find(file, Kind::File)?;
        let start = offset as usize;
        let len = self.nodes.bytes(file).len();
        let size = max(len, start + piece.len());
        if self.bytes - len as u64 + size as u64 > self.limits.bytes {
            return Err(SrvErr::Full);
        }
        match self.change(file, size, start, piece) {
            Ok(()) => Ok(piece.len() as u32),
            Err(_) => Err(SrvErr::NoMemory),
        }
    }

    /// Cuts a file, or fills it with zeros. Errors: Stale, WrongKind, Full.
    pub fn set_size(&mut self, file: &Handle, size: u32) -> Result<(), SrvErr>
        requires tree { HasTree (state_of self.old) }
        requires end { size ≤ 8388608 }
        ensures { SetSize (state_of self.old) file.now size result (state_of self.new) }
    {
        let _ = self.find(file, Kind::File)?;
        let len = self.nodes.bytes(file).len();
        if self.bytes - len as u64 + u64::from(size) > self.limits.bytes {
            return Err(SrvErr::Full);
        }
        match self.change(file, size as usize, 0, b"") {
            Ok(()) => Ok(()),
            Err(_) => Err(SrvErr::NoMemory),
        }
    }

    /// The handle to which a name leads. Errors: Stale, NotDir, NoEnt.
    pub fn lookup(&mut self, dir: &Handle, name: &[u8]) -> Result<Handle, SrvErr>
        requires tree { HasTree (state_of self.old) }
        requires name { is_name name.now ≡ true }
        ensures { Lookup (state_of self.old) dir.now name.now result (state_of self.new) }
    {
        let _ = self.find_dir(dir)?;
        match self.names.get(dir, name) {
            Ok(Some(handle)) => Ok(handle),
            Ok(None) => Err(SrvErr::NoEnt),
            Err(_) => {
                self.held = false;
                Err(SrvErr::NoMemory)
            }
        }
    }

    /// The names of a directory, each once, in any order. Errors: Stale, NotDir.
    pub fn list(&mut self, dir: &Handle) -> Result<Vec<Listed>, SrvErr>
        requires { HasTree (state_of self.old) }
        ensures { ListNames (state_of self.old) dir.now result (state_of self.new) }
    {
        let _ = self.find_dir(dir)?;
        match self.names.list(dir) {
            Ok(rows) => Ok(rows),
            Err(_) => {
                self.held = false;
                Err(SrvErr::NoMemory)
            }
        }
    }

    /// Makes a file without bytes, of mode, uid and gid 0. Errors: Stale, NotDir, Exists, Full.
    pub fn create(&mut self, dir: &Handle, name: &[u8]) -> Result<Handle, SrvErr>
        requires tree { HasTree (state_of self.old) }
        requires name { is_name name.now ≡ true }
        ensures { Create (state_of self.old) dir.now name.now result (state_of self.new) }
    {
        self.make(dir, name, Kind::File, b"")
    }

    /// Makes a directory of mode, uid and gid 0. Errors: Stale, NotDir, Exists, Full.
    pub fn mkdir(&mut self, dir: &Handle, name: &[u8]) -> Result<Handle, SrvErr>
        requires tree { HasTree (state_of self.old) }
        requires name { is_name name.now ≡ true }
        ensures { Mkdir (state_of self.old) dir.now name.now result (state_of self.new) }
    {
        self.make(dir, name, Kind::Dir, b"")
    }

    /// Makes a link with a text, of mode, uid and gid 0. Errors: Stale, NotDir, Exists, Full.
    pub fn symlink(&mut self, dir: &Handle, name: &[u8], text: &[u8]) -> Result<Handle, SrvErr>
        requires tree { HasTree (state_of self.old) }
        requires name { is_name name.now ≡ true }
        requires text { length text.now ≤ 1024 }
        ensures { Symlink (state_of self.old) dir.now name.now text.now result (state_of self.new) }
    {
        self.make(dir, name, Kind::Link, text)
    }

    /// Gives a file or a link one name more. Errors: Stale, WrongKind for a directory, NotDir, Exists, Full.
    pub fn link(&mut self, node: &Handle, dir: &Handle, name: &[u8]) -> Result<(), SrvErr>
        requires tree { HasTree (state_of self.old) }
        requires name { is_name name.now ≡ true }
        ensures { Link (state_of self.old) node.now dir.now name.now result (state_of self.new) }
    {
        let kept = self.find_leaf(node)?;
        let within = self.find_dir(dir)?;
        match self.names.get(dir, name) {
            Ok(None) => self.link_new(node, kept, dir, within, name),
            Ok(Some(_)) => Err(SrvErr::Exists),
            Err(_) => {
                self.held = false;
                Err(SrvErr::NoMemory)
            }
        }
    }

    /// Takes out a name of a file or a link, which goes with its last name. Errors: Stale, NotDir, NoEnt, WrongKind.
    pub fn remove(&mut self, dir: &Handle, name: &[u8]) -> Result<(), SrvErr>
        requires tree { HasTree (state_of self.old) }
        requires name { is_name name.now ≡ true }
        ensures { Remove (state_of self.old) dir.now name.now result (state_of self.new) }
    {
        let within = self.find_dir(dir)?;
        match self.names.get(dir, name) {
            Ok(Some(node)) => self.remove_at(dir, within, name, &node),
            Ok(None) => Err(SrvErr::NoEnt),
            Err(_) => {
                self.held = false;
                Err(SrvErr::NoMemory)
            }
        }
    }

    /// Takes out an empty directory and its name. Errors: Stale, NotDir, NoEnt, NotEmpty.
    pub fn rmdir(&mut self, dir: &Handle, name: &[u8]) -> Result<(), SrvErr>
        requires tree { HasTree (state_of self.old) }
        requires name { is_name name.now ≡ true }
        ensures { Rmdir (state_of self.old) dir.now name.now result (state_of self.new) }
    {
        let within = self.find_dir(dir)?;
        match self.names.get(dir, name) {
            Ok(Some(node)) => self.rmdir_at(dir, within, name, &node),
            Ok(None) => Err(SrvErr::NoEnt),
            Err(_) => {
                self.held = false;
                Err(SrvErr::NoMemory)
            }
        }
    }

    /// Moves a name of one directory to a name of another. What the second name led to is replaced; where both names
    /// are of one node nothing changes. Errors: Stale, NotDir, NoEnt, WrongKind, NotEmpty, Subtree, and Refused where
    /// the second name is there.
    pub fn rename(
        &mut self,
        from: &Handle,
        name: &[u8],
        to: &Handle,
        to_name: &[u8],
    ) -> Result<(), SrvErr>
        requires tree { HasTree (state_of self.old) }
        requires name { is_name name.now ≡ true }
        requires to_name { is_name to_name.now ≡ true }
        ensures { Rename (state_of self.old) from.now name.now to.now to_name.now result (state_of self.new) }
    {
        let within = self.find_dir(from)?;
        let _ = self.find_dir(to)?;
        let Ok(found) = self.names.get(from, name) else {
            self.held = false;
            return Err(SrvErr::NoMemory);
        };
        let Some(moved) = found else {
            return Err(SrvErr::NoEnt);
        };
        let Ok(taken) = self.names.get(to, to_name) else {
            self.held = false;
            return Err(SrvErr::NoMemory);
        };
        if taken.is_some() {
            return Err(SrvErr::Refused);
        }
        self.move_to(from, within, name, to, to_name, &moved)
    }

    /// Makes an empty root, whatever was there. It works in any state.
    pub fn wipe(&mut self) -> Result<(), SrvErr>
        ensures { Wipe (state_of self.old) result (state_of self.new) }
    {
        match self.start() {
            Ok(()) => Ok(()),
            Err(_) => Err(SrvErr::NoMemory),
        }
    }

    /// Gives the tree up.
    pub fn give_up(&mut self)
        ensures state { state_of self.new ≡ record (state_of self.old) { tree = None } }
    {
        self.held = false;
    }
}
