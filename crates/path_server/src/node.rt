//! What is kept of a node, and its handle.

ghost use Rattle.std.specs.Prelude.{◌≡◌, ◌+◌, ◌<◌, ◌≤◌, ◌^◌};
ghost use Rattle.server_trait.specs.Tree.{one_if};
ghost use Rattle.path_server.specs.Serials.{serial_bytes};
ghost use Rattle.path_server.specs.Shown.{shown_at};

use nfs2_types::{Handle, Kind};

/// A node without its content: how many names it has and how many of these lead to directories, which is none where it
/// is no directory, and how many names lead to it.
#[derive(Clone, Copy, Debug)]
pub struct PathNode {
    pub number: u64,
    pub kind: Kind,
    pub mode: u32,
    pub uid: u32,
    pub gid: u32,
    pub names: u32,
    pub subdirs: u32,
    pub links: u32,
}

impl PathNode {
    ghost use Rattle.path_server.specs.Nodes.{is_dir, made_node, one_more, one_less, one_link_more, one_link_less, set_node};

    /// A node of mode, uid and gid 0, without names.
    pub fn new(kind: Kind, number: u64, links: u32) -> PathNode
        ensures { result ≡ made_node kind number links }
    {
        PathNode {
            number,
            kind,
            mode: 0,
            uid: 0,
            gid: 0,
            names: 0,
            subdirs: 0,
            links,
        }
    }

    /// The directory with one name more, which leads to a node of this kind.
    pub fn with_name(self, kind: Kind) -> PathNode
        requires names { self.names + 1 < 2 ^ 32 }
        requires subdirs { self.subdirs + 1 < 2 ^ 32 }
        ensures { result ≡ one_more kind self }
    {
        let subdirs = match kind {
            Kind::Dir => self.subdirs + 1,
            Kind::File | Kind::Link => self.subdirs,
        };
        PathNode {
            names: self.names + 1,
            subdirs,
            ..self
        }
    }

    /// The directory with one name less, which led to a node of this kind.
    pub fn without_name(self, kind: Kind) -> PathNode
        requires names { 1 ≤ self.names }
        requires subdirs { one_if (is_dir kind) ≤ self.subdirs }
        ensures { result ≡ one_less kind self }
    {
        let subdirs = match kind {
            Kind::Dir => self.subdirs - 1,
            Kind::File | Kind::Link => self.subdirs,
        };
        PathNode {
            names: self.names - 1,
            subdirs,
            ..self
        }
    }

    /// The node with one name more that leads to it.
    pub fn linked(self) -> PathNode
        requires { self.links + 1 < 2 ^ 32 }
        ensures { result ≡ one_link_more self }
    {
        PathNode {
            links: self.links + 1,
            ..self
        }
    }

    /// The node with one name less that leads to it.
    pub fn unlinked(self) -> PathNode
        requires { 1 ≤ self.links }
        ensures { result ≡ one_link_less self }
    {
        PathNode {
            links: self.links - 1,
            ..self
        }
    }

    /// The node with other attributes.
    pub fn with_attr(self, mode: u32, uid: u32, gid: u32) -> PathNode
        ensures { result ≡ set_node mode uid gid self }
    {
        PathNode {
            mode,
            uid,
            gid,
            ..self
        }
    }
}

/// The handle inside of a serial number at a place: zeros, and the eight bytes of each, the most significant first.
#[tactic(auto, unfolding(crate::specs::Serials::serial_bytes))]
pub fn handle_of(serial: u64, place: usize) -> Handle
    ensures { result ≡ serial_bytes serial place }
{
    let mut handle = [0; 32];
    handle[8..16].copy_from_slice(&serial.to_be_bytes());
    handle[16..24].copy_from_slice(&(place as u64).to_be_bytes());
    handle
}

/// The handle that is shown after so many starts, from the one inside, and the other way.
#[tactic(auto, unfolding(crate::specs::Shown::shown_at))]
pub fn shown(starts: u64, handle: &Handle) -> Handle
    ensures { result ≡ shown_at starts handle.now }
{
    let inside = [0; 8];
    let number = starts.to_be_bytes();
    let mut other = *handle;
    if handle[..8] == inside[..] {
        other[..8].copy_from_slice(&number);
    } else if handle[..8] == number[..] {
        other[..8].copy_from_slice(&inside);
    }
    other
}
