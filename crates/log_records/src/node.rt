//! What a record says of a node.

use nfs2_types::Kind;

/// What a record says of a node. Its size and its names are in other records.
#[derive(Clone, Copy, Debug, PartialEq, Eq)]
pub struct NodeRecord {
    pub kind: Kind,
    pub mode: u32,
    pub uid: u32,
    pub gid: u32,
}
