//! What is kept of a node.

ghost use Rattle.std.specs.Prelude.{◌≡◌, ◌+◌, ◌≤◌, IfSome, Some};

use log_records::NodeId;
use nfs2_types::Kind;

/// What is kept of a node: its attributes; `size`, the bytes of a file or of a link's text, or the number of a
/// directory's names; `links`, the number of names that lead to a file or a link, or of a directory's names that lead
/// to directories; and `parent`, the directory of the name that leads to a directory.
#[derive(Clone, Copy, Debug, PartialEq, Eq)]
pub struct NodeInfo {
    pub kind: Kind,
    pub mode: u32,
    pub uid: u32,
    pub gid: u32,
    pub size: u32,
    pub links: u32,
    pub parent: NodeId,
}

impl NodeInfo {
    ghost use Rattle.std.specs.Prelude.{◌-◌};
    ghost use Rattle.server_trait.specs.Tree.{one_if};
    ghost use Rattle.log_index.specs.Changes.{is_dir, led_more, led_less, wider, narrower};

    /// The node with one name more that leads to it, from this directory. None where the number would be too large.
    pub(crate) fn led(self, dir: &NodeId) -> Option<NodeInfo>
        ensures { IfSome result (λ i. i ≡ led_more dir.now self) }
    {
        match self.kind {
            Kind::Dir => Some(NodeInfo {
                parent: *dir,
                ..self
            }),
            Kind::File | Kind::Link => Some(NodeInfo {
                links: self.links.checked_add(1)?,
                ..self
            }),
        }
    }

    /// The node with one name less that leads to it.
    pub(crate) fn unled(self) -> NodeInfo
        ensures { result ≡ led_less self }
    {
        match self.kind {
            Kind::Dir => self,
            Kind::File | Kind::Link => NodeInfo {
                links: self.links.saturating_sub(1),
                ..self
            },
        }
    }

    /// The directory with one name more, which leads to a node of this kind. None where a number would be too large.
    pub(crate) fn with_name(self, kind: Kind) -> Option<NodeInfo>
        ensures { IfSome result (λ i. i ≡ wider kind self) }
    {
        let one = u32::from(kind == Kind::Dir);
        Some(NodeInfo {
            size: self.size.checked_add(1)?,
            links: self.links.checked_add(one)?,
            ..self
        })
    }

    /// The directory with one name less, which led to a node of this kind.
    pub(crate) fn without_name(self, kind: Kind) -> NodeInfo
        ensures { result ≡ narrower kind self }
    {
        let one = u32::from(kind == Kind::Dir);
        NodeInfo {
            size: self.size.saturating_sub(1),
            links: self.links.saturating_sub(one),
            ..self
        }
    }
}
