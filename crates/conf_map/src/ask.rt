//! Questions to a server that can only fail.

ghost use Rattle.std.specs.Prelude.{◌≡◌, ℕ, List, Some, true, IsSome, IsSomeAnd, IfOk, OnOk};
ghost use Rattle.nfs2_types.specs.Names.{is_name};
ghost use Rattle.server_trait.specs.Tree.{Tree, node_at, names_at, target};
ghost use Rattle.server_trait.specs.Calls.{IsAttr};
ghost use Rattle.conf_map.specs.Notice.{Watched};

use crate::failure::broken;
use nfs2_types::Handle;
use server_trait::{FileServer, NodeAttr, Srv, SrvErr, WrapErr};

/// What a name of a directory leads to, if it is there.
pub fn find(server: &mut Srv, dir: &Handle, name: &[u8]) -> Result<Option<Handle>, WrapErr>
    requires dir { IsSomeAnd (state server.old).tree (λ t. IsSome (names_at t dir.now)) }
    requires name { is_name name.now ≡ true }
    ensures found { IfOk result (λ o. (t : Tree) →
        (state server.old).tree ≡ Some t → target t dir.now name.now ≡ o) }
    ensures same { OnOk result ((state server.new).tree ≡ (state server.old).tree) }
    ensures watched { Watched (state server.old) (state server.new) result }
{
    match server.lookup(dir, name) {
        Ok(handle) => Ok(Some(handle)),
        Err(SrvErr::NoEnt) => Ok(None),
        Err(error) => Err(broken(error)),
    }
}

/// What the server tells of a node.
pub fn attr_of(server: &mut Srv, node: &Handle) -> Result<NodeAttr, WrapErr>
    requires { IsSomeAnd (state server.old).tree (λ t. IsSome (node_at t node.now)) }
    ensures attr { IfOk result (λ a. (t : Tree) →
        (state server.old).tree ≡ Some t → IsSomeAnd (node_at t node.now) (IsAttr t node.now a)) }
    ensures same { OnOk result ((state server.new).tree ≡ (state server.old).tree) }
    ensures watched { Watched (state server.old) (state server.new) result }
{
    match server.attr(node) {
        Ok(attr) => Ok(attr),
        Err(error) => Err(broken(error)),
    }
}
