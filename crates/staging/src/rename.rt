//! Names that move between a directory and the staging directory.

ghost use Rattle.std.specs.Prelude.{◌≡◌, Some, true, IsSomeAnd, OnOk};
ghost use Rattle.nfs2_types.specs.Names.{is_name};
ghost use Rattle.server_trait.specs.Tree.{Tree};
ghost use Rattle.conf_map.specs.Notice.{Watched};
ghost use Rattle.staging.specs.Steps.{CanMove, MovedTo};

use conf_map::broken;
use nfs2_types::Handle;
use server_trait::{FileServer, Srv, WrapErr};

/// Moves a name of one directory to one that another lacks.
pub fn move_name(
    server: &mut Srv,
    from: &Handle,
    name: &[u8],
    to: &Handle,
    to_name: &[u8],
) -> Result<(), WrapErr>
    requires can { IsSomeAnd (state server.old).tree
        (λ t. CanMove t from.now name.now to.now to_name.now) }
    requires name { is_name name.now ≡ true }
    requires to_name { is_name to_name.now ≡ true }
    ensures moved { OnOk result ((t : Tree) → (state server.old).tree ≡ Some t →
        MovedTo t from.now name.now to.now to_name.now (state server.new).tree) }
    ensures watched { Watched (state server.old) (state server.new) result }
{
    match server.rename(from, name, to, to_name) {
        Ok(()) => Ok(()),
        Err(error) => Err(broken(error)),
    }
}
