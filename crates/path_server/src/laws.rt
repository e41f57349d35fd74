//! What holds of every server.

ghost use Rattle.std.specs.Prelude.{◌≡◌};
ghost use Rattle.path_server.specs.State.{IsWithin};
ghost use Rattle.path_server.specs.declared.server.PathServer.{PathServer};

use crate::server::PathServer;
use server_trait::FileServer;

/// A server has counted no fault.
pub fn no_faults()
    ensures { (s : PathServer) → (⟦<PathServer as FileServer>⟧.state s).faults ≡ 0 }
{}

/// A tree is within its server's limits: it has at most as many nodes, or the root alone, and at most as many bytes.
pub fn within_limits()
    ensures { (s : PathServer) → IsWithin (⟦<PathServer as FileServer>⟧.state s) }
{}
