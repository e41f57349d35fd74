//! Failures of a server.

ghost use Rattle.std.specs.Prelude.{◌≡◌};
ghost use Rattle.server_trait.specs.Step.{IsBroken};
ghost use Rattle.conf_map.specs.Notice.{wrap_of};

use server_trait::{SrvErr, WrapErr};

/// What a server's failure is to the wrapper. It takes no memory.
pub fn broken(error: SrvErr) -> WrapErr
    requires { IsBroken error }
    ensures { result ≡ wrap_of error }
{
    match error {
        SrvErr::Fault => WrapErr::Down,
        _ => WrapErr::NoMemory,
    }
}
