//! Why entries are not put.

ghost use Rattle.std.specs.Prelude.{◌≡◌};
ghost use Rattle.inverse_fn.specs.Puts.{put_err};

use server_trait::WrapErr;

/// Why entries are not put: the changed array would not be valid, the server failed, or memory was wanting.
#[derive(Clone, Copy, Debug, PartialEq, Eq)]
pub enum PutErr {
    Invalid,
    Down,
    NoMemory,
}

/// The same failure of a wrapped server.
pub fn put_err(error: WrapErr) -> PutErr
    ensures { result ≡ put_err error }
{
    match error {
        WrapErr::Down => PutErr::Down,
        WrapErr::NoMemory => PutErr::NoMemory,
    }
}
