//! Why reading stops.

ghost use Rattle.std.specs.Prelude.{◌≡◌};
ghost use Rattle.log_stream.specs.declared.fault.ReadErr.TheVariants.{NoMemory};

use std::alloc::AllocError;
use thiserror::Error;

/// Why an item could not be read from a source.
#[derive(Clone, Copy, Debug, PartialEq, Eq, Error)]
pub enum ReadErr {
    /// The source failed.
    #[error("read fault")]
    Failed,
    /// There is no memory for the bytes of a call.
    #[error("no memory")]
    NoMemory,
    /// The source ends too early, or its bytes are not in the grammar.
    #[error("not in the grammar")]
    Wrong,
}

impl From<AllocError> for ReadErr {
    ghost from_gives = { λ _ e. e ≡ NoMemory };

    fn from(_e: AllocError) -> ReadErr {
        ReadErr::NoMemory
    }
}
