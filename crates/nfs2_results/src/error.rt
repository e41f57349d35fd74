//! Why a result could not be read.
ghost use Rattle.std.specs.Prelude.{◌≡◌};
ghost use Rattle.nfs2_results.specs.declared.error.ResErr.TheVariants as errors;

use nfs2_types::NoMemory;
use std::alloc::{AllocError, AllocFailed};
use xdr_core::XdrErr;

/// The first wrong item, or want of memory.
#[derive(Clone, Copy, Debug, PartialEq, Eq)]
pub enum ResErr {
    /// The bytes are no result: this item is the first that is wrong.
    Xdr(XdrErr),
    /// Memory is wanting for a name, a text or the list.
    NoMemory,
}

impl From<XdrErr> for ResErr {
    ghost from_gives = { λ x e. e ≡ errors.Xdr x };

    fn from(e: XdrErr) -> ResErr {
        ResErr::Xdr(e)
    }
}

impl From<NoMemory> for ResErr {
    ghost from_gives = { λ _ e. e ≡ errors.NoMemory };

    fn from(_e: NoMemory) -> ResErr {
        ResErr::NoMemory
    }
}

impl<T: Drop> From<AllocFailed<T>> for ResErr {
    ghost from_gives = { λ _ e. e ≡ errors.NoMemory };

    fn from(_e: AllocFailed<T>) -> ResErr {
        ResErr::NoMemory
    }
}
