//! Why an entry's text could not be read.

ghost use Rattle.std.specs.Prelude.{◌≡◌};
ghost use Rattle.abs_text.specs.declared.error.EntryErr.TheVariants as errors;

use nfs2_types::NoMemory;
use std::alloc::{AllocError, AllocFailed};
use xdr_core::XdrErr;

/// The first wrong item, or want of memory.
#[derive(Clone, Copy, Debug, PartialEq, Eq)]
pub enum EntryErr {
    /// The bytes are no text of an entry: the first wrong item begins here, in bytes from the start.
    Text { at: usize },
    /// Memory is wanting for a name, a text or the list.
    NoMemory,
}

impl From<XdrErr> for EntryErr {
    ghost from_gives = { λ x e. e ≡ errors.Text x.at };

    fn from(e: XdrErr) -> EntryErr {
        EntryErr::Text { at: e.at }
    }
}

impl From<NoMemory> for EntryErr {
    ghost from_gives = { λ _ e. e ≡ errors.NoMemory };

    fn from(_e: NoMemory) -> EntryErr {
        EntryErr::NoMemory
    }
}

impl From<AllocError> for EntryErr {
    ghost from_gives = { λ _ e. e ≡ errors.NoMemory };

    fn from(_e: AllocError) -> EntryErr {
        EntryErr::NoMemory
    }
}

impl<T: Drop> From<AllocFailed<T>> for EntryErr {
    ghost from_gives = { λ _ e. e ≡ errors.NoMemory };

    fn from(_e: AllocFailed<T>) -> EntryErr {
        EntryErr::NoMemory
    }
}
