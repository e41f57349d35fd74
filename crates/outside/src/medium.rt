//! A medium: blocks that keep what was written to them.

ghost use Rattle.std.specs.Prelude.{◌≡◌, ◌≢◌, ◌<◌, ℕ, List, OnOk, length};
ghost use Rattle.outside.specs.Causes.{ReadHasCause, WriteHasCause};

use crate::source::Failed;
use nfs2_types::NoMemory;
use std::alloc::AllocFailed;

/// The unit of reading and writing.
pub type Block = [u8; 512];

/// Why a block was not written.
#[derive(Clone, Copy, Debug, PartialEq, Eq)]
pub enum MediumErr {
    Failed,
    NoMemory,
}

impl From<Failed> for MediumErr {
    ghost use Rattle.outside.specs.declared.medium.MediumErr.TheVariants as errors;

    ghost from_gives = { λ _ e. e ≡ errors.Failed };

    fn from(_e: Failed) -> MediumErr {
        MediumErr::Failed
    }
}

impl From<NoMemory> for MediumErr {
    ghost use Rattle.outside.specs.declared.medium.MediumErr.TheVariants as errors;

    ghost from_gives = { λ _ e. e ≡ errors.NoMemory };

    fn from(_e: NoMemory) -> MediumErr {
        MediumErr::NoMemory
    }
}

impl<T: Drop> From<AllocFailed<T>> for MediumErr {
    ghost use Rattle.outside.specs.declared.medium.MediumErr.TheVariants as errors;

    ghost from_gives = { λ _ e. e ≡ errors.NoMemory };

    fn from(_e: AllocFailed<T>) -> MediumErr {
        MediumErr::NoMemory
    }
}

/// Blocks of 512 bytes, numbered from zero, each of which keeps what was written to it last.
pub trait Medium {
    /// The bytes of each block.
    ghost content: { Self → ℕ → List ℕ };

    /// How many blocks it has.
    ghost size: { Self → ℕ };

    /// How often it failed.
    ghost faults: { Self → ℕ };

    /// How many blocks it has, which never changes.
    fn blocks(&self) -> u32
        ensures { result ≡ size self.now };

    /// Fills the buffer with a block's bytes.
    fn read(&mut self, block: u32, into: &mut Block) -> Result<(), Failed>
        requires { block < size self.old }
        ensures bytes { OnOk result (into.new ≡ content self.old block) }
        ensures content { content self.new ≡ content self.old }
        ensures size { size self.new ≡ size self.old }
        ensures cause { ReadHasCause (faults self.old) (faults self.new) result };

    /// Gives a block these bytes. A write that fails may leave any bytes in its block.
    fn write(&mut self, block: u32, from: &Block) -> Result<(), MediumErr>
        requires { block < size self.old }
        ensures bytes { OnOk result (content self.new block ≡ from.now) }
        ensures others { (k : ℕ) → k ≢ block → content self.new k ≡ content self.old k }
        ensures size { size self.new ≡ size self.old }
        ensures cause { WriteHasCause (faults self.old) (faults self.new) result };

    /// A block has 512 bytes, also after a write that failed.
    ghost lengths: { (medium : Self) (k : ℕ) → length (content medium k) ≡ 512 };
}
