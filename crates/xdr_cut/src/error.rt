//! Why a value could not be read from the front of some bytes.

ghost use Rattle.std.specs.Prelude.{◌≡◌};
ghost use Rattle.xdr_cut.specs.Cut.{scan_err};
ghost use Rattle.xdr_cut.specs.declared.error.ScanErr.TheVariants as errors;

use nfs2_types::NoMemory;

/// Why an item could not be read.
#[derive(Clone, Copy, Debug, PartialEq, Eq)]
pub enum CutErr {
    /// The bytes begin a value, and one that begins so has at least `need` bytes.
    Short { need: usize },
    /// The bytes begin no value.
    Wrong,
}

/// Why a value could not be read.
#[derive(Clone, Copy, Debug, PartialEq, Eq)]
pub enum ScanErr {
    /// The bytes begin a value, and one that begins so has at least `need` bytes.
    Short { need: usize },
    /// The bytes begin no value.
    Wrong,
    /// A value is there, and there is no memory for it.
    NoMemory,
}

impl From<CutErr> for ScanErr {
    ghost from_gives = { λ cut e. e ≡ scan_err cut };

    fn from(cut: CutErr) -> ScanErr {
        match cut {
            CutErr::Short { need } => ScanErr::Short { need },
            CutErr::Wrong => ScanErr::Wrong,
        }
    }
}

impl From<NoMemory> for ScanErr {
    ghost from_gives = { λ _ e. e ≡ errors.NoMemory };

    fn from(_e: NoMemory) -> ScanErr {
        ScanErr::NoMemory
    }
}
