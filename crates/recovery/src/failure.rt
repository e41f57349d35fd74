//! Why a rebuilding does not end.

ghost use Rattle.std.specs.Prelude.{◌≡◌};

use crate::rebuild::Rebuild;
use nfs2_types::NoMemory;
use server_trait::WrapErr;

/// Why a replica is not live again: what was fetched makes no valid array, and it is handed back with nothing got; or
/// the server failed, or memory was wanting.
#[derive(Drop)]
pub enum FinishErr {
    Invalid(Rebuild),
    Down,
    NoMemory,
}

impl From<NoMemory> for FinishErr {
    ghost use Rattle.recovery.specs.declared.failure.FinishErr.{FinishErr};
    ghost use Rattle.recovery.specs.declared.failure.FinishErr.TheVariants as errors;

    ghost from_gives = { λ _ (e : FinishErr). e ≡ errors.NoMemory };

    fn from(_: NoMemory) -> FinishErr {
        FinishErr::NoMemory
    }
}

impl From<WrapErr> for FinishErr {
    ghost use Rattle.recovery.specs.declared.failure.FinishErr.{FinishErr};
    ghost use Rattle.server_trait.specs.declared.bench.WrapErr.{WrapErr};
    ghost use Rattle.recovery.specs.Ends.{of_wrap};

    ghost from_gives = { λ (w : WrapErr) (e : FinishErr). e ≡ of_wrap w };

    fn from(error: WrapErr) -> FinishErr {
        match error {
            WrapErr::Down => FinishErr::Down,
            WrapErr::NoMemory => FinishErr::NoMemory,
        }
    }
}
