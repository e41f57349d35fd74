//! Why a run goes no further.

ghost use Rattle.std.specs.Prelude.{◌≡◌};
ghost use Rattle.basefs.specs.declared.run_err.RunErr.TheVariants as errors;

use nfs2_types::NoMemory;
use outside::SinkErr;

/// Why the lines of a record were not all written: the sink's error, or want of memory beside the sink.
#[derive(Clone, Copy, Debug, PartialEq, Eq)]
pub enum RunErr {
    Sink(SinkErr),
    NoMemory,
}

impl From<SinkErr> for RunErr {
    ghost from_gives = { λ x e. e ≡ errors.Sink x };

    fn from(e: SinkErr) -> RunErr {
        RunErr::Sink(e)
    }
}

impl From<NoMemory> for RunErr {
    ghost from_gives = { λ _ e. e ≡ errors.NoMemory };

    fn from(_e: NoMemory) -> RunErr {
        RunErr::NoMemory
    }
}
