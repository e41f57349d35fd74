//! A writer of the system as a sink.

ghost use Rattle.std.specs.Prelude.{◌≡◌, ℕ, None, IsErrOf, length};
ghost use Rattle.std.specs.Io.{WritesAtMost};
ghost use Rattle.std.specs.Io.KnownBytes.{WriteAppends};
ghost use Rattle.outside.specs.Causes.{SinkHasCause};
ghost use Rattle.outside.specs.Told.{TellsAlike};

use outside::{Sink, SinkErr};
use std::io::Write;

/// A writer of the system as a sink, which never answers `NoMemory`.
#[derive(Drop)]
pub struct StdSink<W: Write + Drop> {
    writer: W,
    faults: u64,
}

impl<W: Write + Drop> StdSink<W> {
    /// The sink of this writer.
    pub fn new(writer: W) -> StdSink<W>
        ensures faults { ⟦<StdSink<W> as Sink>⟧.faults result ≡ 0 }
        ensures writer { result.writer ≡ writer }
    {
        StdSink { writer, faults: 0 }
    }
}

impl<W: Write + Drop> Sink for StdSink<W> {
    ghost written = { λ _. None };

    ghost faults = { λ s. s.faults };

    fn write(&mut self, piece: &[u8]) -> Result<usize, SinkErr>
        ensures bound { WritesAtMost result piece.now }
        ensures bytes { WriteAppends None None result piece.now }
        ensures tells { TellsAlike {A = ℕ} None None }
        ensures cause { SinkHasCause self.old.faults self.new.faults (length piece.now) result }
        ensures memory { ¬ (IsErrOf result SinkErr.NoMemory) }

        // Its writer gets what it takes.
        ensures writer { WriteAppends (W.contents self.old.writer) (W.contents self.new.writer) result piece.now }
    {
        match self.writer.write(piece) {
            Ok(0) if !piece.is_empty() => {
                self.faults = self.faults.saturating_add(1);
                Ok(0)
            }
            Ok(count) => Ok(count),
            Err(_) => {
                self.faults = self.faults.saturating_add(1);
                Err(SinkErr::Failed)
            }
        }
    }
}
