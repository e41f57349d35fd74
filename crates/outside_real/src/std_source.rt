//! A reader of the system as a source.

ghost use Rattle.std.specs.Prelude.{◌≡◌, ℕ, None, IfOk};
ghost use Rattle.std.specs.Io.{ReadsAtMost};
ghost use Rattle.std.specs.Io.Buffered.{reader_remaining};
ghost use Rattle.std.specs.Io.KnownBytes.{ReadConsumes};
ghost use Rattle.outside.specs.Causes.{HasCause};
ghost use Rattle.outside.specs.Told.{TellsAlike};

use nfs2_types::NoMemory;
use outside::{Failed, Source};
use std::alloc::Global;
use std::io::{BufReader, Read};

/// A reader of the system as a source. It reads ahead into a buffer of 8,192 bytes, and hands out the bytes in their
/// order.
#[derive(Drop)]
pub struct StdSource<R: Read + Drop> {
    reader: BufReader<R>,
    faults: u64,
}

impl<R: Read + Drop> StdSource<R> {
    /// The source of what this reader gives.
    pub fn new(alloc: Global, reader: R) -> Result<StdSource<R>, NoMemory>
        ensures faults { IfOk result (λ s. ⟦<StdSource<R> as Source>⟧.faults s ≡ 0) }
        ensures reader { IfOk result (λ s. reader_remaining R.remaining s.reader ≡ R.remaining reader) }
    {
        match BufReader::new(alloc, reader) {
            Ok(reader) => Ok(StdSource { reader, faults: 0 }),
            Err(_) => Err(NoMemory),
        }
    }
}

impl<R: Read + Drop> Source for StdSource<R> {
    ghost left = { λ _. None };

    ghost faults = { λ s. s.faults };

    fn read(&mut self, buf: &mut [u8]) -> Result<usize, Failed>
        ensures bound { ReadsAtMost result buf.new }
        ensures bytes { ReadConsumes None None result buf.new }
        ensures tells { TellsAlike {A = ℕ} None None }
        ensures cause { HasCause self.old.faults self.new.faults result }

        // It hands out what its reader gives, behind what was read ahead.
        ensures reader { ReadConsumes (reader_remaining R.remaining self.old.reader)
            (reader_remaining R.remaining self.new.reader) result buf.new }
    {
        match self.reader.read(buf) {
            Ok(count) => Ok(count),
            Err(_) => {
                self.faults = self.faults.saturating_add(1);
                Err(Failed)
            }
        }
    }
}
