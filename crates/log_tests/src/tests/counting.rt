//! A medium that counts what is asked of it.

ghost use Rattle.std.specs.Prelude.{◌≡◌};

use outside::{Block, Failed, Medium, MediumErr};

/// A medium over another, with how many blocks were read and written, and how often block 0 was written.
#[derive(Drop)]
pub struct Counting<M> {
    medium: M,
    pub reads: u64,
    pub writes: u64,
    pub turns: u64,
}

impl<M: Medium> Counting<M> {
    /// Nothing is counted yet.
    pub fn new(medium: M) -> Counting<M>
        ensures { ⟦<Counting<M> as Medium>⟧.size result ≡ M.size medium }
    {
        Counting {
            medium,
            reads: 0,
            writes: 0,
            turns: 0,
        }
    }
}

impl<M: Medium> Medium for Counting<M> {
    ghost content = { λ s. M.content s.medium };

    ghost size = { λ s. M.size s.medium };

    ghost faults = { λ s. M.faults s.medium };

    fn blocks(&self) -> u32 {
        self.medium.blocks()
    }

    fn read(&mut self, block: u32, into: &mut Block) -> Result<(), Failed> {
        self.reads = self.reads.saturating_add(1);
        self.medium.read(block, into)
    }

    fn write(&mut self, block: u32, from: &Block) -> Result<(), MediumErr> {
        self.writes = self.writes.saturating_add(1);
        if block == 0 {
            self.turns = self.turns.saturating_add(1);
        }
        self.medium.write(block, from)
    }

    ghost lengths = { λ s k. M.lengths s.medium k };
}
