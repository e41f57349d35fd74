//! A medium over memory.

ghost use Rattle.std.specs.Prelude.{◌≡◌, ◌≢◌, ℕ, length, replicate};
ghost use Rattle.std.specs.BTreeMap.{get};
ghost use Rattle.std.specs.Option.{ForSome};
ghost use Rattle.std.specs.Ordering.{nat_cmp};
ghost use Rattle.outside.specs.Media.{IsKept, bytes_of, length-bytes_of};

use crate::medium::{Block, Medium, MediumErr};
use crate::schedule::Schedule;
use crate::source::Failed;
use std::alloc::Global;
use std::collections::BTreeMap;

const ZEROS: Block = [0; 512];

/// A medium over memory, which fails at the calls that are listed. A block of zeros takes no memory.
#[derive(Debug, Drop)]
pub struct MemMedium {
    alloc: Global,
    kept: BTreeMap<u32, Box<Block>>,
    blocks: u32,
    schedule: Schedule,
    ghost kept_blocks: { (k : ℕ) → ForSome (get nat_cmp kept k) (λ block. IsKept block.value) },
}

impl MemMedium {
    /// So many blocks of zeros. `fails` lists the numbers, from 1, of the calls that fail. It takes no memory.
    pub fn new(alloc: Global, blocks: u32, fails: Vec<u64>) -> MemMedium
        ensures content { (k : ℕ) → ⟦<MemMedium as Medium>⟧.content result k ≡ replicate 512 0 }
        ensures size { ⟦<MemMedium as Medium>⟧.size result ≡ blocks }
        ensures faults { ⟦<MemMedium as Medium>⟧.faults result ≡ 0 }
    {
        MemMedium {
            alloc,
            kept: BTreeMap::new(alloc),
            blocks,
            schedule: Schedule::new(fails),
        }
    }
}

impl Medium for MemMedium {
    ghost content = { λ s k. bytes_of (get nat_cmp s.kept k) };

    ghost size = { λ s. s.blocks };

    ghost faults = { λ s. s.schedule.faults };

    fn blocks(&self) -> u32 {
        self.blocks
    }

    fn read(&mut self, block: u32, into: &mut Block) -> Result<(), Failed> {
        if self.schedule.fails_now() {
            return Err(Failed);
        }
        match self.kept.get(&block) {
            Some(kept) => *into = **kept,
            None => *into = ZEROS,
        }
        Ok(())
    }

    fn write(&mut self, block: u32, from: &Block) -> Result<(), MediumErr> {
        if self.schedule.fails_now() {
            return Err(MediumErr::Failed);
        }
        if *from == ZEROS {
            self.kept.remove(&block);
            return Ok(());
        }
        let copy = Box::new(self.alloc, *from)?;
        self.kept.insert(block, copy)?;
        Ok(())
    }

    ghost lengths = { λ s k. length-bytes_of (get nat_cmp s.kept k) (s.kept_blocks k) };
}
