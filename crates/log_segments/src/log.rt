//! A log.

ghost use Rattle.std.specs.Prelude.{◌≡◌, ◌<◌, ◌^◌, Some, IfOk, length, slice_get};
ghost use Rattle.outside.specs.Causes.{WriteHasCause};
ghost use Rattle.log_segments.specs.Segments.{half_of, medium_of, records_of, IsLog};

use crate::places::Places;
use outside::{Block, Medium, MediumErr};
use std::alloc::Global;

/// A log of records on a medium. Where a call answers an error, what the log keeps in memory may be wrong: it serves
/// again after a `clear` or a `replay`.
#[derive(Drop)]
pub struct Log<M: Medium> {
    pub(crate) alloc: Global,
    pub(crate) medium: M,
    // where the current half begins
    pub(crate) start: u32,
    // how many records it has
    pub(crate) end: u32,
    // where in it the newest record of each key stands
    pub(crate) places: Places,
}

impl<M: Medium> Log<M> {
    /// A log whose medium is not read yet. It takes no memory.
    pub fn new(alloc: Global, medium: M) -> Log<M>
        ensures { medium_of result ≡ medium }
    {
        Log {
            alloc,
            medium,
            start: 1,
            end: 0,
            places: Places::new(alloc),
        }
    }

    /// The medium, given back.
    pub fn into_medium(self) -> M
        ensures { result ≡ medium_of self }
    {
        self.medium
    }

    /// The blocks of one half.
    pub fn half(&self) -> u32
        ensures size { result ≡ half_of M.size self.now }
        ensures few { M.size (medium_of self.now) < 2 ^ 32 }
    {
        self.medium.blocks().saturating_sub(1) / 2
    }

    /// How many records the current half has, those among them that later ones replace.
    pub fn len(&self) -> u32
        requires { IsLog M.content M.size self.now }
        ensures { result ≡ length (records_of M.content M.size self.now) }
    {
        self.end
    }

    /// The record at a place of the current half, of which the oldest is at 0.
    pub fn read(&mut self, place: u32) -> Result<Block, MediumErr>
        requires log { IsLog M.content M.size self.old }
        requires within { place < length (records_of M.content M.size self.old) }
        ensures read { IfOk result (λ block. slice_get (records_of M.content M.size self.old) place ≡ Some block) }
        ensures content { M.content (medium_of self.new) ≡ M.content (medium_of self.old) }
        ensures size { M.size (medium_of self.new) ≡ M.size (medium_of self.old) }
        ensures log { IsLog M.content M.size self.new }
        ensures cause { WriteHasCause (M.faults (medium_of self.old)) (M.faults (medium_of self.new)) result }
    {
        let mut block = [0; 512];
        self.medium.read(self.start + place, &mut block)?;
        Ok(block)
    }
}
