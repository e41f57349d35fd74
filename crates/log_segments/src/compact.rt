//! Compaction: the live records go to the other half.

ghost use Rattle.std.specs.Prelude.{◌≡◌, ◌==◌, ◌<◌, ◌≤◌, length, OnOk, OnErr};
ghost use Rattle.outside.specs.Causes.{WriteHasCause};
ghost use Rattle.log_segments.specs.Failures.{MayShrink};
ghost use Rattle.log_segments.specs.Record.{is_end};
ghost use Rattle.log_segments.specs.Segments.{half_of, live_of, medium_of, records_of, IsLog, IsOther};

use crate::log::Log;
use crate::places::Places;
use crate::record::key_of;
use outside::{Block, Medium, MediumErr};

/// Block 0 where the current half begins there.
fn name_of(start: u32) -> Block
    ensures { is_end result ≡ (start == 1) }
{
    let mut block = [0; 512];
    if start != 1 {
        block[0] = 1;
    }
    block
}

impl<M: Medium> Log<M> {
    /// Where the other half begins.
    fn other(&self) -> u32
        requires log { IsLog M.content M.size self.now }
        requires half { 1 ≤ half_of M.size self.now }
        ensures { IsOther (M.size (medium_of self.now)) self.now.start result }
    {
        if self.start == 1 { 1 + self.half() } else { 1 }
    }

    /// Writes the live records into the other half, and makes that the current one by a write of block 0.
    pub fn compact(&mut self) -> Result<(), MediumErr>
        requires log { IsLog M.content M.size self.old }
        requires room { length (live_of M.content M.size self.old) < half_of M.size self.old }
        ensures log { OnOk result (IsLog M.content M.size self.new) }
        ensures records { OnOk result (records_of M.content M.size self.new ≡ live_of M.content M.size self.old) }
        ensures torn { let of = records_of M.content M.size in OnErr result (MayShrink (of self.old) (of self.new)) }
        ensures size { M.size (medium_of self.new) ≡ M.size (medium_of self.old) }
        ensures cause { WriteHasCause (M.faults (medium_of self.old)) (M.faults (medium_of self.new)) result }
    {
        let target = self.other();
        let mut places = Places::new(self.alloc);
        let mut count = 0;
        let mut block = [0; 512];
        for place in 0..self.end {
            self.medium.read(self.start + place, &mut block)?;
            let key = key_of(self.alloc, &block)?;
            if !self.places.is_at(&key, place) {
                continue;
            }
            self.medium.write(target + count, &block)?;
            places.note(key, false, count)?;
            count += 1;
        }
        self.medium.write(target + count, &[0; 512])?;
        self.medium.write(0, &name_of(target))?;
        self.start = target;
        self.end = count;
        self.places = places;
        Ok(())
    }
}
