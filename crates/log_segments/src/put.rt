//! The records of keys.

ghost use Rattle.std.specs.Prelude.{◌≡◌, ◌+◌, ◌<◌, false, length, IfOk, IfSome, OnOk, OnErr};
ghost use Rattle.outside.specs.Causes.{WriteHasCause};
ghost use Rattle.log_segments.specs.Failures.{MayPut};
ghost use Rattle.log_segments.specs.Newest.{IsLiveAt, after, find};
ghost use Rattle.log_segments.specs.Record.{is_end, is_gone};
ghost use Rattle.log_segments.specs.Segments.{half_of, live_of, medium_of, records_of, HasRoom, IsLog};

use crate::key::Key;
use crate::log::Log;
use crate::record::key_of;
use outside::{Block, Medium, MediumErr};

impl<M: Medium> Log<M> {
    /// Compacts where the current half is full.
    fn make_room(&mut self) -> Result<(), MediumErr>
        requires log { IsLog M.content M.size self.old }
        requires room { length (live_of M.content M.size self.old) + 1 < half_of M.size self.old }
        ensures log { OnOk result (IsLog M.content M.size self.new) }
        ensures room { OnOk result (HasRoom M.size self.new) }
        ensures live { live_of M.content M.size self.new ≡ live_of M.content M.size self.old }
        ensures size { M.size (medium_of self.new) ≡ M.size (medium_of self.old) }
        ensures cause { WriteHasCause (M.faults (medium_of self.old)) (M.faults (medium_of self.new)) result }
    {
        if self.half().saturating_sub(self.end) > 1 {
            return Ok(());
        }
        self.compact()?;
        Ok(())
    }

    /// Puts a record in the place of the earlier one of its key.
    pub fn put(&mut self, block: &Block) -> Result<(), MediumErr>
        requires log { IsLog M.content M.size self.old }
        requires stands { is_end block.now ≡ false }
        requires room { length (live_of M.content M.size self.old) + 1 < half_of M.size self.old }
        ensures log { OnOk result (IsLog M.content M.size self.new) }
        ensures live { let of = live_of M.content M.size in OnOk result (of self.new ≡ after (of self.old) block.now) }
        ensures torn { let of = live_of M.content M.size in OnErr result (MayPut (of self.old) (of self.new)) }
        ensures size { M.size (medium_of self.new) ≡ M.size (medium_of self.old) }
        ensures cause { WriteHasCause (M.faults (medium_of self.old)) (M.faults (medium_of self.new)) result }
    {
        self.make_room()?;
        self.append(block)?;
        Ok(())
    }

    /// The live record of a key.
    pub fn find(&mut self, key: &Key) -> Result<Option<Block>, MediumErr>
        requires log { IsLog M.content M.size self.old }
        ensures found { IfOk result (λ found. found ≡ find key.now (live_of M.content M.size self.old)) }
        ensures content { M.content (medium_of self.new) ≡ M.content (medium_of self.old) }
        ensures size { M.size (medium_of self.new) ≡ M.size (medium_of self.old) }
        ensures log { IsLog M.content M.size self.new }
        ensures cause { WriteHasCause (M.faults (medium_of self.old)) (M.faults (medium_of self.new)) result }
    {
        match self.places.get(key) {
            Some(place) => {
                let mut block = [0; 512];
                self.medium.read(self.start + place, &mut block)?;
                Ok(Some(block))
            }
            None => Ok(None),
        }
    }

    /// The record at a place of the current half, where it is the newest of its key and stands.
    pub fn live_at(&mut self, place: u32) -> Result<Option<Block>, MediumErr>
        requires log { IsLog M.content M.size self.old }
        requires within { place < length (records_of M.content M.size self.old) }
        ensures live { IfOk result (IsLiveAt (records_of M.content M.size self.old) place) }
        ensures stands { IfOk result (λ found. IfSome found (λ block. is_gone block ≡ false)) }
        ensures content { M.content (medium_of self.new) ≡ M.content (medium_of self.old) }
        ensures size { M.size (medium_of self.new) ≡ M.size (medium_of self.old) }
        ensures log { IsLog M.content M.size self.new }
        ensures cause { WriteHasCause (M.faults (medium_of self.old)) (M.faults (medium_of self.new)) result }
    {
        let block = self.read(place)?;
        let key = key_of(self.alloc, &block)?;
        if self.places.is_at(&key, place) {
            return Ok(Some(block));
        }
        Ok(None)
    }
}
