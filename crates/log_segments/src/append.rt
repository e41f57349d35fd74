//! One record more.

ghost use Rattle.std.specs.Prelude.{◌≡◌, false, OnOk, OnErr};
ghost use Rattle.outside.specs.Causes.{WriteHasCause};
ghost use Rattle.log_segments.specs.Failures.{MayGrow};
ghost use Rattle.log_segments.specs.Record.{is_end};
ghost use Rattle.log_segments.specs.Segments.{medium_of, records_of, Appends, HasRoom, IsLog};

use crate::log::Log;
use crate::record::{is_gone, key_of};
use outside::{Block, Medium, MediumErr};

impl<M: Medium> Log<M> {
    /// Puts a record behind those of the current half, with a new end mark behind it that is written first.
    pub fn append(&mut self, block: &Block) -> Result<(), MediumErr>
        requires log { IsLog M.content M.size self.old }
        requires stands { is_end block.now ≡ false }
        requires room { HasRoom M.size self.old }
        ensures log { OnOk result (IsLog M.content M.size self.new) }
        ensures records { OnOk result (Appends M.content M.size self.old block.now self.new) }
        ensures torn { let of = records_of M.content M.size in OnErr result (MayGrow (of self.old) (of self.new)) }
        ensures size { M.size (medium_of self.new) ≡ M.size (medium_of self.old) }
        ensures cause { WriteHasCause (M.faults (medium_of self.old)) (M.faults (medium_of self.new)) result }
    {
        let key = key_of(self.alloc, block)?;
        let place = self.start + self.end;
        self.medium.write(place + 1, &[0; 512])?;
        self.medium.write(place, block)?;
        self.places.note(key, is_gone(block), self.end)?;
        self.end += 1;
        Ok(())
    }
}
