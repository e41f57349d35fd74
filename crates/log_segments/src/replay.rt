//! An empty log, and a log that is read from its medium.

ghost use Rattle.std.specs.Prelude.{◌≡◌, ◌≤◌, [], OnOk, IfOk};
ghost use Rattle.outside.specs.Causes.{WriteHasCause};
ghost use Rattle.log_segments.specs.Segments.{half_of, live_of, medium_of, start_of, IsLog};

use crate::log::Log;
use crate::places::Places;
use crate::record::{is_end, is_gone, key_of};
use outside::{Medium, MediumErr};

impl<M: Medium> Log<M> {
    /// Makes the log empty, whatever the medium holds.
    pub fn clear(&mut self) -> Result<(), MediumErr>
        requires half { 1 ≤ half_of M.size self.old }
        ensures log { OnOk result (IsLog M.content M.size self.new) }
        ensures live { OnOk result (live_of M.content M.size self.new ≡ []) }
        ensures size { M.size (medium_of self.new) ≡ M.size (medium_of self.old) }
        ensures cause { WriteHasCause (M.faults (medium_of self.old)) (M.faults (medium_of self.new)) result }
    {
        let _half = self.half();
        self.medium.write(1, &[0; 512])?;
        self.medium.write(0, &[0; 512])?;
        self.start = 1;
        self.end = 0;
        self.places = Places::new(self.alloc);
        Ok(())
    }

    /// Where the current half begins.
    fn current(&mut self) -> Result<u32, MediumErr>
        requires half { 1 ≤ half_of M.size self.old }
        ensures start { let m = medium_of self.old in IfOk result (λ start. start ≡ start_of (M.content m) (M.size m)) }
        ensures content { M.content (medium_of self.new) ≡ M.content (medium_of self.old) }
        ensures size { M.size (medium_of self.new) ≡ M.size (medium_of self.old) }
        ensures cause { WriteHasCause (M.faults (medium_of self.old)) (M.faults (medium_of self.new)) result }
    {
        let half = self.half();
        let mut block = [0; 512];
        self.medium.read(0, &mut block)?;
        if is_end(&block) { Ok(1) } else { Ok(1 + half) }
    }

    /// Reads the records of the current half.
    pub fn replay(&mut self) -> Result<(), MediumErr>
        requires half { 1 ≤ half_of M.size self.old }
        ensures log { OnOk result (IsLog M.content M.size self.new) }
        ensures content { M.content (medium_of self.new) ≡ M.content (medium_of self.old) }
        ensures size { M.size (medium_of self.new) ≡ M.size (medium_of self.old) }
        ensures cause { WriteHasCause (M.faults (medium_of self.old)) (M.faults (medium_of self.new)) result }
    {
        let half = self.half();
        self.start = self.current()?;
        self.end = 0;
        self.places = Places::new(self.alloc);
        let mut block = [0; 512];
        for place in 0..half {
            self.medium.read(self.start + place, &mut block)?;
            if is_end(&block) {
                return Ok(());
            }
            let key = key_of(self.alloc, &block)?;
            self.places.note(key, is_gone(&block), place)?;
            self.end += 1;
        }
        Ok(())
    }
}
