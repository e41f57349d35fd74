//! A clock.

ghost use Rattle.std.specs.Prelude.{◌≡◌, List, Option, IsTrue};
ghost use Rattle.nfs2_types.specs.Times.{is_time};
ghost use Rattle.nfs2_types.specs.declared.time.Time.{Time};
ghost use Rattle.outside.specs.Answers.{Answers};
ghost use Rattle.outside.specs.Told.{TellsAlike};

use nfs2_types::Time;

/// Where times come from. A clock can't fail.
pub trait Clock {
    /// The answers to come, of which the last one repeats, where the clock tells them.
    ghost times: { Self → Option (List Time) };

    /// The time now.
    fn now(&mut self) -> Time
        ensures time { IsTrue (is_time result) }
        ensures answers { Answers (times self.old) (times self.new) result }
        ensures tells { TellsAlike (times self.old) (times self.new) };
}
