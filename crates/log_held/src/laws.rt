//! Laws of what a medium holds.

ghost use Rattle.log_held.specs.Laws.{HeldIsSound, LiveAreOnce, SoundIsHeld};
ghost use Rattle.log_held.specs.Room.{LeavesRoom};

/// The records of a tree that is held are sound.
pub fn held_is_sound()
    ensures { HeldIsSound }
{}

/// Sound records make a tree that is held.
pub fn sound_is_held()
    ensures { SoundIsHeld }
{}

/// Of each key one record is live.
pub fn live_are_once()
    ensures { LiveAreOnce }
{}

/// A medium as large as the limits ask for has room for the records of each tree that is held, and for more.
pub fn sound_leaves_room()
    ensures { LeavesRoom }
{}
