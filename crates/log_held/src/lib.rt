//! What holds of the records of a tree that a medium holds, and why a half has room for them.
#![tactic(auto)]

mod laws;

pub use laws::{held_is_sound, live_are_once, sound_is_held, sound_leaves_room};
