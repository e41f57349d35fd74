//! Names of directories in a store of inodes.
#![tactic(auto)]

mod names;
mod slots;

pub use names::{add_name, remove_name};
pub use slots::{count_slots, slot_at};

#[cfg(test)]
mod tests;
