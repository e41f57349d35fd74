//! Names of directories: slots in the bytes of an inode, and an index of them in memory.
#![tactic(auto)]

mod index;
mod slots;

pub use index::{DirIndex, Place, find_name};
pub use slots::{Slot, format_slot, parse_slot};
