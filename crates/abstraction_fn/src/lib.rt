//! The entries of the abstract array that a server and its table stand for, and their texts.
#![tactic(auto)]

mod entry;
mod rows;
mod text;

pub use entry::{entry_of, entry_without_bytes};
pub use text::get_obj;
