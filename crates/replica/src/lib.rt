//! A replica over its server: it begins with the empty array, runs requests in order, takes checkpoints, and may be
//! harmed.
#![tactic(auto)]

mod beginning;
mod harm;
mod lie;
mod lies;
mod refreshing;
mod running;

pub use beginning::empty_tree;
pub use lie::Lie;
pub use lies::Lies;
pub use running::{Cast, Replica};
