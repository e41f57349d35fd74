//! Changes of a tree on a log, over the log and the memory beside it at once.
#![tactic(auto)]

mod attr;
mod bytes;
mod names;
mod nodes;
#[cfg(test)]
mod tests;
mod text;
mod tree;
mod whole;
mod wipe;

pub use tree::LogTree;
pub use wipe::ROOT;
