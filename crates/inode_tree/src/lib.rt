//! The tree of a medium's inodes, with tables of it in memory, and its changes.
#![tactic(auto)]

mod edits;
mod entries;
mod looks;
mod names;
mod nodes;
mod reads;
mod tables;
mod text;
mod tree;
mod wipe;

pub use tables::InodeTables;
pub use tree::InodeTree;

#[cfg(test)]
mod tests;
