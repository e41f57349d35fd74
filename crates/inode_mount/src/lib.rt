//! A medium of inodes is read, and what the tables of a server say of it.
#![tactic(auto)]

mod claim;
mod enter;
mod laws;
mod names;
mod read;

pub use claim::claim_inodes;
pub use laws::holds_tree;
pub use read::read_tables;

#[cfg(test)]
mod tests;
