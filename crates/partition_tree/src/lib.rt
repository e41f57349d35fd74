//! A tree of SHA-256 digests over 16, 256 or 4,096 texts, sixteen below each node.
#![tactic(auto)]

mod digests;
mod steps;
mod tree;

pub use steps::Steps;
pub use tree::{Changed, Tree};

#[cfg(test)]
mod tests;
