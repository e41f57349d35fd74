//! What is kept in memory of the nodes of a log's tree, so that no call has to count.
#![tactic(auto)]

mod changes;
mod index;
mod info;

pub use index::LogIndex;
pub use info::NodeInfo;

#[cfg(test)]
mod tests;
