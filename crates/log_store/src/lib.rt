//! Nodes, names and chunks of bytes on a log.
#![tactic(auto)]

mod chunks;
mod names;
mod nodes;
mod store;
#[cfg(test)]
mod tests;

pub use store::LogStore;
