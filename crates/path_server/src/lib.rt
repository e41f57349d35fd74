//! A file server that keeps its tree in memory.
#![tactic(auto)]

mod contents;
mod laws;
mod node;
mod nodes;
mod rows;
mod server;
mod tree;

pub use laws::{no_faults, within_limits};
pub use server::PathServer;
