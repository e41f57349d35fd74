//! The replicas of a service and their votes, stepped by the records of a log over a bench of servers.
#![tactic(auto)]

mod cluster;
mod lists;

pub use cluster::{Cluster, is_built};
pub use cluster_model::Request;
