//! A server is rebooted, and its table finds the new handles of the nodes.
#![tactic(auto)]

mod beginning;
mod found;
mod handles;
mod numbers;
mod rebinding;
mod restarting;
mod walk;

pub use restarting::restart;
