//! The model of a cluster: its state, its steps, and what holds of every run.
#![tactic(auto)]

mod laws;
mod request;

pub use laws::{calm_runs, whole_runs};
pub use request::Request;
