//! The service that a cluster runs, as the model of the cluster sees it, and that the model's laws hold of it.
#![tactic(auto)]

mod laws;

pub use laws::{fairness, service_is_lawful, service_runs, service_steps};
