//! A file server over another that fails at chosen calls, for tests and for trying what a failure does.
#![tactic(auto)]

mod fail;
mod plan;
mod server;

pub use fail::{Fail, SrvCall};
pub use server::Flaky;
