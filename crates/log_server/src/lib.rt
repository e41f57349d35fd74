//! A file server whose tree is on a medium with a log.
#![tactic(auto)]

mod server;
mod start;

pub use server::LogServer;
