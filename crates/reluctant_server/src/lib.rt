//! A file server that does no more than the interface asks, to try the wrappers over.
#![tactic(auto)]

mod server;

pub use server::Reluctant;

#[cfg(test)]
mod tests;
