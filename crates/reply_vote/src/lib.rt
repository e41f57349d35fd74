//! Votes of replicas: their standing words by place, and what enough equal words decide.
#![tactic(auto)]

mod standing;
#[cfg(test)]
mod tests;
mod votes;

pub use votes::Votes;
