//! Tests of a store of checkpoints beside a service in memory, and no code besides.
#![tactic(auto)]

#[cfg(test)]
mod tests;
