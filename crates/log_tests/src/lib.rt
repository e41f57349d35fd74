//! Tests of what a server on a log asks of its medium, and no code besides.
#![tactic(auto)]

#[cfg(test)]
mod tests;
