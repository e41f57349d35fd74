//! Tests of the whole service over servers of several kinds, and no code besides.
#![tactic(auto)]

#[cfg(test)]
mod tests;
