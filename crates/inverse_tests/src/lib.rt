//! Tests of arrays that are put into a server and read back, and no code besides.
#![tactic(auto)]

#[cfg(test)]
mod tests;
