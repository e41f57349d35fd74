//! Tests of the whole service over servers on media, and no code besides.
#![tactic(auto)]

#[cfg(test)]
mod tests;
