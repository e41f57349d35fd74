//! Tests of file servers over their interface, and no code besides.
#![tactic(auto)]

#[cfg(test)]
mod tests;
