//! Tests of a server of inodes, over media that count and media that fail, and no code besides.
#![tactic(auto)]

#[cfg(test)]
mod tests;
