//! Counts of a table of inodes: names that lead to each, subdirectories of each, and the bytes in use.
#![tactic(auto)]

mod counts;

pub use counts::InodeCounts;

#[cfg(test)]
mod tests;
