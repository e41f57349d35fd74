//! The free blocks of a medium.
#![tactic(auto)]

mod bits;
mod block_map;

pub use block_map::BlockMap;

#[cfg(test)]
mod tests;
