//! Questions that a program asks of an array of the abstract service: what stands there, what a
//! client sees of it, which calls are refused, and whether it is valid.
#![tactic(auto)]

pub mod entries;
pub mod listed;
pub mod look;
mod marking;
pub mod names;
pub mod refusals;
pub mod seen;
mod validity;

pub use validity::is_valid;

#[cfg(test)]
mod tests;
