//! The arguments of NFS version 2's procedures (RFC 1094, 2.2), read and written.
#![tactic(auto)]

mod fields;
pub mod laws;
mod procedures;
mod reading;
#[cfg(test)]
mod tests;
mod writing;

pub use reading::read_args;
pub use writing::write_args;
