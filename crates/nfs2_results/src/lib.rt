//! The results of NFS version 2's procedures (RFC 1094, 2.2), read and written.
#![tactic(auto)]

mod error;
pub mod laws;
mod reading;
#[cfg(test)]
mod tests;
mod writing;

pub use error::ResErr;
pub use reading::read_result;
pub use writing::write_result;
