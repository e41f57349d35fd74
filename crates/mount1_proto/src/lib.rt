//! The calls of MOUNT version 1 (RFC 1094, appendix A): their arguments read, and their results written.
#![tactic(auto)]

mod args;
pub mod laws;
mod reading;
#[cfg(test)]
mod tests;
mod writing;

pub use args::MountArgs;
pub use reading::read_mount;
pub use writing::write_mount;
