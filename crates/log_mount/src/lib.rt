//! A medium with a log on it, read back into memory.
#![tactic(auto)]

mod mount;
mod names;
mod nodes;
mod size;
#[cfg(test)]
mod tests;

pub use mount::read_log;
