//! A log of records on a medium, of which the newest of each key counts.
#![tactic(auto)]

mod append;
mod compact;
mod key;
mod log;
mod places;
mod put;
mod record;
mod replay;
#[cfg(test)]
mod tests;
mod under;

pub use key::Key;
pub use log::Log;
