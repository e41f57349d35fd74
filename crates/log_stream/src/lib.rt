//! A log read from a source, and lines written to a sink.
#![tactic(auto)]

mod fault;
mod reading;
#[cfg(test)]
mod tests;
mod writing;

pub use fault::ReadErr;
pub use reading::{Record, read_header, read_record};
pub use writing::write_lines;
