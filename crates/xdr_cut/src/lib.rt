//! Items of XDR (RFC 4506) read from bytes that may be cut: what is there, or how many bytes it needs.
#![tactic(auto)]

mod error;
mod opaques;
#[cfg(test)]
mod tests;
mod words;

pub use error::{CutErr, ScanErr};
pub use opaques::{fixed_in, opaque_in};
pub use words::{bool_in, is_zero_front, word_in, word_of_ranges};
