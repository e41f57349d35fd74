//! The objects of the outside that the system gives. They tell nothing of their contents.
#![tactic(auto)]

mod std_sink;
mod std_source;
#[cfg(test)]
mod tests;

pub use std_sink::StdSink;
pub use std_source::StdSource;
