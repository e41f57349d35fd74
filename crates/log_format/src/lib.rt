//! The log of a service and the lines that a run of it prints.
#![tactic(auto)]

mod event;
mod header;
mod laws;
mod line;
mod reading;
#[cfg(test)]
mod tests;
mod writing;

pub use event::{Event, EventErr};
pub use header::{Header, HeaderErr, read_header, write_header};
pub use laws::{again, no_prefix, taken_whole};
pub use line::{IdleCause, Line, write_line};
pub use reading::read_event;
pub use writing::write_event;
