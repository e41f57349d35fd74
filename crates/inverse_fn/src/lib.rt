//! Puts entries: the inverse of reading them.
#![tactic(auto)]

mod changes;
mod failure;
mod put;
mod reading;

pub use failure::PutErr;
pub use put::put_objs;
