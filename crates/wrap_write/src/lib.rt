//! Procedures that write a file or set attributes, over a boxed server.
#![tactic(auto)]

mod calls;
mod set_attr;
mod target;
mod write;

pub use calls::write_proc;
