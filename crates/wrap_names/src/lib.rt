//! Procedures on names, over a boxed server.
#![tactic(auto)]

mod below;
mod calls;
mod drop;
mod ends;
mod find;
mod link;
mod plan;
mod remove;
mod remove_dir;
mod rename;
mod replace;
mod tell;

pub use calls::names_proc;
