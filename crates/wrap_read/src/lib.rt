//! Procedures of NFS version 2 that read, on a server with its table.
#![tactic(auto)]

mod calls;
mod content;
mod get_attr;
mod lookup;
mod page;
mod read_dir;
mod stat_fs;

pub use calls::read_proc;
