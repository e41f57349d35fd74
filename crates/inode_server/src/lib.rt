//! A file server whose tree is on a medium of inodes.
#![tactic(auto)]

mod answers;
mod asking;
mod find;
mod life;
mod making;
mod removing;
mod renaming;
mod rows;
mod server;
mod start;
mod writing;

pub use server::InodeServer;
