//! Tables of calls over a server of any kind, against the plain machine.
#![tactic(auto)]

mod dirs;
mod files;
mod many;
mod moves;
mod names;
mod restarts;
mod results;
mod service;
mod tables;
mod words;

pub use tables::{
    directories, files_and_links, gap, given_and_taken, gone, listed, many_names_and_a_long_chain,
    moved, named_thrice, restarted,
};
