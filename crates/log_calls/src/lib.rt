//! The calls of a file server over a tree on a log.
#![tactic(auto)]

mod answers;
mod asking;
mod below;
mod found;
mod life;
mod listing;
mod names;
mod room;
mod writing;

pub use answers::has_tree;
pub use asking::{attr, lookup, read, read_link};
pub use found::{Found, handle_of};
pub use life::{mount, reboot, wipe};
pub use listing::list;
pub use names::{link, make, remove, rename, rmdir};
pub use writing::{set_attr, set_size, write};
