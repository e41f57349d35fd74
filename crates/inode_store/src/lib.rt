//! Inodes on a medium: a map from numbers to kinds, attributes and bytes.
#![tactic(auto)]

mod format;
mod inode;
mod resize;
mod store;
mod write;

pub use format::free_area;
pub use inode::Inode;
pub use store::InodeStore;

#[cfg(test)]
mod tests;
