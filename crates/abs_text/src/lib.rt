//! The texts of entries and of the nodes of the digest tree: their definitions, that they tell entries apart, and how
//! an entry's is written and read.
#![tactic(auto)]

mod error;
mod laws;
mod node;
mod reading;
mod writing;

pub use error::EntryErr;
pub use laws::{entries_are_spelled_apart, entry_texts_are_read, nodes_give_back_their_digests};
pub use node::is_node_text;
pub use reading::read_entry;
pub use writing::write_entry;

#[cfg(test)]
mod tests;
