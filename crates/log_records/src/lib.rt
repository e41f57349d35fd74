//! What the records of a file system say: nodes, names, and chunks of bytes.
#![tactic(auto)]

mod key;
mod laws;
mod node;
mod read;
#[cfg(test)]
mod tests;
mod write;

pub use key::{NodeId, chunk_key, name_key, node_key};
pub use laws::{child_again, chunk_again, node_again, parts_again};
pub use node::NodeRecord;
pub use read::{is_of_name, is_of_node, read_child, read_chunk, read_id, read_node};
pub use write::{CHUNK_MAX, chunk_record, gone_record, name_record, node_record};
