//! Trees of pointers, which keep a run of blocks on a medium.
#![tactic(auto)]

mod claim;
mod cut;
mod get;
mod node;
mod put;
mod raise;
mod read;

pub use claim::claim_tree;
pub use cut::cut_tree;
pub use get::get_block;
pub use node::Area;
pub use put::put_block;
pub use raise::{deepen_tree, raise_tree};
pub use read::read_bytes;
