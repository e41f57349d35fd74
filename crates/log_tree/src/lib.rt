//! The tree that the log on a medium holds, and what each record does to it.
#![tactic(auto)]

mod laws;

pub use laws::{has_room, of_chunk, of_inside, of_name, of_node, root_is_held};
