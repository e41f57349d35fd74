//! Changes of a server and its table together, after which they stand for the changed array.
#![tactic(auto)]

mod add;
mod drop;
mod generation;
mod link;
mod moves;
mod node;
mod object;
mod put;
mod resize;
mod rows;
mod settings;
mod times;

pub use add::{Place, add_new};
pub use drop::drop_name;
pub use generation::set_generation;
pub use link::add_link;
pub use moves::move_name;
pub use node::{NewNode, make_node};
pub use object::NewObject;
pub use put::{write_all, write_file};
pub use resize::resize_file;
pub use settings::set_object;
pub use times::set_times;
