//! Objects that stand in the staging directory while an array is built: how each begins, is filled, and gets its names.
#![tactic(auto)]

mod filling;
mod making;
mod names;
mod naming;
mod parents;
mod rename;

pub use filling::{dress, fill};
pub use making::{begin, is_null_entry, renew, staged_name};
pub use names::place;
pub use naming::{handle_of, put_name};
pub use parents::set_parent;
pub use rename::move_name;
