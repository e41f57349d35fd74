//! The plain runnable machine: the abstract file service as a program over a list of entries.
#![tactic(auto)]

mod array;
mod attrs;
mod bytes;
mod edits;
mod reads;
mod rows;
mod step;
mod writes;

pub use abs_queries::is_valid;
pub use array::AbsArray;
pub use step::plain_step;
