//! A replica that is given up is rebuilt: its server is rebooted or wiped, what differs from a stable place is fetched,
//! and it is live again at that place.
#![tactic(auto)]

mod beginning;
mod failure;
mod finishing;
mod laws;
mod reading;
mod rebuild;
mod serving;

pub use failure::FinishErr;
pub use laws::{counts_are_of_items, fetched_arrays_have_the_root, held_items_are_given};
pub use rebuild::Rebuild;
pub use serving::serve_item;
