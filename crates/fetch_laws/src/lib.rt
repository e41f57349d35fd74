//! A Fetch, as the code makes it, is a walked fetch of the model.
#![tactic(auto)]

mod laws;

pub use laws::{made_fetches_are_walked, true_items_fit};
