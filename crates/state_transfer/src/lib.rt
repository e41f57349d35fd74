//! The transfer of what differs between two arrays: a walk down the digest tree that sees digests alone.
#![tactic(auto)]

mod children;
mod fetcher;
mod item;
mod laws;
mod walk;

pub use fetcher::Fetcher;
pub use item::{Counts, Item, Taken};
pub use laws::{fetched_texts_have_the_root, fetches_are_walks, fetches_gather_changes};

#[cfg(test)]
mod tests;
