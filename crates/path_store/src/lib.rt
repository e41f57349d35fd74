//! Names by their whole paths.
#![tactic(auto)]

mod change;
mod dirs;
mod keys;
mod list;
mod look;
mod path;
mod paths;
mod places;
mod rename;
mod row;
mod store;

pub use places::place_of;
pub use store::PathStore;

#[cfg(test)]
mod tests;
