//! The abstract file service: arrays of entries, and what each call of NFS version 2 does to one.
#![tactic(auto)]

mod entry;
mod laws;
mod numbers;

pub use entry::{Attr, Change, Entry, NameRow, Names, Object};
pub use laws::{
    as_long, empty_is_valid, goes_on, shows_objects_alone, stays_stale, stays_valid, told_once,
    told_within, untold_stays,
};
pub use numbers::{
    DIR_MODE, DIR_TYPE, FILE_LIMIT, FILE_MODE, FILE_TYPE, LINK_MODE, LINK_TYPE, NAME_SPACE,
    NEW_DIR_MODE, NEW_FILE_MODE, OPEN_MODE, TEXT_LIMIT, TRANSFER_LIMIT,
};

#[cfg(test)]
mod tests;
