//! Items of a transfer, and what becomes of bytes that are given for one.

/// A level and a number: level 0 is the text of an entry, a higher level that of a node.
#[derive(Clone, Copy, Debug, PartialEq, Eq)]
pub struct Item {
    pub level: u32,
    pub number: u32,
}

/// Whether bytes were taken for the item that was next.
#[derive(Clone, Copy, Debug, PartialEq, Eq)]
pub enum Taken {
    Good,
    Wrong,
}

/// How many nodes and entries were got towards a target.
#[derive(Clone, Copy, Debug, PartialEq, Eq)]
pub struct Counts {
    pub nodes: u32,
    pub objects: u32,
}
