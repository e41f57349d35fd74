//! Entries of the abstract array.

ghost use Rattle.std.specs.Prelude.{◌≡◌, List, ℕ, length};

use nfs2_types::{Blob, Time};
use std::alloc::{AllocError, Global};
use std::marker::Model;

/// The attributes of an object: a mode of twelve bits, its owners, and its times.
#[derive(Clone, Copy, Debug, PartialEq, Eq)]
pub struct Attr {
    pub mode: u32,
    pub uid: u32,
    pub gid: u32,
    pub atime: Time,
    pub mtime: Time,
    pub ctime: Time,
}

/// A name of a directory: the index and the generation of the entry to which it leads.
#[derive(Debug, Drop)]
pub struct NameRow {
    pub name: Blob,
    pub index: u32,
    pub generation: u32,
}

impl Clone for NameRow {
    ghost is_clone = { λ s t. t ≡ s };

    fn clone(&self) -> Result<NameRow, AllocError> {
        Ok(NameRow {
            name: self.name.clone()?,
            index: self.index,
            generation: self.generation,
        })
    }
}

/// The names of a directory, which contracts see as the list of their rows.
#[derive(Debug, Drop)]
pub struct Names {
    rows: Vec<NameRow>,
}

impl Model for Names {
    ghost use Rattle.std.specs.Prelude.{List};
    ghost use Rattle.abs_model.specs.declared.entry.NameRow.{NameRow};

    ghost Value = { List NameRow };

    ghost view = { λ n. n.rows.items };
}

impl Names {
    /// The names of these rows. It takes no memory.
    pub fn new(rows: Vec<NameRow>) -> Names
        ensures { result ≡ rows.items }
    {
        Names { rows }
    }

    /// The rows in their order.
    pub fn as_slice(&self) -> &[NameRow]
        ensures { result.now ≡ self.now }
    {
        self.rows.as_slice()
    }

    /// The rows, given back. It takes no memory.
    pub fn into_rows(self) -> Vec<NameRow>
        ensures { result.items ≡ self }
    {
        self.rows
    }
}

impl Clone for Names {
    ghost is_clone = { λ s t. t ≡ s };

    fn clone(&self) -> Result<Names, AllocError> {
        Ok(Names {
            rows: self.rows.clone()?,
        })
    }
}

/// What stands at an index: nothing, a regular file, a directory, or a symbolic link.
#[derive(Debug, Drop)]
pub enum Object {
    Null,
    File { attr: Attr, bytes: Blob },
    Dir { attr: Attr, names: Names },
    Link { attr: Attr, text: Blob },
}

/// An entry of the array. Its generation rises with each object that takes its place.
#[derive(Debug, Drop)]
pub struct Entry {
    pub generation: u32,
    pub object: Object,
}

/// An entry that is put at an index of the array.
#[derive(Debug, Drop)]
pub struct Change {
    pub index: u32,
    pub entry: Entry,
}
