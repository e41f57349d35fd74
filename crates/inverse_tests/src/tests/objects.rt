//! Objects of the first generation, whose attributes tell their indexes apart.

use abs_model::{Attr, Change, Entry, NameRow, Names, Object};
use nfs2_types::{Blob, NoMemory, Time};
use std::alloc::Global;

/// What stands at an index: a directory with its names, of one byte each, and where they lead; a file with its bytes; a
/// link with its text; or nothing any more.
#[derive(Clone, Copy)]
pub enum Row {
    Dir(u32, &'static [(u8, u32)]),
    File(u32, &'static [u8]),
    Link(u32, &'static [u8]),
    Gone(u32),
}

/// Attributes that tell indexes apart.
fn attr(index: u32) -> Attr {
    let time = Time {
        secs: index,
        micros: 7,
    };
    Attr {
        mode: index % 8,
        uid: 10,
        gid: 20,
        atime: time,
        mtime: time,
        ctime: time,
    }
}

/// The names of a directory.
fn names_of(alloc: Global, wanted: &[(u8, u32)]) -> Result<Names, NoMemory> {
    let mut rows = Vec::new(alloc);
    for (name, index) in wanted {
        rows.push(NameRow {
            name: Blob::from_slice(alloc, &[*name])?,
            index: *index,
            generation: 1,
        })?;
    }
    Ok(Names::new(rows))
}

/// The index, and the object that is to stand there.
fn object_of(alloc: Global, row: &Row) -> Result<(u32, Object), NoMemory> {
    match row {
        Row::Dir(index, names) => {
            let names = names_of(alloc, names)?;
            let attr = attr(*index);
            Ok((*index, Object::Dir { attr, names }))
        }
        Row::File(index, bytes) => {
            let bytes = Blob::from_slice(alloc, bytes)?;
            let attr = attr(*index);
            Ok((*index, Object::File { attr, bytes }))
        }
        Row::Link(index, text) => {
            let text = Blob::from_slice(alloc, text)?;
            let attr = attr(*index);
            Ok((*index, Object::Link { attr, text }))
        }
        Row::Gone(index) => Ok((*index, Object::Null)),
    }
}

/// The changes that put these objects.
pub fn changes_of(alloc: Global, rows: &[Row]) -> Result<Vec<Change>, NoMemory> {
    let mut changes = Vec::new(alloc);
    for row in rows {
        let (index, object) = object_of(alloc, row)?;
        let entry = Entry {
            generation: 1,
            object,
        };
        changes.push(Change { index, entry })?;
    }
    Ok(changes)
}

/// The index of a row.
pub fn index_of(row: &Row) -> u32 {
    match row {
        Row::Dir(index, _) => *index,
        Row::File(index, _) => *index,
        Row::Link(index, _) => *index,
        Row::Gone(index) => *index,
    }
}

/// The names are these, of one byte each, and lead to these indexes.
fn same_names(rows: &[NameRow], wanted: &[(u8, u32)]) -> bool {
    rows.len() == wanted.len()
        && rows.iter().zip(wanted).all(|(row, (name, index))| {
            row.name.as_slice() == [*name].as_slice() && row.index == *index
        })
}

/// Whether an object is that of a row.
pub fn is_of(object: &Object, row: &Row) -> bool {
    match (object, row) {
        (Object::Dir { attr: found, names }, Row::Dir(index, wanted)) => {
            *found == attr(*index) && same_names(names.as_slice(), wanted)
        }
        (Object::File { attr: found, bytes }, Row::File(index, wanted)) => {
            *found == attr(*index) && bytes.as_slice() == *wanted
        }
        (Object::Link { attr: found, text }, Row::Link(index, wanted)) => {
            *found == attr(*index) && text.as_slice() == *wanted
        }
        (Object::Null, Row::Gone(_)) => true,
        _ => false,
    }
}
