//! The parents of an array's directories.

ghost use Rattle.std.specs.Prelude.{◌≡◌, ◌≢◌, ◌<◌, ◌^◌, ℕ, true, length, slice_get, position, Some};
ghost use Rattle.server_trait.specs.declared.bench.ConfEntry.{ConfEntry};
ghost use Rattle.abs_model.specs.Array as array;
ghost use Rattle.abs_model.specs.Array.{entry_at};
ghost use Rattle.abs_model.specs.Objects.{is_dir};
ghost use Rattle.staging.specs.Parents.{OnlyParents};

use crate::naming::names_in;
use abs_model::{Entry, Object};
use server_trait::ConfTable;
use staging::set_parent;

/// Whether it is a directory.
fn is_dir(entry: &Entry) -> bool
    ensures { result ≡ is_dir entry.now }
{
    matches!(entry.object, Object::Dir { .. })
}

/// Whether a name of an entry leads to an index.
fn leads_to(entry: &Entry, index: usize) -> bool
    ensures { result ≡ array.has_row_to index entry.now }
{
    names_in(entry)
        .iter()
        .any(|row| row.index as usize == index)
}

/// The first directory that has a name for an index.
fn namer(entries: &[Entry], index: usize) -> Option<usize>
    ensures { result ≡ position (array.has_row_to index) entries.now }
{
    entries.iter().position(|entry| leads_to(entry, index))
}

/// The directory that has a name for an index; that of the first is the first.
fn parent_of(entries: &[Entry], index: usize) -> u32
    requires { length entries.now < 2 ^ 32 }
    ensures { result ≡ array.parent entries.now index }
{
    if index == 0 {
        return 0;
    }
    match namer(entries, index) {
        Some(parent) => parent as u32,
        None => 0,
    }
}

/// The parent of a directory. What is none has 0.
fn dir_parent(entries: &[Entry], index: usize) -> u32
    requires few { length entries.now < 2 ^ 32 }
    requires within { index < length entries.now }
    ensures { is_dir (entry_at entries.now index) ≡ true → result ≡ array.parent entries.now index }
{
    if is_dir(&entries[index]) {
        return parent_of(entries, index);
    }
    0
}

/// Puts the row of an index under its parent.
fn set_parent_at(table: &mut ConfTable, entries: &[Entry], index: usize)
    requires size { length table.old.rows.items ≡ length entries.now }
    requires few { length entries.now < 2 ^ 32 }
    requires within { index < length entries.now }
    ensures only { OnlyParents table.old table.new }
    ensures others { (i : ℕ) → i ≢ index → slice_get table.new.rows.items i ≡ slice_get table.old.rows.items i }
    ensures here { (r : ConfEntry) → slice_get table.new.rows.items index ≡ Some r →
        is_dir (entry_at entries.now index) ≡ true → r.parent ≡ array.parent entries.now index }
{
    set_parent(table, index as u32, dir_parent(entries, index));
}

/// Puts the rows of all directories under their parents.
pub fn set_parents(table: &mut ConfTable, entries: &[Entry])
    requires size { length table.old.rows.items ≡ length entries.now }
    requires few { length entries.now < 2 ^ 32 }
    ensures only { OnlyParents table.old table.new }
    ensures parents { (i : ℕ) (r : ConfEntry) → i < length entries.now →
        slice_get table.new.rows.items i ≡ Some r → is_dir (entry_at entries.now i) ≡ true →
        r.parent ≡ array.parent entries.now i }
{
    for i in 0..entries.len() {
        set_parent_at(table, entries, i);
    }
}
