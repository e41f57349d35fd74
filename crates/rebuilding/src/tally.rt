//! The bytes that an array uses.

ghost use Rattle.std.specs.Prelude.{◌≡◌, ◌<◌, ◌^◌};
ghost use Rattle.abs_model.specs.Array as array;
ghost use Rattle.abs_model.specs.Objects as objects;
ghost use Rattle.conf_map.specs.Tallied.{Tallied};

use crate::naming::names_in;
use abs_model::{Entry, NAME_SPACE, Object};
use server_trait::ConfTable;

/// The bytes of a file, or of a link's text. What is neither has none.
fn bytes_in(entry: &Entry) -> &[u8]
    ensures { result.now ≡ objects.bytes_of entry.now }
{
    match &entry.object {
        Object::File { bytes, .. } => bytes.as_slice(),
        Object::Link { text, .. } => text.as_slice(),
        _ => &[],
    }
}

/// What an entry uses.
fn used_by(entry: &Entry) -> u64
    requires { objects.used_by entry.now < 2 ^ 64 }
    ensures { result ≡ objects.used_by entry.now }
{
    bytes_in(entry).len() as u64 + u64::from(NAME_SPACE) * names_in(entry).len() as u64
}

/// What all entries use.
fn used_of(entries: &[Entry]) -> u64
    requires { array.used entries.now < 2 ^ 64 }
    ensures { result ≡ array.used entries.now }
{
    let mut sum = 0;
    for entry in entries {
        sum += used_by(entry);
    }
    sum
}

/// Counts what an array uses. Any null row may be free.
pub fn set_tally(table: &mut ConfTable, entries: &[Entry])
    requires { array.used entries.now < 2 ^ 64 }
    ensures rows { table.new.rows ≡ table.old.rows }
    ensures by_handle { table.new.by_handle ≡ table.old.by_handle }
    ensures tallied { Tallied table.new entries.now }
{
    table.used = used_of(entries);
    table.lowest = 0;
}
