//! Changes of an array in memory.

ghost use Rattle.std.specs.Prelude.{◌≡◌, set};
ghost use Rattle.abs_model.specs.Array.{changed};

use abs_model::{Change, Entry};

/// Puts an entry at its index. What lies past the end is left out.
fn put_change(entries: &mut [Entry], change: Change)
    ensures { entries.new ≡ set entries.old change.index change.entry }
{
    let Change { index, entry } = change;
    if index as usize >= entries.len() {
        return;
    }
    entries[index as usize] = entry;
}

/// Puts entries at their indexes, one after the other. It takes no memory.
fn put_changes(entries: &mut [Entry], changes: Vec<Change>)
    ensures { entries.new ≡ changed changes.items entries.old }
{
    for change in changes {
        put_change(entries, change);
    }
}

/// The entries with these put at their indexes. It takes no memory.
pub fn with_changes(mut entries: Vec<Entry>, changes: Vec<Change>) -> Vec<Entry>
    ensures { result.items ≡ changed changes.items entries.items }
{
    put_changes(entries.as_mut_slice(), changes);
    entries
}
