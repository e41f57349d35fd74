//! The generation of an object's index.

ghost use Rattle.std.specs.Prelude.{◌≡◌, ◌<◌, ℕ, List, Option, Some, length, set, slice_get, slice_set};
ghost use Rattle.server_trait.specs.Tree.{Tree};
ghost use Rattle.server_trait.specs.declared.bench.ConfEntry.{ConfEntry};
ghost use Rattle.abs_model.specs.declared.entry.Entry.{Entry};
ghost use Rattle.abs_model.specs.Array.{entry_at};
ghost use Rattle.conf_map.specs.Stands.{handle_at, Stands};
ghost use Rattle.conf_map.specs.Tallied.{Tallied, KeepsTally};
ghost use Rattle.node_changes.specs.Rows.{row_of_generation, entry_of_generation};

use server_trait::{ConfEntry, ConfTable};

/// Gives a row another generation. Where it is null it may be free, so that no row is known to be taken from there on.
fn change_generation(table: &mut ConfTable, index: u32, generation: u32)
    requires { index < length table.old.rows.items }
    ensures row { (r : ConfEntry) → slice_get table.old.rows.items index ≡ Some r →
        table.new.rows.items ≡ slice_set table.old.rows.items index (row_of_generation generation r) }
    ensures by_handle { table.new.by_handle ≡ table.old.by_handle }
    ensures tally { KeepsTally table.old table.new }
{
    let row = table.rows[index as usize];
    table.rows[index as usize] = ConfEntry { generation, ..row };
    table.lowest = table.lowest.min(index);
}

/// Gives an index another generation, of an object or of none. It asks the server nothing, and takes no memory. The
/// array stays valid where no name leads to the index.
pub fn set_generation(table: &mut ConfTable, index: u32, generation: u32)
    requires { index < length table.old.rows.items }
    ensures stands { (s : Option Tree) (A : List Entry) → Stands s table.old A →
        Stands s table.new (set A index (entry_of_generation generation (entry_at A index))) }
    ensures tallied { (s : Option Tree) (A : List Entry) → Stands s table.old A → Tallied table.old A →
        Tallied table.new (set A index (entry_of_generation generation (entry_at A index))) }
    ensures handles { (i : ℕ) → handle_at table.new.rows.items i ≡ handle_at table.old.rows.items i }
{
    change_generation(table, index, generation);
}
