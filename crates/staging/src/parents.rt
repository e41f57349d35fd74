//! Parents of rows.

ghost use Rattle.std.specs.Prelude.{◌≡◌, ◌<◌, length, slice_get, slice_set, Some};
ghost use Rattle.server_trait.specs.declared.bench.ConfEntry.{ConfEntry};
ghost use Rattle.staging.specs.Parents.{under};

use server_trait::{ConfEntry, ConfTable};

/// Puts a row under a parent. It takes no memory.
pub fn set_parent(table: &mut ConfTable, index: u32, parent: u32)
    requires { index < length table.old.rows.items }
    ensures row { (r : ConfEntry) → slice_get table.old.rows.items index ≡ Some r →
        table.new.rows.items ≡ slice_set table.old.rows.items index (under parent r) }
    ensures by_handle { table.new.by_handle ≡ table.old.by_handle }
{
    let row = table.rows[index as usize];
    table.rows[index as usize] = ConfEntry { parent, ..row };
}
