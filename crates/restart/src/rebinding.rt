//! A table that takes new handles.

ghost use Rattle.std.specs.Prelude.{◌≡◌, ◌<◌, ◌^◌, ℕ, List, Some, None, length, slice_get, OnOk};
ghost use Rattle.server_trait.specs.declared.bench.ConfEntry.{ConfEntry};
ghost use Rattle.conf_map.specs.Tables.{IsInStep, emptied};
ghost use Rattle.restart.specs.Rows.{AreApart, handle_of};

use conf_map::{bind_row, clear_row};
use nfs2_types::{Handle, NoMemory};
use server_trait::{ConfEntry, ConfTable};

/// Makes all rows null. It takes no memory.
pub fn clear_all(table: &mut ConfTable)
    requires { length table.old.rows.items < 2 ^ 32 }
    ensures rows { (i : ℕ) (r : ConfEntry) → slice_get table.old.rows.items i ≡ Some r →
        slice_get table.new.rows.items i ≡ Some (emptied r) }
    ensures size { length table.new.rows.items ≡ length table.old.rows.items }
    ensures in_step { IsInStep table.old → IsInStep table.new }
    ensures used { table.new.used ≡ table.old.used }
{
    for i in 0..table.rows.len() {
        clear_row(table, i as u32);
    }
}

/// Gives null rows these handles.
pub fn bind_all(table: &mut ConfTable, handles: &[Option<Handle>]) -> Result<(), NoMemory>
    requires few { length table.old.rows.items < 2 ^ 32 }
    requires size { length handles.now ≡ length table.old.rows.items }
    requires null { (i : ℕ) (r : ConfEntry) → slice_get table.old.rows.items i ≡ Some r → r.handle ≡ None }
    requires apart { AreApart handles.now }
    ensures rows { OnOk result ((i : ℕ) (r : ConfEntry) → slice_get table.old.rows.items i ≡ Some r →
        slice_get table.new.rows.items i ≡ Some (record r { handle = handle_of handles.now i })) }
    ensures size { OnOk result (length table.new.rows.items ≡ length table.old.rows.items) }
    ensures in_step { OnOk result (IsInStep table.old → IsInStep table.new) }
    ensures used { OnOk result (table.new.used ≡ table.old.used) }
{
    for i in 0..handles.len() {
        let row = ConfEntry {
            handle: handles[i],
            ..table.rows[i]
        };
        match bind_row(table, i as u32, row) {
            Ok(()) => {}
            Err(error) => return Err(error),
        }
    }
    Ok(())
}
