//! Rows of a directory that was written and of an object that lost a name or got one, and the bytes that go or come.

ghost use Rattle.std.specs.Prelude.{◌≡◌, ◌≢◌, ◌<◌, ℕ, length, slice_get, slice_set, Some};
ghost use Rattle.server_trait.specs.declared.bench.ConfEntry.{ConfEntry};
ghost use Rattle.conf_map.specs.Stands.{handle_at};
ghost use Rattle.conf_map.specs.Tables.{touched};
ghost use Rattle.conf_map.specs.Tallied.{KeepsTally};
ghost use Rattle.node_changes.specs.NameRows.{changed_row, ChangesRow, ClearsRow};
ghost use Rattle.node_changes.specs.Tallies.{CanShift, ShiftsTally};

use conf_map::{clear_row, shift_used, touch_row};
use nfs2_types::Time;
use server_trait::{ConfEntry, ConfTable};

/// The bytes that a name counts for.
pub const NAME_BYTES: u32 = 512;

/// Sets the times of an object that is written, in which `comes` bytes come in place of `goes`. It takes no memory.
pub fn write_row(table: &mut ConfTable, index: u32, time: Time, goes: u32, comes: u32)
    requires index { index < length table.old.rows.items }
    requires count { CanShift table.old goes comes }
    ensures row { (r : ConfEntry) → slice_get table.old.rows.items index ≡ Some r →
        table.new.rows.items ≡ slice_set table.old.rows.items index (touched time r) }
    ensures handles { (i : ℕ) → handle_at table.new.rows.items i ≡ handle_at table.old.rows.items i }
    ensures by_handle { table.new.by_handle ≡ table.old.by_handle }
    ensures tally { ShiftsTally table.old table.new goes comes }
{
    touch_row(table, index, time);
    shift_used(table, goes, comes);
}

/// Sets the time at which a row's object was changed. It takes no memory.
fn change_row(table: &mut ConfTable, index: u32, time: Time)
    requires { index < length table.old.rows.items }
    ensures row { (r : ConfEntry) → slice_get table.old.rows.items index ≡ Some r →
        table.new.rows.items ≡ slice_set table.old.rows.items index (changed_row time r) }
    ensures by_handle { table.new.by_handle ≡ table.old.by_handle }
    ensures tally { KeepsTally table.old table.new }
{
    let row = table.rows[index as usize];
    table.rows[index as usize] = ConfEntry { ctime: time, ..row };
}

/// Sets the times of a directory that is written and of an object that is changed, where `comes` bytes come in place of
/// `goes`. It takes no memory.
pub fn change_rows(table: &mut ConfTable, dir: u32, index: u32, time: Time, goes: u32, comes: u32)
    requires dir { dir < length table.old.rows.items }
    requires index { index < length table.old.rows.items }
    requires apart { dir ≢ index }
    requires count { CanShift table.old goes comes }
    ensures changed { ChangesRow table.old table.new dir index time }
    ensures tally { ShiftsTally table.old table.new goes comes }
{
    touch_row(table, dir, time);
    change_row(table, index, time);
    shift_used(table, goes, comes);
}

/// Sets the times of a directory that is written, and makes the row of an object null, where `goes` bytes go. It takes
/// no memory.
pub fn clear_rows(table: &mut ConfTable, dir: u32, index: u32, time: Time, goes: u32)
    requires dir { dir < length table.old.rows.items }
    requires index { index < length table.old.rows.items }
    requires apart { dir ≢ index }
    requires count { CanShift table.old goes 0 }
    ensures cleared { ClearsRow table.old table.new dir index time }
    ensures tally { ShiftsTally table.old table.new goes 0 }
{
    touch_row(table, dir, time);
    clear_row(table, index);
    shift_used(table, goes, 0);
}
