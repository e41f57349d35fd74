//! Look-ups in a table, and changes of its rows.

ghost use Rattle.std.specs.Prelude.{◌≡◌, ◌<◌, ◌^◌, ◌&&◌, not, if◌then◌else◌, length, position, slice_get, slice_set, IfSome, IsSome, is_some, min, OnErr, OnOk, Some, None, List, ℕ};
ghost use Rattle.server_trait.specs.declared.bench.ConfEntry.{ConfEntry};
ghost use Rattle.conf_map.specs.Stands.{handle_at};
ghost use Rattle.conf_map.specs.Tables.{live_in, located, index_in, emptied, touched, has_handle, IsInStep, IsUnshared, IsSameTable};
ghost use Rattle.conf_map.specs.Tallied.{is_free_row, NoneFreeBelow, KeepsTally};

use nfs2_types::{Handle, NoMemory, Oid, Time, oid_of};
use server_trait::{ConfEntry, ConfTable};

/// The handle of an object's node, or `None` where its index is not below the number of rows, the row is null, or the
/// generation differs. It takes no memory.
pub fn live(table: &ConfTable, o: Oid) -> Option<Handle>
    ensures { result ≡ live_in table.now.rows.items o }
{
    let row = table.rows.get(o.index as usize)?;
    if row.generation == o.generation {
        row.handle
    } else {
        None
    }
}

/// A row, and the handle of its node at the server.
#[derive(Clone, Copy, Debug)]
pub struct Located {
    pub index: u32,
    pub handle: Handle,
}

/// The object that a client's handle names, or `None` where it names none. It takes no memory.
pub fn locate(table: &ConfTable, h: &Handle) -> Option<Located>
    ensures { result ≡ located table.now.rows.items h.now }
{
    let o = oid_of(h)?;
    let handle = live(table, o)?;
    Some(Located {
        index: o.index,
        handle,
    })
}

/// The row of a handle, or `None` where the map has no such handle. It takes no memory.
pub fn index_of(table: &ConfTable, h: &Handle) -> Option<u32>
    ensures { result ≡ index_in table.now h.now }
{
    table.by_handle.get(h).copied()
}

/// The place of the first null row whose generation can rise.
fn first_free(rows: &[ConfEntry]) -> Option<usize>
    ensures { result ≡ position is_free_row rows.now }
{
    rows.iter()
        .position(|row| row.handle.is_none() && row.generation < u32::MAX)
}

/// The lowest null row whose generation can rise, or `None` where there is none. It takes no memory, and looks at no
/// row below the table's `lowest`.
pub fn lowest_null(table: &ConfTable) -> Option<u32>
    requires size { length table.now.rows.items < 2 ^ 32 }
    requires none_below { NoneFreeBelow table.now.lowest table.now.rows.items }
    ensures { result ≡ position is_free_row table.now.rows.items }
{
    let from = table.lowest as usize;
    if from > table.rows.len() {
        return None;
    }
    match first_free(&table.rows[from..]) {
        Some(index) => Some((from + index) as u32),
        None => None,
    }
}

/// Whether it is this handle.
fn is_handle(handle: Option<Handle>, other: &Handle) -> bool
    ensures { result ≡ has_handle handle other.now }
{
    match handle {
        Some(handle) => handle == *other,
        None => false,
    }
}

/// Puts a handle into the map.
fn map_handle(table: &mut ConfTable, handle: Option<Handle>, index: u32) -> Result<(), NoMemory>
    ensures rows { OnOk result (table.new.rows ≡ table.old.rows) }
    ensures used { table.new.used ≡ table.old.used }
    ensures lowest { table.new.lowest ≡ table.old.lowest }
    ensures by_handle { OnOk result ((q : List ℕ) →
        index_in table.new q ≡ (if has_handle handle q then Some index else index_in table.old q)) }
    ensures same { OnErr result (IsSameTable table.old table.new) }
{
    let Some(handle) = handle else {
        return Ok(());
    };
    table.by_handle.insert(handle, index)?;
    Ok(())
}

/// Takes a handle out of the map, unless it is the one to be kept.
fn unmap_handle(table: &mut ConfTable, handle: Option<Handle>, kept: Option<Handle>)
    ensures rows { table.new.rows ≡ table.old.rows }
    ensures used { table.new.used ≡ table.old.used }
    ensures lowest { table.new.lowest ≡ table.old.lowest }
    ensures by_handle { (q : List ℕ) →
        index_in table.new q ≡ (if has_handle handle q && not (has_handle kept q) then None else index_in table.old q) }
{
    let Some(handle) = handle else {
        return;
    };
    if !is_handle(kept, &handle) {
        table.by_handle.remove(&handle);
    }
}

/// The index below which no row is free, once the row of an index has this handle or none.
fn lowest_with(lowest: u32, index: u32, handle: Option<Handle>) -> u32
    ensures { result ≡ (if is_some handle then lowest else min lowest index) }
{
    match handle {
        Some(_) => lowest,
        None => lowest.min(index),
    }
}

/// Sets a row. The map loses the handle that was there, and gets the row's. After `NoMemory` nothing has changed.
pub fn bind_row(table: &mut ConfTable, index: u32, row: ConfEntry) -> Result<(), NoMemory>
    requires within { index < length table.old.rows.items }
    requires unshared { IsUnshared table.old.rows.items index row.handle }
    ensures rows { OnOk result (table.new.rows.items ≡ slice_set table.old.rows.items index row) }
    ensures in_step { OnOk result (IsInStep table.old → IsInStep table.new) }
    ensures tally { OnOk result (KeepsTally table.old table.new) }
    ensures same { OnErr result (IsSameTable table.old table.new) }
{
    let before = table.rows[index as usize].handle;
    map_handle(table, row.handle, index)?;
    unmap_handle(table, before, row.handle);
    table.rows[index as usize] = row;
    table.lowest = lowest_with(table.lowest, index, row.handle);
    Ok(())
}

/// Sets a row below which none is free, so that the next free one is looked for above it.
/// After `NoMemory` nothing has changed.
pub fn take_row(table: &mut ConfTable, index: u32, row: ConfEntry) -> Result<(), NoMemory>
    requires within { index < length table.old.rows.items }
    requires size { length table.old.rows.items < 2 ^ 32 }
    requires unshared { IsUnshared table.old.rows.items index row.handle }
    requires handle { IsSome row.handle }
    requires none_below { NoneFreeBelow index table.old.rows.items }
    ensures rows { OnOk result (table.new.rows.items ≡ slice_set table.old.rows.items index row) }
    ensures in_step { OnOk result (IsInStep table.old → IsInStep table.new) }
    ensures tally { OnOk result (KeepsTally table.old table.new) }
    ensures same { OnErr result (IsSameTable table.old table.new) }
{
    bind_row(table, index, row)?;
    table.lowest = index + 1;
    Ok(())
}

/// Makes a row null. It keeps its generation, and the map loses its handle. It takes no memory.
pub fn clear_row(table: &mut ConfTable, index: u32)
    requires { index < length table.old.rows.items }
    ensures row { (r : ConfEntry) → slice_get table.old.rows.items index ≡ Some r →
        table.new.rows.items ≡ slice_set table.old.rows.items index (emptied r) }
    ensures in_step { IsInStep table.old → IsInStep table.new }
    ensures tally { KeepsTally table.old table.new }
{
    let row = table.rows[index as usize];
    unmap_handle(table, row.handle, None);
    table.rows[index as usize] = ConfEntry {
        handle: None,
        ..row
    };
    table.lowest = table.lowest.min(index);
}

/// Sets the times at which a row's object was written and changed. It takes no memory.
pub fn touch_row(table: &mut ConfTable, index: u32, time: Time)
    requires { index < length table.old.rows.items }
    ensures row { (r : ConfEntry) → slice_get table.old.rows.items index ≡ Some r →
        table.new.rows.items ≡ slice_set table.old.rows.items index (touched time r) }
    ensures size { length table.new.rows.items ≡ length table.old.rows.items }
    ensures handles { (i : ℕ) → handle_at table.new.rows.items i ≡ handle_at table.old.rows.items i }
    ensures by_handle { table.new.by_handle ≡ table.old.by_handle }
    ensures in_step { IsInStep table.old → IsInStep table.new }
    ensures tally { KeepsTally table.old table.new }
{
    let row = table.rows[index as usize];
    table.rows[index as usize] = ConfEntry {
        mtime: time,
        ctime: time,
        ..row
    };
}

/// Sets the three times of a row. It takes no memory.
pub fn time_row(table: &mut ConfTable, index: u32, atime: Time, mtime: Time, ctime: Time)
    requires { index < length table.old.rows.items }
    ensures row { (r : ConfEntry) → slice_get table.old.rows.items index ≡ Some r →
        table.new.rows.items ≡ slice_set table.old.rows.items index
        (record r { atime = atime; mtime = mtime; ctime = ctime }) }
    ensures by_handle { table.new.by_handle ≡ table.old.by_handle }
    ensures tally { KeepsTally table.old table.new }
{
    let row = table.rows[index as usize];
    table.rows[index as usize] = ConfEntry {
        atime,
        mtime,
        ctime,
        ..row
    };
}
