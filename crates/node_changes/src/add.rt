//! A new object in its place: its node, its row, and the times of the directory that names it.

ghost use Rattle.std.specs.Prelude.{◌≡◌, ◌<◌, ◌^◌, List, length, slice_set, IsSome, IfOk, OnOk};
ghost use Rattle.abs_model.specs.declared.entry.Entry.{Entry};
ghost use Rattle.conf_map.specs.Notice.{Watched};
ghost use Rattle.conf_map.specs.Tables.{IsInStep, IsUnshared};
ghost use Rattle.conf_map.specs.Tallied.{NoneFreeBelow, KeepsTally};
ghost use Rattle.node_changes.specs.News.{CanAdd, IsAdded, AddsRow};
ghost use Rattle.node_changes.specs.Objects.{new_of, object_of, byte_count, IsSmall};
ghost use Rattle.node_changes.specs.Tallies.{CanShift, ShiftsTally};

use crate::node::make_node;
use crate::object::NewObject;
use crate::rows::NAME_BYTES;
use abs_model::Attr;
use conf_map::{Located, bind_row, shift_used, take_row, touch_row};
use nfs2_types::{NoMemory, Time};
use server_trait::{ConfEntry, ConfTable, Srv, WrapErr};

/// A directory that gets a name, and the index of the object to which it will lead.
#[derive(Clone, Copy, Debug)]
pub struct Place {
    pub dir: Located,
    pub index: u32,
}

/// The bytes of a new object, beside those of its name.
fn bytes_of(new: &NewObject) -> u32
    requires { IsSmall (new_of new.now) }
    ensures { result ≡ byte_count (new_of new.now) }
{
    match *new {
        NewObject::Dir => 0,
        NewObject::File { size } => size,
        NewObject::Link { text } => text.len() as u32,
    }
}

/// Sets a null row, which may be the lowest that is free. After `NoMemory` nothing has changed.
fn set_row(table: &mut ConfTable, index: u32, row: ConfEntry) -> Result<(), NoMemory>
    requires within { index < length table.old.rows.items }
    requires size { length table.old.rows.items < 2 ^ 32 }
    requires unshared { IsUnshared table.old.rows.items index row.handle }
    requires handle { IsSome row.handle }
    requires none_below { NoneFreeBelow table.old.lowest table.old.rows.items }
    ensures rows { OnOk result (table.new.rows.items ≡ slice_set table.old.rows.items index row) }
    ensures in_step { OnOk result (IsInStep table.old → IsInStep table.new) }
    ensures tally { OnOk result (KeepsTally table.old table.new) }
{
    if index == table.lowest {
        return take_row(table, index, row);
    }
    bind_row(table, index, row)
}

/// Puts in the row of a new object of so many bytes, with its name, whose directory is written.
fn add_row(
    table: &mut ConfTable,
    dir: u32,
    index: u32,
    row: ConfEntry,
    time: Time,
    comes: u32,
) -> Result<(), NoMemory>
    requires dir { dir < length table.old.rows.items }
    requires index { index < length table.old.rows.items }
    requires size { length table.old.rows.items < 2 ^ 32 }
    requires unshared { IsUnshared table.old.rows.items index row.handle }
    requires handle { IsSome row.handle }
    requires none_below { NoneFreeBelow table.old.lowest table.old.rows.items }
    requires count { CanShift table.old 0 comes }
    ensures added { OnOk result (AddsRow table.old table.new dir index row time) }
    ensures tally { OnOk result (ShiftsTally table.old table.new 0 comes) }
{
    touch_row(table, dir, time);
    set_row(table, index, row)?;
    shift_used(table, 0, comes);
    Ok(())
}

/// Makes an object of this generation at a null index, under a new name of a directory, which is written at the moment
/// of the object's ctime. After an error server and table stand for nothing.
pub fn add_new(
    server: &mut Srv,
    table: &mut ConfTable,
    place: &Place,
    generation: u32,
    name: &[u8],
    new: &NewObject,
    attr: &Attr,
) -> Result<Located, WrapErr>
    requires { (A : List Entry) × CanAdd (state server.old) table.old A name.now (new_of new.now) place.now }
    ensures added { IfOk result (λ at. (A : List Entry) →
        CanAdd (state server.old) table.old A name.now (new_of new.now) place.now →
        IsAdded A place.now generation name.now attr.now.ctime (object_of (new_of new.now) attr.now)
        (state server.new).tree table.new at) }
    ensures watched { Watched (state server.old) (state server.new) result }
{
    let node = make_node(server, &place.dir.handle, name, new, attr)?;
    let handle = node.handle;
    let row = ConfEntry {
        generation,
        handle: Some(handle),
        number: node.number,
        parent: place.dir.index,
        atime: attr.atime,
        mtime: attr.mtime,
        ctime: attr.ctime,
    };
    let comes = NAME_BYTES + bytes_of(new);
    match add_row(table, place.dir.index, place.index, row, attr.ctime, comes) {
        Ok(()) => Ok(Located {
            index: place.index,
            handle,
        }),
        Err(_) => Err(WrapErr::NoMemory),
    }
}
