//! What is given of an object's attributes is set: its size, its mode and owners, and its times.

ghost use Rattle.std.specs.Prelude.{◌≡◌, ◌<◌, ℕ, List, Some, length, set, slice_get, slice_set, unwrap_or, IsSome, IsSomeAnd, OnOk};
ghost use Rattle.server_trait.specs.Tree.{Tree, node_at, edited, with_attr};
ghost use Rattle.server_trait.specs.declared.bench.ConfEntry.{ConfEntry};
ghost use Rattle.abs_model.specs.declared.entry.Entry.{Entry};
ghost use Rattle.abs_model.specs.Objects as objects;
ghost use Rattle.abs_model.specs.Array.{entry_at};
ghost use Rattle.conf_map.specs.Notice.{Watched};
ghost use Rattle.conf_map.specs.Stands.{Stands};
ghost use Rattle.conf_map.specs.Tables.{IsLive};
ghost use Rattle.conf_map.specs.Tallied.{Tallied, KeepsTally};
ghost use Rattle.node_changes.specs.Settings.{CanSize, CanSet, node_sized, node_set, row_set, entry_set, size_goes};
ghost use Rattle.node_changes.specs.Tallies.{CanShift, ShiftsTally};

use crate::resize::resize;
use conf_map::{Located, broken, shift_used, time_row};
use nfs2_types::{Handle, Sattr, SetTime, Time};
use server_trait::{ConfTable, FileServer, NodeAttr, Srv, WrapErr};

/// Gives a file a size, if one is given.
fn set_size(server: &mut Srv, node: &Handle, size: Option<u32>) -> Result<(), WrapErr>
    requires { CanSize (state server.old) node.now size }
    ensures sized { OnOk result ((t : Tree) → (state server.old).tree ≡ Some t →
        (state server.new).tree ≡ Some (edited t node.now (node_sized size))) }
    ensures watched { Watched (state server.old) (state server.new) result }
{
    let Some(size) = size else {
        return Ok(());
    };
    resize(server, node, size)?;
    Ok(())
}

/// Sets the mode and the owners of a node.
fn set_owners(server: &mut Srv, node: &Handle, mode: u32, uid: u32, gid: u32) -> Result<(), WrapErr>
    requires { IsSomeAnd (state server.old).tree (λ t. IsSome (node_at t node.now)) }
    ensures set { OnOk result ((t : Tree) → (state server.old).tree ≡ Some t →
        (state server.new).tree ≡ Some (edited t node.now (with_attr mode uid gid))) }
    ensures watched { Watched (state server.old) (state server.new) result }
{
    match server.set_attr(node, mode, uid, gid) {
        Ok(()) => Ok(()),
        Err(error) => Err(broken(error)),
    }
}

/// Sets what is given of a node with these attributes: first its size, and then its mode and its owners.
fn set_node(server: &mut Srv, node: &Handle, attr: &NodeAttr, sattr: &Sattr) -> Result<(), WrapErr>
    requires { CanSize (state server.old) node.now sattr.now.size }
    ensures set { OnOk result ((t : Tree) → (state server.old).tree ≡ Some t →
        (state server.new).tree ≡ Some (edited t node.now (node_set sattr.now attr.now))) }
    ensures watched { Watched (state server.old) (state server.new) result }
{
    set_size(server, node, sattr.size)?;
    let mode = sattr.mode.unwrap_or(attr.mode);
    let uid = sattr.uid.unwrap_or(attr.uid);
    let gid = sattr.gid.unwrap_or(attr.gid);
    set_owners(server, node, mode, uid, gid)?;
    Ok(())
}

/// The time that is given, that of the call where this is asked for, or else the old one.
fn time_given(given: SetTime, time: Time, old: Time) -> Time
    ensures { result ≡ objects.time_given given time old }
{
    match given {
        SetTime::Keep => old,
        SetTime::Now => time,
        SetTime::At(other) => other,
    }
}

/// Sets what is given of a row's times. A size that is given counts as written.
fn time_object(table: &mut ConfTable, index: u32, sattr: &Sattr, time: Time)
    requires { index < length table.old.rows.items }
    ensures row { (r : ConfEntry) → slice_get table.old.rows.items index ≡ Some r →
        table.new.rows.items ≡ slice_set table.old.rows.items index (row_set sattr.now time r) }
    ensures by_handle { table.new.by_handle ≡ table.old.by_handle }
    ensures tally { KeepsTally table.old table.new }
{
    let row = table.rows[index as usize];
    let written = if sattr.size.is_some() {
        time
    } else {
        row.mtime
    };
    let atime = time_given(sattr.atime, time, row.atime);
    let mtime = time_given(sattr.mtime, time, written);
    time_row(table, index, atime, mtime, time);
}

/// The bytes that go from an object with these attributes where a size is given.
fn bytes_going(attr: &NodeAttr, sattr: &Sattr) -> u32
    ensures { result ≡ size_goes attr.now sattr.now }
{
    if sattr.size.is_some() { attr.size } else { 0 }
}

/// Sets what is given of the times of an object with these attributes, and counts the size that is given.
fn set_row(table: &mut ConfTable, index: u32, attr: &NodeAttr, sattr: &Sattr, time: Time)
    requires index { index < length table.old.rows.items }
    requires count { CanShift table.old (size_goes attr.now sattr.now) (unwrap_or sattr.now.size 0) }
    ensures row { (r : ConfEntry) → slice_get table.old.rows.items index ≡ Some r →
        table.new.rows.items ≡ slice_set table.old.rows.items index (row_set sattr.now time r) }
    ensures by_handle { table.new.by_handle ≡ table.old.by_handle }
    ensures tally { ShiftsTally table.old table.new (size_goes attr.now sattr.now) (unwrap_or sattr.now.size 0) }
{
    time_object(table, index, sattr, time);
    shift_used(table, bytes_going(attr, sattr), sattr.size.unwrap_or(0));
}

/// Sets what is given of an object with these attributes; its ctime becomes the moment of the change, and so does the
/// mtime of one that gets a size without a time. After an error server and table stand for nothing.
pub fn set_object(
    server: &mut Srv,
    table: &mut ConfTable,
    at: &Located,
    attr: &NodeAttr,
    sattr: &Sattr,
    time: Time,
) -> Result<(), WrapErr>
    requires { (A : List Entry) × CanSet (state server.old) table.old A attr.now sattr.now at.now }
    ensures stands { OnOk result ((A : List Entry) →
        CanSet (state server.old) table.old A attr.now sattr.now at.now →
        Stands (state server.new).tree table.new
        (set A at.now.index (entry_set (entry_at A at.now.index) sattr.now time))) }
    ensures tallied { OnOk result ((A : List Entry) →
        CanSet (state server.old) table.old A attr.now sattr.now at.now →
        Tallied table.new (set A at.now.index (entry_set (entry_at A at.now.index) sattr.now time))) }
    ensures live { OnOk result (IsLive table.new.rows.items at.now) }
    ensures watched { Watched (state server.old) (state server.new) result }
{
    set_node(server, &at.handle, attr, sattr)?;
    set_row(table, at.index, attr, sattr, time);
    Ok(())
}
