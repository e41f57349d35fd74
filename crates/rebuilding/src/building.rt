//! An array is built where nothing stands.

ghost use Rattle.std.specs.Prelude.{◌≡◌, ◌<◌, ◌≤◌, ℕ, List, [], false, Option, length, replicate, IfOk, OnOk};
ghost use Rattle.server_trait.specs.Tree.{Tree};
ghost use Rattle.abs_model.specs.declared.entry.Entry.{Entry};
ghost use Rattle.abs_model.specs.Array.{empty_array};
ghost use Rattle.abs_model.specs.Valid.{Valid};
ghost use Rattle.conf_map.specs.Notice.{Watched};
ghost use Rattle.conf_map.specs.Stands.{AreWithin, HasRoom, Stands, StandsValid};
ghost use Rattle.staging.specs.Staged.{StagedAt};
ghost use Rattle.rebuilding.specs.Make.{FirstAlone};
ghost use Rattle.rebuilding.specs.Name.{bit_at};
ghost use Rattle.rebuilding.specs.Rebuild.{is_object};

use crate::filling::dress_all;
use crate::making::make;
use crate::naming::name;
use crate::parents::set_parents;
use crate::tally::set_tally;
use abs_model::Entry;
use conf_map::{find, fresh};
use nfs2_types::{Handle, Limits};
use server_trait::{ConfTable, FileServer, Srv, WrapErr};
use staging::is_null_entry;
use std::alloc::{AllocError, Global};

/// Of so many indexes the first alone keeps its object.
fn first_alone(alloc: Global, n: usize) -> Result<Vec<bool>, AllocError>
    requires { 1 ≤ n }
    ensures size { IfOk result (λ v. length v.items ≡ n) }
    ensures first { IfOk result (λ v. FirstAlone n v.items) }
{
    let mut stays = vec![in alloc; false; n]?;
    stays[0] = true;
    Ok(stays)
}

/// Marks each index at which an object other than the first stands.
fn mark_objects(entries: &[Entry], marks: &mut [bool])
    requires clear { marks.old ≡ replicate (length entries.now) false }
    ensures size { length marks.new ≡ length entries.now }
    ensures bits { (i : ℕ) → i < length entries.now → bit_at marks.new i ≡ is_object entries.now i }
{
    for i in 1..entries.len() {
        marks[i] = !is_null_entry(&entries[i]);
    }
}

/// The indexes at which an object other than the first stands.
fn objects_in(alloc: Global, entries: &[Entry]) -> Result<Vec<bool>, AllocError>
    ensures size { IfOk result (λ v. length v.items ≡ length entries.now) }
    ensures bits { IfOk result (λ v. (i : ℕ) → i < length entries.now → bit_at v.items i ≡ is_object entries.now i) }
{
    let mut marks = vec![in alloc; false; entries.len()]?;
    mark_objects(entries, marks.as_mut_slice());
    Ok(marks)
}

/// The handle of the staging directory.
fn staging_of(server: &mut Srv, table: &ConfTable) -> Result<Handle, WrapErr>
    requires stands { (A : List Entry) × Stands (state server.old).tree table.now A }
    ensures staging { IfOk result (λ h. (A : List Entry) → Stands (state server.old).tree table.now A →
        StagedAt (state server.new).tree h table.now A []) }
    ensures watched { Watched (state server.old) (state server.new) result }
{
    let root = server.root();
    let found = find(server, &root, b"staging")?;
    match found {
        Some(handle) => Ok(handle),
        None => unreachable!(),
    }
}

/// Builds a valid array where the empty one stands: its objects, then their attributes, then all names. An object with
/// several names is made once, and linked for the others.
fn build(
    alloc: Global,
    server: &mut Srv,
    table: &mut ConfTable,
    staging: &Handle,
    limits: &Limits,
    entries: &[Entry],
) -> Result<(), WrapErr>
    requires stands { StagedAt (state server.old).tree staging.now table.old (empty_array limits.now.n) [] }
    requires valid { Valid limits.now entries.now }
    requires within { AreWithin limits.now }
    requires room { HasRoom limits.now (state server.old).limits }
    ensures built { OnOk result (StagedAt (state server.new).tree staging.now table.new entries.now []) }
    ensures watched { Watched (state server.old) (state server.new) result }
{
    let stays = first_alone(alloc, entries.len())?;
    make(alloc, server, table, staging, entries, stays.as_slice())?;
    dress_all(server, table, staging, entries)?;
    let mut staged = objects_in(alloc, entries)?;
    name(
        alloc,
        server,
        table,
        staging,
        entries,
        staged.as_mut_slice(),
    )?;
    Ok(())
}

/// Sets what the table keeps beside the rows' objects: parents, and the bytes in use.
fn settle(table: &mut ConfTable, limits: &Limits, entries: &[Entry])
    requires valid { Valid limits.now entries.now }
    requires within { AreWithin limits.now }
    requires size { length table.old.rows.items ≡ length entries.now }
    ensures stands { (s : Option Tree) (area : List ℕ) → StagedAt s area table.old entries.now [] →
        StandsValid limits.now s table.new entries.now }
{
    set_parents(table, entries);
    set_tally(table, entries);
}

/// Makes server and table stand for a valid array, whatever stood there, and whatever kind of server it is. After an
/// error they stand for nothing.
pub fn rebuild(
    alloc: Global,
    server: &mut Srv,
    table: &mut ConfTable,
    limits: &Limits,
    entries: &[Entry],
) -> Result<(), WrapErr>
    requires valid { Valid limits.now entries.now }
    requires within { AreWithin limits.now }
    requires room { HasRoom limits.now (state server.old).limits }
    ensures stands { OnOk result (StandsValid limits.now (state server.new).tree table.new entries.now) }
    ensures watched { Watched (state server.old) (state server.new) result }
{
    fresh(alloc, server, table, limits.n)?;
    let staging = staging_of(server, table)?;
    build(alloc, server, table, &staging, limits, entries)?;
    settle(table, limits, entries);
    Ok(())
}
