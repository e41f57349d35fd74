//! Where a walk after a reboot begins.

ghost use Rattle.std.specs.Prelude.{◌≡◌, ◌<◌, ◌^◌, List, [], None, true, length, replicate, IfOk, OnOk};
ghost use Rattle.abs_model.specs.declared.entry.Entry.{Entry};
ghost use Rattle.conf_map.specs.Notice.{Watched};
ghost use Rattle.restart.specs.Numbers.{IsNumbered};
ghost use Rattle.restart.specs.Walk.{Restarts, IsGoing, IsBegun, IsExport, is_found};

use crate::found::{Found, note};
use crate::numbers::rows_by_number;
use conf_map::find;
use nfs2_types::Handle;
use server_trait::{ConfEntry, ConfTable, FileServer, Srv, WrapErr};
use std::alloc::{AllocError, Global};

/// Nothing found, of these rows.
fn nothing(alloc: Global, rows: &[ConfEntry]) -> Result<Found, AllocError>
    requires { length rows.now < 2 ^ 32 }
    ensures rows { IfOk result (λ f. IsNumbered rows.now f.rows) }
    ensures handles { IfOk result (λ f. f.handles.items ≡ replicate (length rows.now) None) }
    ensures dirs { IfOk result (λ f. f.dirs.items ≡ []) }
{
    let numbers = rows_by_number(alloc, rows)?;
    let handles = vec![in alloc; None; rows.len()]?;
    let dirs = Vec::new(alloc);
    Ok(Found {
        rows: numbers,
        handles,
        dirs,
    })
}

/// The export directory, found under its name.
fn export_of(server: &mut Srv) -> Result<Handle, WrapErr>
    requires some { IsBegun (state server.old).tree }
    ensures export { IfOk result (λ h. IsExport (state server.old).tree h) }
    ensures same { OnOk result ((state server.new).tree ≡ (state server.old).tree) }
    ensures watched { Watched (state server.old) (state server.new) result }
{
    let root = server.root();
    match find(server, &root, b"export")? {
        Some(handle) => Ok(handle),
        None => Ok(root),
    }
}

/// A walk that has found the export directory alone.
pub fn begin(alloc: Global, server: &mut Srv, table: &ConfTable) -> Result<Found, WrapErr>
    requires some { (A : List Entry) × Restarts (state server.old).tree table.now A }
    requires few { length table.now.rows.items < 2 ^ 32 }
    ensures begun { IfOk result (λ f. (A : List Entry) (k : Restarts (state server.old).tree table.now A) →
        IsGoing table.now k.new A f × (is_found f 0 ≡ true)) }
    ensures same { OnOk result ((state server.new).tree ≡ (state server.old).tree) }
    ensures watched { Watched (state server.old) (state server.new) result }
{
    let export = export_of(server)?;
    let Ok(mut found) = nothing(alloc, &table.rows) else {
        return Err(WrapErr::NoMemory);
    };
    match note(&mut found, 0, export, true) {
        Ok(()) => Ok(found),
        Err(_) => Err(WrapErr::NoMemory),
    }
}
