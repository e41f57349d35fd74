//! New handles, found from the export directory down.

ghost use Rattle.std.specs.Prelude.{◌≡◌, ◌<◌, ◌^◌, ℕ, List, Some, None, true, false, length, IsSome, IsSomeAnd, IfOk, OnOk};
ghost use Rattle.std.specs.BTreeMap as ordered;
ghost use Rattle.std.specs.Ordering.{nat_cmp};
ghost use Rattle.server_trait.specs.Tree.{Tree, names_at};
ghost use Rattle.server_trait.specs.Calls.{Lists};
ghost use Rattle.server_trait.specs.declared.bench.ConfTable.{ConfTable};
ghost use Rattle.abs_model.specs.declared.entry.Entry.{Entry};
ghost use Rattle.abs_model.specs.Objects.{is_dir, is_null};
ghost use Rattle.abs_model.specs.Array.{entry_at};
ghost use Rattle.conf_map.specs.Found.{is_dir_kind};
ghost use Rattle.conf_map.specs.Notice.{Watched};
ghost use Rattle.conf_map.specs.Stands.{handle_at};
ghost use Rattle.restart.specs.Rows.{handle_of};
ghost use Rattle.restart.specs.Walk.{Restarts, IsGoing, Grows, AreFoundIn, AreLive, AreSeen, IsTurn, is_found};

use crate::found::{Found, note};
use conf_map::{attr_of, broken};
use nfs2_types::{Handle, Kind};
use server_trait::{FileServer, Listed, NodeAttr, Srv, WrapErr};

/// Whether these are attributes of a directory.
fn is_dir_attr(attr: &NodeAttr) -> bool
    ensures { result ≡ is_dir_kind attr.now.kind }
{
    match attr.kind {
        Kind::Dir => true,
        _ => false,
    }
}

/// The row of the node that has a number.
fn row_with(found: &Found, number: u64) -> Option<u32>
    ensures { result ≡ ordered.get nat_cmp found.now.rows number }
{
    found.rows.get(&number).copied()
}

/// Notes the row of a node, by its number.
fn see(server: &mut Srv, handle: &Handle, found: &mut Found) -> Result<(), WrapErr>
    requires seen { (table : ConfTable) × (A : List Entry) × (k : Restarts (state server.old).tree table A)
        × (i : ℕ) × (h : List ℕ) × (handle_at table.rows.items i ≡ Some h) × (handle.now ≡ k.new h)
        × IsGoing table k.new A found.old }
    ensures seen { OnOk result ((table : ConfTable) (A : List Entry) (k : Restarts (state server.old).tree table A)
        (i : ℕ) (h : List ℕ) → handle_at table.rows.items i ≡ Some h → handle.now ≡ k.new h →
        IsGoing table k.new A found.old → IsGoing table k.new A found.new × (is_found found.new i ≡ true)) }
    ensures grows { OnOk result (Grows found.old found.new) }
    ensures same { OnOk result ((state server.new).tree ≡ (state server.old).tree) }
    ensures watched { Watched (state server.old) (state server.new) result }
{
    let attr = attr_of(server, handle)?;
    let Some(index) = row_with(found, attr.number) else {
        return Ok(());
    };
    match note(found, index, *handle, is_dir_attr(&attr)) {
        Ok(()) => Ok(()),
        Err(_) => Err(WrapErr::NoMemory),
    }
}

/// The names of a directory.
fn list(server: &mut Srv, dir: &Handle) -> Result<Vec<Listed>, WrapErr>
    requires dir { IsSomeAnd (state server.old).tree (λ t. IsSome (names_at t dir.now)) }
    ensures listed { IfOk result (λ rows. (t : Tree) →
        (state server.old).tree ≡ Some t → IsSomeAnd (names_at t dir.now) (Lists rows.items)) }
    ensures same { OnOk result ((state server.new).tree ≡ (state server.old).tree) }
    ensures watched { Watched (state server.old) (state server.new) result }
{
    match server.list(dir) {
        Ok(rows) => Ok(rows),
        Err(error) => Err(broken(error)),
    }
}

/// Notes the rows of all nodes of a listing.
fn see_all(server: &mut Srv, listed: &[Listed], found: &mut Found) -> Result<(), WrapErr>
    requires seen { (table : ConfTable) × (A : List Entry) × (k : Restarts (state server.old).tree table A)
        × AreLive table k.new listed.now × IsGoing table k.new A found.old }
    ensures seen { OnOk result ((table : ConfTable) (A : List Entry) (k : Restarts (state server.old).tree table A) →
        AreLive table k.new listed.now → IsGoing table k.new A found.old →
        IsGoing table k.new A found.new × AreSeen table k.new listed.now (length listed.now) found.new) }
    ensures grows { OnOk result (Grows found.old found.new) }
    ensures same { OnOk result ((state server.new).tree ≡ (state server.old).tree) }
    ensures watched { Watched (state server.old) (state server.new) result }
{
    for k in 0..listed.len() {
        match see(server, &listed[k].handle, found) {
            Ok(()) => {}
            Err(error) => return Err(error),
        }
    }
    Ok(())
}

/// Notes the rows to which the names of a directory lead, whose new handle is given.
fn go_through(server: &mut Srv, dir: &Handle, found: &mut Found) -> Result<(), WrapErr>
    requires dir { (table : ConfTable) × (A : List Entry) × (k : Restarts (state server.old).tree table A) × (d : ℕ)
        × (h : List ℕ) × (handle_at table.rows.items d ≡ Some h) × (dir.now ≡ k.new h)
        × (is_dir (entry_at A d) ≡ true) × IsGoing table k.new A found.old }
    ensures gone { OnOk result ((table : ConfTable) (A : List Entry) (k : Restarts (state server.old).tree table A)
        (d : ℕ) (h : List ℕ) → handle_at table.rows.items d ≡ Some h → dir.now ≡ k.new h →
        is_dir (entry_at A d) ≡ true → IsGoing table k.new A found.old →
        IsGoing table k.new A found.new × AreFoundIn A found.new d) }
    ensures grows { OnOk result (Grows found.old found.new) }
    ensures same { OnOk result ((state server.new).tree ≡ (state server.old).tree) }
    ensures watched { Watched (state server.old) (state server.new) result }
{
    let listed = list(server, dir)?;
    see_all(server, &listed, found)?;
    Ok(())
}

/// The new handle of a row, if it was found.
fn new_handle(found: &Found, d: u32) -> Option<Handle>
    ensures { result ≡ handle_of found.now.handles.items d }
{
    match found.handles.get(d as usize) {
        Some(handle) => *handle,
        None => None,
    }
}

/// Goes through the directory that was found at this turn, and says whether there is one.
fn next_dir(server: &mut Srv, turn: usize, found: &mut Found) -> Result<bool, WrapErr>
    requires going { (table : ConfTable) × (A : List Entry) × (k : Restarts (state server.old).tree table A)
        × IsGoing table k.new A found.old }
    ensures gone { IfOk result (λ more. (table : ConfTable) (A : List Entry)
        (k : Restarts (state server.old).tree table A) → IsGoing table k.new A found.old →
        IsGoing table k.new A found.new × IsTurn A found.old turn more found.new) }
    ensures grows { OnOk result (Grows found.old found.new) }
    ensures same { OnOk result ((state server.new).tree ≡ (state server.old).tree) }
    ensures watched { Watched (state server.old) (state server.new) result }
{
    if turn >= found.dirs.len() {
        return Ok(false);
    }
    let d = found.dirs[turn];
    let Some(dir) = new_handle(found, d) else {
        return Ok(false);
    };
    go_through(server, &dir, found)?;
    Ok(true)
}

/// Finds the new handles of all rows, where the export directory's is noted already.
pub fn find_all(server: &mut Srv, found: &mut Found) -> Result<(), WrapErr>
    requires going { (table : ConfTable) × (A : List Entry) × (k : Restarts (state server.old).tree table A)
        × IsGoing table k.new A found.old }
    ensures all { OnOk result ((table : ConfTable) (A : List Entry) (k : Restarts (state server.old).tree table A) →
        IsGoing table k.new A found.old → is_found found.old 0 ≡ true →
        IsGoing table k.new A found.new
        × ((i : ℕ) → is_null (entry_at A i) ≡ false → is_found found.new i ≡ true)) }
    ensures same { OnOk result ((state server.new).tree ≡ (state server.old).tree) }
    ensures watched { Watched (state server.old) (state server.new) result }
{
    for turn in 0..found.handles.len() {
        match next_dir(server, turn, found) {
            Ok(true) => {}
            Ok(false) => return Ok(()),
            Err(error) => return Err(error),
        }
    }
    Ok(())
}
