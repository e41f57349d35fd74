//! Where a new object goes.

ghost use Rattle.std.specs.Prelude.{◌≡◌, ◌≤◌, ℕ, List, Option, true, nat_le, length, IfOk, OnOk};
ghost use Rattle.server_trait.specs.Tree.{Tree};
ghost use Rattle.abs_model.specs.declared.entry.Entry.{Entry};
ghost use Rattle.abs_model.specs.Machine.{new_name_tests};
ghost use Rattle.conf_map.specs.Notice.{Watched};
ghost use Rattle.conf_map.specs.Stands.{StandsValid, AreWithin};
ghost use Rattle.conf_map.specs.Found.{Finds};
ghost use Rattle.wrap_make.specs.Places.{IndexFound, IsPlace};

use conf_map::{find_name, lowest_null, no_room};
use nfs2_types::{Handle, Limits, Stat, stat};
use node_changes::Place;
use server_trait::{ConfTable, FileServer, Srv, WrapErr};

/// The index of a new object of so many bytes, or `None` where no index is free or the bytes would pass their limit.
pub fn new_index(table: &ConfTable, limits: &Limits, bytes: u32) -> Option<u32>
    requires stands { (s : Option Tree) × (A : List Entry) × StandsValid limits.now s table.now A }
    requires within { AreWithin limits.now }
    requires few { bytes ≤ 1048576 }
    ensures { (s : Option Tree) (A : List Entry) → StandsValid limits.now s table.now A →
        IndexFound A limits.now bytes result }
{
    let Some(index) = lowest_null(table) else {
        return None;
    };
    if no_room(table, limits, 0, 512 + bytes) {
        return None;
    }
    Some(index)
}

/// The place of a new object of so many bytes, or the status of the first refusal: STALE, NOTDIR, ACCES, EXIST or
/// NOSPC.
pub fn place_of(
    server: &mut Srv,
    table: &ConfTable,
    limits: &Limits,
    dir: &Handle,
    name: &[u8],
    bytes: u32,
) -> Result<Result<Place, Stat>, WrapErr>
    requires stands { (A : List Entry)
        × StandsValid limits.now (state server.old).tree table.now A }
    requires within { AreWithin limits.now }
    requires short { nat_le (length name.now) 255 ≡ true }
    requires few { bytes ≤ 1048576 }
    ensures found { IfOk result (λ r. (A : List Entry) →
        StandsValid limits.now (state server.old).tree table.now A →
        Finds (new_name_tests A limits.now dir.now name.now bytes)
        (IsPlace A limits.now table.now.rows.items dir.now name.now bytes) r) }
    ensures same { OnOk result ((state server.new).tree ≡ (state server.old).tree) }
    ensures watched { Watched (state server.old) (state server.new) result }
{
    let named = match find_name(server, table, dir, name, stat::EXIST)? {
        Ok(named) => named,
        Err(refused) => return Ok(Err(refused)),
    };
    if named.at.is_some() {
        return Ok(Err(stat::EXIST));
    }
    match new_index(table, limits, bytes) {
        Some(index) => Ok(Ok(Place {
            dir: named.dir,
            index,
        })),
        None => Ok(Err(stat::NOSPC)),
    }
}
