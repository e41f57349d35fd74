//! Where CREATE makes a file, or finds one (RFC 1094, 2.2.10).

ghost use Rattle.std.specs.Prelude.{◌≡◌, List, Option, true, nat_le, length, IfOk, OnOk};
ghost use Rattle.nfs2_types.specs.Call.{create};
ghost use Rattle.server_trait.specs.Tree.{Tree};
ghost use Rattle.abs_model.specs.declared.entry.Entry.{Entry};
ghost use Rattle.abs_model.specs.Machine.{refusals};
ghost use Rattle.conf_map.specs.Found.{Finds};
ghost use Rattle.conf_map.specs.Notice.{Watched};
ghost use Rattle.conf_map.specs.Stands.{StandsValid, AreWithin};
ghost use Rattle.conf_map.specs.Tables.{IsLive};
ghost use Rattle.wrap_make.specs.Files.{present_tests, new_file_tests, IsFileIndex, IsPresent, IsSpot};

use crate::place::new_index;
use abs_model::FILE_LIMIT;
use conf_map::{Located, find_name, no_room, object_at};
use nfs2_types::{Handle, Limits, Sattr, Stat, stat};
use node_changes::Place;
use server_trait::{ConfTable, FileServer, Srv, WrapErr};

/// The place of a new file, or a file that is there and its size in bytes.
#[derive(Clone, Copy, Debug)]
pub enum Spot {
    Free(Place),
    Taken(Located, u32),
}

/// The size of a file that is there, or the status by which another is refused to it: EXIST, FBIG or NOSPC.
fn present_file(
    server: &mut Srv,
    table: &ConfTable,
    limits: &Limits,
    at: &Located,
    size: Option<u32>,
) -> Result<Result<u32, Stat>, WrapErr>
    requires stands { (A : List Entry)
        × StandsValid limits.now (state server.old).tree table.now A }
    requires within { AreWithin limits.now }
    requires live { IsLive table.now.rows.items at.now }
    ensures found { IfOk result (λ r. (A : List Entry) →
        StandsValid limits.now (state server.old).tree table.now A →
        Finds (present_tests A limits.now at.now.index size) (IsPresent A limits.now at.now.index size) r) }
    ensures same { OnOk result ((state server.new).tree ≡ (state server.old).tree) }
    ensures watched { Watched (state server.old) (state server.new) result }
{
    let attr = object_at(server, table, at)?;
    if !attr.is_file() {
        return Ok(Err(stat::EXIST));
    }
    let Some(size) = size else {
        return Ok(Ok(attr.size));
    };
    if size > FILE_LIMIT {
        return Ok(Err(stat::FBIG));
    }
    if no_room(table, limits, attr.size, size) {
        return Ok(Err(stat::NOSPC));
    }
    Ok(Ok(attr.size))
}

/// The index of a new file of this size, or the status by which it is refused: FBIG or NOSPC.
fn index_of_file(table: &ConfTable, limits: &Limits, size: u32) -> Result<u32, Stat>
    requires stands { (s : Option Tree) × (A : List Entry) × StandsValid limits.now s table.now A }
    requires within { AreWithin limits.now }
    ensures { (s : Option Tree) (A : List Entry) → StandsValid limits.now s table.now A →
        Finds (new_file_tests A limits.now size) (IsFileIndex A limits.now size) result }
{
    if size > FILE_LIMIT {
        return Err(stat::FBIG);
    }
    match new_index(table, limits, size) {
        Some(index) => Ok(index),
        None => Err(stat::NOSPC),
    }
}

/// Where a file of this name is or can be, or the status of the first refusal: STALE, NOTDIR, ACCES, EXIST, FBIG or
/// NOSPC.
pub fn find_spot(
    server: &mut Srv,
    table: &ConfTable,
    limits: &Limits,
    dir: &Handle,
    name: &[u8],
    sattr: &Sattr,
) -> Result<Result<Spot, Stat>, WrapErr>
    requires stands { (A : List Entry)
        × StandsValid limits.now (state server.old).tree table.now A }
    requires within { AreWithin limits.now }
    requires short { nat_le (length name.now) 255 ≡ true }
    ensures found { IfOk result (λ r. (A : List Entry) →
        StandsValid limits.now (state server.old).tree table.now A →
        Finds (refusals A limits.now (create dir.now name.now sattr.now))
        (IsSpot A limits.now table.now.rows.items dir.now name.now sattr.now) r) }
    ensures same { OnOk result ((state server.new).tree ≡ (state server.old).tree) }
    ensures watched { Watched (state server.old) (state server.new) result }
{
    let named = match find_name(server, table, dir, name, stat::EXIST)? {
        Ok(named) => named,
        Err(refused) => return Ok(Err(refused)),
    };
    match named.at {
        Some(at) => match present_file(server, table, limits, &at, sattr.size)? {
            Ok(before) => Ok(Ok(Spot::Taken(at, before))),
            Err(refused) => Ok(Err(refused)),
        },
        None => match index_of_file(table, limits, sattr.size.unwrap_or(0)) {
            Ok(index) => Ok(Ok(Spot::Free(Place {
                dir: named.dir,
                index,
            }))),
            Err(refused) => Ok(Err(refused)),
        },
    }
}
