//! Directories of calls, and their names.

ghost use Rattle.std.specs.Prelude.{◌≡◌, List, true, false, IfOk, OnOk};
ghost use Rattle.nfs2_types.specs.Names.{is_name};
ghost use Rattle.abs_model.specs.declared.entry.Entry.{Entry};
ghost use Rattle.abs_model.specs.Array.{entry_at};
ghost use Rattle.abs_model.specs.Machine.{in_dir as in_dir_tests};
ghost use Rattle.abs_model.specs.Objects as objects;
ghost use Rattle.conf_map.specs.Found.{Finds, IsDirCall, NameFound};
ghost use Rattle.conf_map.specs.Notice.{Watched};
ghost use Rattle.conf_map.specs.Stands.{StandValid};
ghost use Rattle.conf_map.specs.Tables.{IsLive};

use crate::ask::find;
use crate::object::object_at;
use crate::table::{Located, index_of, locate};
use nfs2_types::{Handle, Stat, is_bad, stat};
use server_trait::{ConfTable, Srv, WrapErr};

/// Whether a live object is a directory.
pub fn is_dir(server: &mut Srv, table: &ConfTable, at: &Located) -> Result<bool, WrapErr>
    requires stands { (A : List Entry) × StandValid (state server.old).tree table.now A }
    requires live { IsLive table.now.rows.items at.now }
    ensures is_dir { IfOk result (λ b. (A : List Entry) →
        StandValid (state server.old).tree table.now A → b ≡ objects.is_dir (entry_at A at.now.index)) }
    ensures same { OnOk result ((state server.new).tree ≡ (state server.old).tree) }
    ensures watched { Watched (state server.old) (state server.new) result }
{
    let attr = object_at(server, table, at)?;
    Ok(attr.is_dir())
}

/// The directory of a call on a name in it, or the status of the first refusal: STALE, NOTDIR, ACCES.
pub fn in_dir(
    server: &mut Srv,
    table: &ConfTable,
    dir: &Handle,
    name: &[u8],
) -> Result<Result<Located, Stat>, WrapErr>
    requires stands { (A : List Entry) × StandValid (state server.old).tree table.now A }
    ensures found { IfOk result (λ r. (A : List Entry) →
        StandValid (state server.old).tree table.now A →
        Finds (in_dir_tests A dir.now name.now) (IsDirCall A table.now.rows.items dir.now name.now) r) }
    ensures same { OnOk result ((state server.new).tree ≡ (state server.old).tree) }
    ensures watched { Watched (state server.old) (state server.new) result }
{
    let Some(d) = locate(table, dir) else {
        return Ok(Err(stat::STALE));
    };
    if !is_dir(server, table, &d)? {
        return Ok(Err(stat::NOTDIR));
    }
    if is_bad(name) {
        return Ok(Err(stat::ACCES));
    }
    Ok(Ok(d))
}

/// Where a name of a live directory leads, if it is there.
pub fn follow(
    server: &mut Srv,
    table: &ConfTable,
    d: &Located,
    name: &[u8],
) -> Result<Option<Located>, WrapErr>
    requires dir { (A : List Entry) × (StandValid (state server.old).tree table.now A)
        × (objects.is_dir (entry_at A d.now.index) ≡ true) }
    requires live { IsLive table.now.rows.items d.now }
    requires name { is_name name.now ≡ true }
    ensures found { IfOk result (λ o. (A : List Entry) →
        StandValid (state server.old).tree table.now A → objects.is_dir (entry_at A d.now.index) ≡ true →
        NameFound A table.now.rows.items d.now.index name.now o) }
    ensures same { OnOk result ((state server.new).tree ≡ (state server.old).tree) }
    ensures watched { Watched (state server.old) (state server.new) result }
{
    let Some(handle) = find(server, &d.handle, name)? else {
        return Ok(None);
    };
    let Some(index) = index_of(table, &handle) else {
        return Ok(None);
    };
    Ok(Some(Located { index, handle }))
}
