//! Whether an object may move in place of another.

ghost use Rattle.std.specs.Prelude.{◌≡◌, true, false, nat_lt, List, length, IfOk, OnOk};
ghost use Rattle.abs_model.specs.declared.entry.Entry.{Entry};
ghost use Rattle.abs_model.specs.Array.{entry_at};
ghost use Rattle.abs_model.specs.Machine.{first_of};
ghost use Rattle.abs_model.specs.Objects as objects;
ghost use Rattle.conf_map.specs.Notice.{Watched};
ghost use Rattle.conf_map.specs.Stands.{StandValid};
ghost use Rattle.conf_map.specs.Tables.{IsLive};
ghost use Rattle.wrap_names.specs.Renames.{replace_tests, over_refused, move_refused, IsLiveIf};

use crate::below::is_below;
use crate::ends::Ends;
use conf_map::{Located, attr_of, is_dir};
use nfs2_types::{Stat, stat};
use server_trait::{ConfTable, FileServer, Srv, WrapErr};

/// Whether a live directory has names.
fn has_names(server: &mut Srv, table: &ConfTable, at: &Located) -> Result<bool, WrapErr>
    requires stands { (A : List Entry) × StandValid (state server.old).tree table.now A }
    requires live { IsLive table.now.rows.items at.now }
    ensures names { IfOk result (λ b. (A : List Entry) →
        StandValid (state server.old).tree table.now A → objects.is_dir (entry_at A at.now.index) ≡ true →
        b ≡ nat_lt 0 (length (objects.names_of (entry_at A at.now.index)))) }
    ensures same { OnOk result ((state server.new).tree ≡ (state server.old).tree) }
    ensures watched { Watched (state server.old) (state server.new) result }
{
    let attr = attr_of(server, &at.handle)?;
    Ok(attr.size > 0)
}

/// The status by which an object is not replaced, by whether a directory comes: ISDIR, NOTDIR or NOTEMPTY.
fn replace_refusal(
    server: &mut Srv,
    table: &ConfTable,
    moves_dir: bool,
    over: &Located,
) -> Result<Option<Stat>, WrapErr>
    requires stands { (A : List Entry) × StandValid (state server.old).tree table.now A }
    requires live { IsLive table.now.rows.items over.now }
    ensures refused { IfOk result (λ o. (A : List Entry) →
        StandValid (state server.old).tree table.now A →
        first_of (replace_tests A moves_dir over.now.index) ≡ o) }
    ensures same { OnOk result ((state server.new).tree ≡ (state server.old).tree) }
    ensures watched { Watched (state server.old) (state server.new) result }
{
    let over_dir = is_dir(server, table, over)?;
    if !moves_dir {
        if over_dir {
            return Ok(Some(stat::ISDIR));
        }
        return Ok(None);
    }
    if !over_dir {
        return Ok(Some(stat::NOTDIR));
    }
    if has_names(server, table, over)? {
        return Ok(Some(stat::NOTEMPTY));
    }
    Ok(None)
}

/// The same, where an object is to be replaced.
fn over_refusal(
    server: &mut Srv,
    table: &ConfTable,
    moves_dir: bool,
    over: Option<Located>,
) -> Result<Option<Stat>, WrapErr>
    requires stands { (A : List Entry) × StandValid (state server.old).tree table.now A }
    requires live { IsLiveIf table.now.rows.items over }
    ensures refused { IfOk result (λ o. (A : List Entry) →
        StandValid (state server.old).tree table.now A → over_refused A moves_dir over ≡ o) }
    ensures same { OnOk result ((state server.new).tree ≡ (state server.old).tree) }
    ensures watched { Watched (state server.old) (state server.new) result }
{
    match over {
        Some(over) => {
            let refused = replace_refusal(server, table, moves_dir, &over)?;
            Ok(refused)
        }
        None => Ok(None),
    }
}

/// The status by which an object does not move to its new name, where the names lead to two objects: ISDIR, NOTDIR or
/// NOTEMPTY, or ACCES where a directory would come to lie below itself.
pub fn move_refusal(
    server: &mut Srv,
    table: &ConfTable,
    ends: &Ends,
) -> Result<Option<Stat>, WrapErr>
    requires stands { (A : List Entry) × StandValid (state server.old).tree table.now A }
    requires live { IsLive table.now.rows.items ends.now.at }
    requires over_live { IsLiveIf table.now.rows.items ends.now.over }
    ensures refused { IfOk result (λ o. (A : List Entry) →
        StandValid (state server.old).tree table.now A → objects.is_dir (entry_at A ends.now.to.index) ≡ true →
        move_refused A ends.now.at.index ends.now.to.index ends.now.over ≡ o) }
    ensures same { OnOk result ((state server.new).tree ≡ (state server.old).tree) }
    ensures watched { Watched (state server.old) (state server.new) result }
{
    let moves_dir = is_dir(server, table, &ends.at)?;
    match over_refusal(server, table, moves_dir, ends.over)? {
        Some(refused) => return Ok(Some(refused)),
        None => {}
    }
    if !moves_dir {
        return Ok(None);
    }
    if is_below(table, ends.at.index, ends.to.index) {
        return Ok(Some(stat::ACCES));
    }
    Ok(None)
}
