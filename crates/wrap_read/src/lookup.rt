//! LOOKUP (RFC 1094, 2.2.5).

ghost use Rattle.std.specs.Prelude.{◌≡◌, ◌≤◌, List, length, true, false, IfOk, OnOk};
ghost use Rattle.nfs2_types.specs.Call as calls;
ghost use Rattle.nfs2_types.specs.Names.{is_bad};
ghost use Rattle.nfs2_types.specs.declared.Cred.{Cred};
ghost use Rattle.nfs2_types.specs.declared.Limits.{Limits};
ghost use Rattle.nfs2_types.specs.declared.Time.{Time};
ghost use Rattle.abs_model.specs.declared.entry.Entry.{Entry};
ghost use Rattle.abs_model.specs.Array.{entry_at};
ghost use Rattle.abs_model.specs.Objects.{is_dir};
ghost use Rattle.abs_model.specs.Machine.{result_of};
ghost use Rattle.conf_map.specs.Notice.{Watched};
ghost use Rattle.conf_map.specs.Stands.{StandValid};
ghost use Rattle.conf_map.specs.Tables.{IsLive};
ghost use Rattle.wrap_read.specs.Reads.{parent_in, StepFound};

use conf_map::{Located, follow, in_dir, node_of};
use nfs2_types::{Handle, NfsResult, stat};
use server_trait::{ConfTable, Srv, WrapErr};

/// The parent of a row's directory, by the row's word for it.
fn parent_of(table: &ConfTable, index: u32) -> Option<Located>
    ensures { result ≡ parent_in table.now.rows.items index }
{
    let parent = table.rows.get(index as usize)?.parent;
    let handle = table.rows.get(parent as usize)?.handle?;
    Some(Located {
        index: parent,
        handle,
    })
}

/// Where a name of a directory leads; "." is the directory, and ".." its parent.
fn step(
    server: &mut Srv,
    table: &ConfTable,
    d: &Located,
    name: &[u8],
) -> Result<Option<Located>, WrapErr>
    requires dir { (A : List Entry) × (StandValid (state server.old).tree table.now A)
        × (is_dir (entry_at A d.now.index) ≡ true) }
    requires live { IsLive table.now.rows.items d.now }
    requires good { is_bad name.now ≡ false }
    requires short { length name.now ≤ 255 }
    ensures found { IfOk result (λ o. (A : List Entry) →
        StandValid (state server.old).tree table.now A → is_dir (entry_at A d.now.index) ≡ true →
        StepFound A table.now.rows.items d.now.index name.now o) }
    ensures same { OnOk result ((state server.new).tree ≡ (state server.old).tree) }
    ensures watched { Watched (state server.old) (state server.new) result }
{
    if name == b".".as_slice() {
        return Ok(Some(*d));
    }
    if name == b"..".as_slice() {
        return Ok(parent_of(table, d.index));
    }
    let found = follow(server, table, d, name)?;
    Ok(found)
}

/// The object to which a name of a directory leads, with its attributes.
pub fn lookup(
    server: &mut Srv,
    table: &ConfTable,
    dir: &Handle,
    name: &[u8],
) -> Result<NfsResult, WrapErr>
    requires stands { (A : List Entry) × StandValid (state server.old).tree table.now A }
    requires short { length name.now ≤ 255 }
    ensures result { IfOk result (λ r. (A : List Entry) (limits : Limits) (cred : Cred) (t : Time) →
        StandValid (state server.old).tree table.now A →
        r ≡ result_of A limits cred t (calls.lookup dir.now name.now)) }
    ensures same { OnOk result ((state server.new).tree ≡ (state server.old).tree) }
    ensures watched { Watched (state server.old) (state server.new) result }
{
    let d = match in_dir(server, table, dir, name)? {
        Ok(d) => d,
        Err(status) => return Ok(NfsResult::Refused(status)),
    };
    let Some(found) = step(server, table, &d, name)? else {
        return Ok(NfsResult::Refused(stat::NOENT));
    };
    let node = node_of(server, table, &found)?;
    Ok(node)
}
