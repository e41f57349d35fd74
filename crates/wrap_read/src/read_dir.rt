//! READDIR (RFC 1094, 2.2.17).

ghost use Rattle.std.specs.Prelude.{◌≡◌, true, List, IfOk, OnOk};
ghost use Rattle.nfs2_types.specs.Call as calls;
ghost use Rattle.nfs2_types.specs.declared.Cred.{Cred};
ghost use Rattle.nfs2_types.specs.declared.Limits.{Limits};
ghost use Rattle.nfs2_types.specs.declared.Time.{Time};
ghost use Rattle.abs_model.specs.declared.entry.Entry.{Entry};
ghost use Rattle.abs_model.specs.Machine.{result_of};
ghost use Rattle.conf_map.specs.Notice.{Watched};
ghost use Rattle.conf_map.specs.Stands.{StandValid};

use crate::page::page;
use conf_map::{is_dir, locate, names_of};
use nfs2_types::{Handle, NfsResult, stat};
use server_trait::{ConfTable, Srv, WrapErr};

/// Entries of a directory from a cookie on, as many as take at most the count of bytes.
pub fn read_dir(
    server: &mut Srv,
    table: &ConfTable,
    dir: &Handle,
    cookie: u32,
    count: u32,
) -> Result<NfsResult, WrapErr>
    requires { (A : List Entry) × StandValid (state server.old).tree table.now A }
    ensures result { IfOk result (λ r. (A : List Entry) (limits : Limits) (cred : Cred) (t : Time) →
        StandValid (state server.old).tree table.now A →
        r ≡ result_of A limits cred t (calls.read_dir dir.now cookie count)) }
    ensures same { OnOk result ((state server.new).tree ≡ (state server.old).tree) }
    ensures watched { Watched (state server.old) (state server.new) result }
{
    let Some(d) = locate(table, dir) else {
        return Ok(NfsResult::Refused(stat::STALE));
    };
    if !is_dir(server, table, &d)? {
        return Ok(NfsResult::Refused(stat::NOTDIR));
    }
    let names = names_of(server, table, &d)?;
    let parent = table.rows[d.index as usize].parent;
    let listed = page(
        *names.allocator(),
        table,
        d.index,
        parent,
        &names,
        cookie,
        count,
    )?;
    Ok(listed)
}
